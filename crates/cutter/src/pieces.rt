// The pieces of all lines.
ghost use Rattle.std.specs.Prelude.{◌≡◌, ◌<◌, IfOk, Some, length, map, slice_get};
ghost use Rattle.geometry.specs.Points.{Point};
ghost use Rattle.junctions.specs.Answers.{AnswersFor};
ghost use Rattle.junctions.specs.Cleaning.{AllClean};
ghost use Rattle.cutter.specs.Alone.{AreAlone};
ghost use Rattle.cutter.specs.Places.{IsStructured};
ghost use Rattle.cutter.specs.Segments.{line_segments, piece_segments, times};
ghost use Rattle.cutter.specs.SharedCuts.{AllRise, cut_lines};
ghost use Rattle.cutter.specs.Slices.{AllSplit, all_pieces, split_of, lines_and_rings};
ghost use Rattle.cutter.specs.Structure.{SharersAreAlike, SegmentsAreOnce, InteriorsAreDistinct, PiecesAreLong};

use crate::cut_indexes::CutIndexes;
use crate::splitting::split_line;
use junctions::{Lines, Stroke, Vertices};
use owned_values::Memory;
use std::alloc::Global;
use std::marker::Model;

/// The lines of the linework, rings from their starts, and their pieces. Two pieces that share a segment are equal or each
/// other's reverse, no segment stands twice in a piece, and the positions between a piece's ends are distinct; it has two
/// or more. The pieces of a line, joined again, are the line, whose neighbours differ; a ring ends with its first position.
#[derive(Debug, Drop)]
pub struct Pieces {
    lines_and_rings: Vec<Stroke>,
    /// The indexes at which the lines are cut, line after line.
    cuts: Vec<usize>,
    /// For each line, how many of the indexes are its own or those of lines before it.
    ends: Vec<usize>,
    /// For each line, whether it is known to be one whole piece that is alike no other.
    alone: Vec<bool>,
}

impl Model for Pieces {
    ghost use Rattle.std.specs.Prelude.{◌≡◌, List, length};
    ghost use Rattle.cutter.specs.Alone.{AreAlone};
    ghost use Rattle.cutter.specs.Places.{IsStructured};
    ghost use Rattle.cutter.specs.Slices.{SplitLine, AllSplit, all_pieces, lines_and_rings as lines_and_rings_of};
    ghost use Rattle.cutter.specs.SharedCuts.{AreCutIndexes, split_lines_and_rings};
    ghost use Rattle.junctions.specs.Cleaning.{AllClean};

    ghost Value = { List SplitLine };

    ghost view = { λ s. split_lines_and_rings s.cuts.items 0 s.lines_and_rings.items s.ends.items };

    ghost invariant = { λ s. AreCutIndexes s.cuts.items 0 s.lines_and_rings.items s.ends.items
        × IsStructured (all_pieces (split_lines_and_rings s.cuts.items 0 s.lines_and_rings.items s.ends.items))
        × AllSplit (split_lines_and_rings s.cuts.items 0 s.lines_and_rings.items s.ends.items)
        × AllClean (lines_and_rings_of (split_lines_and_rings s.cuts.items 0 s.lines_and_rings.items s.ends.items))
        × (length s.alone.items ≡ length s.lines_and_rings.items)
        × AreAlone s.alone.items (split_lines_and_rings s.cuts.items 0 s.lines_and_rings.items s.ends.items) };
}

/// The lines, each split at its cut positions, which both pieces keep; a ring is first turned to its start. What was left
/// out of the lines isn't kept.
pub fn cut(alloc: Global, lines: Lines, vertices: &Vertices) -> Result<Pieces, Memory>
    requires { AnswersFor lines.lines_and_rings vertices.now }
    ensures pieces { IfOk result (λ ps. ps ≡ map (split_of lines.lines_and_rings) lines.lines_and_rings) }
    ensures segments { IfOk result
        (λ ps. (a b : Point) → times a b (piece_segments (all_pieces ps)) ≡ times a b (line_segments lines.lines_and_rings)) }
{
    let (mut lines_and_rings, _dropped) = lines.into_parts();
    // Each line is cut at its two ends. Where there are more cuts the list grows.
    let mut cuts = Vec::with_capacity(alloc, lines_and_rings.len().saturating_mul(2))?;
    let mut ends = Vec::with_capacity(alloc, lines_and_rings.len())?;
    let mut alone = Vec::with_capacity(alloc, lines_and_rings.len())?;
    let mut visit: usize = 0;
    for i in 0..lines_and_rings.len() {
        let once = split_line(&mut lines_and_rings[i], visit, vertices, &mut cuts)?;
        ends.push(cuts.len())?;
        alone.push(once)?;
        visit = visit.wrapping_add(lines_and_rings[i].positions.len());
    }
    Ok(Pieces {
        lines_and_rings,
        cuts,
        ends,
        alone,
    })
}

impl Pieces {
    /// How many lines and rings there are.
    #[tactic(auto, using(crate::proofs::SharedCuts::as_many_splits))]
    pub fn len(&self) -> usize
        ensures { result ≡ length self.now }
    {
        self.lines_and_rings.len()
    }

    /// The line with this number, a ring turned to its start.
    #[tactic(auto, using(crate::proofs::SharedCuts::as_many_splits, crate::proofs::SharedCuts::lines_and_rings_of))]
    pub fn stroke(&self, i: usize) -> &Stroke
        requires { i < length self.now }
        ensures { slice_get (lines_and_rings self.now) i ≡ Some result.now }
    {
        &self.lines_and_rings[i]
    }

    /// How many pieces there are; it is only how much room is made for them.
    pub fn room(&self) -> usize {
        self.cuts.len().saturating_sub(self.ends.len())
    }

    /// How many pieces there are without those of lines that are alone; it is only how much room is made for them.
    pub fn room_for_shared(&self) -> usize {
        let alone = self.alone.iter().filter(|alone| **alone).count();
        self.room().saturating_sub(alone)
    }

    /// The lines and rings, rings turned to their starts, the indexes at which each is cut, and for each line whether it is known to be one
    /// whole piece that is alike no other, by value.
    pub fn into_parts(self) -> (Vec<Stroke>, CutIndexes, Vec<bool>)
        ensures lines { result.0.items ≡ lines_and_rings self }
        ensures pieces { cut_lines result.0.items result.1 ≡ self }
        ensures rising { AllRise result.0.items result.1 }
        ensures flags { length result.2.items ≡ length self }
        ensures alone { AreAlone result.2.items self }
    {
        let pieces = self;
        let indexes = CutIndexes::of(pieces.cuts, pieces.ends);
        (pieces.lines_and_rings, indexes, pieces.alone)
    }

    /// What the pieces of lines have in common. A call does nothing; its contract is what `Pieces` keeps.
    #[tactic(auto, using(crate::proofs::Names::all_pieces, crate::proofs::Words::sharers, crate::proofs::Words::segments_once))]
    pub fn law(&self)
        ensures structured { IsStructured (all_pieces self.now) }
        ensures sharing { SharersAreAlike (all_pieces self.now) }
        ensures once { SegmentsAreOnce (all_pieces self.now) }
        ensures distinct { InteriorsAreDistinct (all_pieces self.now) }
        ensures long { PiecesAreLong (all_pieces self.now) }
        ensures joined { AllSplit self.now }
        ensures clean { AllClean (lines_and_rings self.now) }
    {
        let _ = &self.lines_and_rings;
    }
}

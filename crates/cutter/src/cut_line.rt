// A line or a ring that is cut, by value.
ghost use Rattle.std.specs.Prelude.{◌≡◌, ◌≢◌, ◌∷◌, [], IfErr, IfOk, length};
ghost use Rattle.cutter.specs.Pieces.{stitched};
ghost use Rattle.cutter.specs.Slices.{slices, IsRising};

use crate::piece_iter::PieceIter;
use geometry::Position;
use junctions::Stroke;
use owned_values::Items;
use std::marker::Model;

/// A line or a ring, by value, with the indexes at which it is cut. Contracts see its pieces, which, joined again, are its positions.
#[derive(Debug, Drop)]
pub struct CutLine<'a> {
    positions: Items<Position>,
    cuts: &'a [usize],
}

impl<'a> Model for CutLine<'a> {
    ghost use Rattle.std.specs.Prelude.{◌≡◌, List, length};
    ghost use Rattle.geometry.specs.Points.{Point};
    ghost use Rattle.cutter.specs.Pieces.{stitched};
    ghost use Rattle.cutter.specs.Slices.{slices, IsRising};

    ghost Value = { List (List Point) };

    ghost view = { λ s. slices s.positions s.cuts.now };

    ghost invariant = { λ s. IsRising (length s.positions) s.cuts.now × (stitched (slices s.positions s.cuts.now) ≡ s.positions) };
}

impl<'a> CutLine<'a> {
    /// The line, cut at these indexes.
    pub fn of(line: Stroke, cuts: &'a [usize]) -> CutLine<'a>
        requires rising { IsRising (length line.positions) cuts.now }
        requires joined { stitched (slices line.positions cuts.now) ≡ line.positions }
        ensures { result ≡ slices line.positions cuts.now }
    {
        CutLine {
            positions: line.positions,
            cuts,
        }
    }

    /// Its positions, if the line is one piece, and else the line again.
    #[tactic(auto, using(crate::proofs::SliceLaws::whole_slice, crate::proofs::SliceLaws::other_slices))]
    pub fn into_whole(self) -> Result<Items<Position>, CutLine<'a>>
        ensures whole { IfOk result (λ positions. self.entry ≡ positions ∷ []) }
        ensures again { IfErr result (λ line. line ≡ self.entry) }
        ensures cut { IfErr result (λ line. length line ≢ 1) }
    {
        let line = self;
        if line.cuts.len() == 2 {
            return Ok(line.positions);
        }
        Err(line)
    }

    /// Its pieces, in order.
    pub fn pieces(&self) -> PieceIter<'_>
        ensures { result ≡ self.now }
    {
        PieceIter::over(self.positions.as_slice(), self.cuts)
    }
}

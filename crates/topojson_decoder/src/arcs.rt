// Arcs (TopoJSON 1.0, section 2.1.3).
ghost use Rattle.std.specs.Prelude.{◌≡◌, ℕ, List, [], Option, None, IfOk};
ghost use Rattle.std.specs.Option.{option_copied};
ghost use Rattle.json_value.specs.declared.json.Json.{Json as Value};
ghost use Rattle.geojson_types.specs.declared.counts.Counts.{Counts as Counted};
ghost use Rattle.json_cursor.specs.Answers.{Answers};
ghost use Rattle.json_cursor.specs.Arrays.{array_by, prefix_value};
ghost use Rattle.json_cursor.specs.Folds.{fold};
ghost use Rattle.topojson_types.specs.declared.transform.Transform.{Transform as Moving};
ghost use Rattle.topojson_meaning.specs.ArcTexts.{IsArcText};
ghost use Rattle.topojson_meaning.specs.Arcs as spec;
ghost use Rattle.topojson_meaning.specs.declared.fault.TopoFault.TheVariants.{WrongKind};
ghost use Rattle.topojson_decoder.specs.Cells.{ArcsSoFar, CellsSoFar, with_arc, with_cell};
ghost use Rattle.topojson_decoder.specs.Kept.{kept_arc_list};

use crate::arc_ends::{KeptArcs, arc_ends_at};
use crate::arrays::elements_at;
use crate::grids::Grid;
use crate::keeping::Keeping;
use crate::next_cells::{ByDifferences, ByPositions, NextCell};
use crate::spelled_arcs::SpelledArcs;
use geojson_types::Counts;
use json_cursor::{Elements, Stop};
use json_value::Items;
use std::alloc::{AllocError, Global};
use std::marker::Model;
use std::mem;
use topojson_meaning::TopoFault;
use topojson_types::{Cell, Transform};

/// The cells of an arc that were read so far.
#[derive(Drop)]
struct Cells<N: NextCell> {
    by: N,
    before: Cell,
    list: Vec<Cell>,
}

impl<N: NextCell> Model for Cells<N> {
    ghost Value = { CellsSoFar };

    ghost view = { λ s. ((N.transform s.by, s.before), s.list.items) };
}

impl<'a, N: NextCell> Elements<'a> for Cells<N> {
    type Fault = TopoFault;

    type With = ();

    ghost takes = { λ _. with_cell };

    #[inline(always)]
    fn element(
        &mut self,
        alloc: Global,
        depth_left: u32,
        bytes: &'a [u8],
        _with: (),
        counts: &mut Counts,
    ) -> Result<&'a [u8], Stop<TopoFault>> {
        match self
            .by
            .next_at(alloc, depth_left, self.before, bytes, counts)
        {
            Err(stop) => Err(stop),
            Ok((cell, rest)) => {
                self.list.push(cell)?;
                self.before = cell;
                Ok(rest)
            }
        }
    }
}

/// An arc of more cells is the list that they were read into.
const SHORT_ARC: usize = 1024;

/// The cells as an arc, and a list that the next arc may be read into.
fn parted(alloc: Global, cells: Vec<Cell>) -> Result<(Items<Cell>, Vec<Cell>), AllocError>
    ensures { IfOk result (λ x. x.0 ≡ cells.items) }
{
    if cells.len() > SHORT_ARC {
        let mut long = cells;
        long.shrink_to_fit();
        return Ok((Items::of(long), Vec::new(alloc)));
    }
    let mut short = Vec::with_capacity(alloc, cells.len())?;
    short.extend_from_slice(&cells)?;
    Ok((Items::of(short), cells))
}

/// The arc at the front, beside a list that the next one may be read into, and what follows it; or why reading stops. Its cells are read into
/// a list that was used before, so that it takes memory once.
#[inline(always)]
fn arc_through<'a, N: NextCell>(
    alloc: Global,
    depth_left: u32,
    by: N,
    used: Vec<Cell>,
    bytes: &'a [u8],
    counts: &mut Counts,
) -> Result<((Items<Cell>, Vec<Cell>), &'a [u8]), Stop<TopoFault>>
    ensures { Answers (λ x. x.0) (spec.arc (N.transform by)) (prefix_value depth_left bytes.now) counts.old counts.new result }
{
    let mut list = used;
    list.clear();
    let start = Cells {
        by,
        before: Cell::at(0, 0),
        list,
    };
    match elements_at::<Cells<N>>(alloc, depth_left, start, bytes, counts) {
        Err(stop) => Err(stop),
        Ok((read, rest)) => {
            let cells = read.list;
            if cells.len() < 2 {
                return Err(Stop::Fault(TopoFault::ShortArc));
            }
            let both = parted(alloc, cells)?;
            Ok((both, rest))
        }
    }
}

/// The arc at the front whose cells are read so, and what follows it; or why reading stops.
fn arc_by<'a, N: NextCell>(
    alloc: Global,
    depth_left: u32,
    by: N,
    bytes: &'a [u8],
    counts: &mut Counts,
) -> Result<(Items<Cell>, &'a [u8]), Stop<TopoFault>>
    ensures { Answers (λ x. x) (spec.arc (N.transform by)) (prefix_value depth_left bytes.now) counts.old counts.new result }
{
    let none = Vec::new(alloc);
    match arc_through(alloc, depth_left, by, none, bytes, counts) {
        Err(stop) => Err(stop),
        Ok((both, rest)) => {
            let (arc, used) = both;
            drop(used);
            Ok((arc, rest))
        }
    }
}

/// The arc at the front, and what follows it; or why reading stops.
pub fn arc_at<'a>(
    alloc: Global,
    depth_left: u32,
    transform: Option<&Transform>,
    bytes: &'a [u8],
    counts: &mut Counts,
) -> Result<(Items<Cell>, &'a [u8]), Stop<TopoFault>>
    ensures { Answers (λ x. x) (spec.arc (option_copied transform.entry)) (prefix_value depth_left bytes.now) counts.old counts.new result }
{
    match transform {
        None => arc_by(alloc, depth_left, ByPositions, bytes, counts),
        Some(transform) => {
            let grid = Grid::of_many(transform);
            let by = ByDifferences { grid };
            arc_by(alloc, depth_left, by, bytes, counts)
        }
    }
}

/// An arc, a list that the next one may be read into, and the text in which the arc stands, where that is what is written of it without a transform.
struct ReadArc<'a> {
    arc: Items<Cell>,
    used: Vec<Cell>,
    text: Option<&'a [u8]>,
}

/// The arc at the front, and what follows it; or why reading stops. What stands as it is written is read so, and anything else in any way.
#[inline(always)]
fn either_arc_at<'a, N: NextCell>(
    alloc: Global,
    depth_left: u32,
    by: N,
    used: Vec<Cell>,
    bytes: &'a [u8],
    counts: &mut Counts,
) -> Result<(ReadArc<'a>, &'a [u8]), Stop<TopoFault>>
    ensures arc { Answers (λ x. x.arc) (spec.arc (N.transform by)) (prefix_value depth_left bytes.now) counts.old counts.new result }
    ensures text { IfOk result (λ x. IsArcText None x.0.arc x.0.text) }
{
    let mut list = used;
    if let Some((text, rest)) = by.written_at(depth_left, &mut list, bytes)? {
        let (arc, used) = parted(alloc, list)?;
        let read = ReadArc {
            arc,
            used,
            text: Some(text),
        };
        return Ok((read, rest));
    }
    match arc_through(alloc, depth_left, by, list, bytes, counts) {
        Err(stop) => Err(stop),
        Ok((both, rest)) => {
            let (arc, used) = both;
            let read = ReadArc {
                arc,
                used,
                text: None,
            };
            Ok((read, rest))
        }
    }
}

/// The arcs that were read so far, and a list that the cells of the next one are read into.
#[derive(Drop)]
struct Arcs<'a, N: NextCell> {
    by: N,
    arcs: SpelledArcs<'a>,
    used: Vec<Cell>,
}

impl<'a, N: NextCell> Model for Arcs<'a, N> {
    ghost Value = { ArcsSoFar };

    ghost view = { λ s. (N.transform s.by, s.arcs) };
}

impl<'a, N: NextCell> Elements<'a> for Arcs<'a, N> {
    type Fault = TopoFault;

    type With = ();

    ghost takes = { λ _. with_arc };

    #[inline(always)]
    fn element(
        &mut self,
        alloc: Global,
        depth_left: u32,
        bytes: &'a [u8],
        _with: (),
        counts: &mut Counts,
    ) -> Result<&'a [u8], Stop<TopoFault>> {
        let used = mem::replace(&mut self.used, Vec::new(alloc));
        match either_arc_at(alloc, depth_left, self.by, used, bytes, counts) {
            Err(stop) => Err(stop),
            Ok((read, rest)) => {
                let ReadArc { arc, used, text } = read;
                self.used = used;
                self.arcs.push(arc, text)?;
                Ok(rest)
            }
        }
    }
}

/// What is answered of arcs, without room for more of them.
fn arcs_alone<'a, N: NextCell>(
    answer: Result<(Arcs<'a, N>, &'a [u8]), Stop<TopoFault>>,
) -> Result<(SpelledArcs<'a>, &'a [u8]), Stop<TopoFault>>
    ensures { (transform : Option Moving) (prefix : Option (Value × List ℕ)) (old new : Counted) → Answers (λ x. x) (array_by WrongKind (fold with_arc (transform, []))) prefix old new answer.entry
        → Answers (λ x. x) (spec.arc_list transform) prefix old new result }
{
    match answer {
        Err(stop) => Err(stop),
        Ok((read, rest)) => {
            let Arcs { arcs, used, .. } = read;
            drop(used);
            let mut arcs = arcs;
            arcs.shrink_to_fit();
            Ok((arcs, rest))
        }
    }
}

/// The arcs of the array at the front, beside their texts if these are kept, and what follows it; or why reading stops. With a transform there
/// are no texts.
fn spelled_arcs_at<'a>(
    alloc: Global,
    depth_left: u32,
    texts: bool,
    transform: Option<&Transform>,
    bytes: &'a [u8],
    counts: &mut Counts,
) -> Result<(SpelledArcs<'a>, &'a [u8]), Stop<TopoFault>>
    ensures { Answers (λ x. x) (spec.arc_list (option_copied transform.entry)) (prefix_value depth_left bytes.now) counts.old counts.new result }
{
    let used = Vec::new(alloc);
    match transform {
        None => {
            let start = Arcs {
                by: ByPositions,
                arcs: SpelledArcs::none(alloc, texts),
                used,
            };
            arcs_alone(elements_at(alloc, depth_left, start, bytes, counts))
        }
        Some(transform) => {
            let grid = Grid::of_many(transform);
            let start = Arcs {
                by: ByDifferences { grid },
                arcs: SpelledArcs::none(alloc, false),
                used,
            };
            arcs_alone(elements_at(alloc, depth_left, start, bytes, counts))
        }
    }
}

/// What is kept of the arcs of the array at the front, and what follows it; or why reading stops.
#[tactic(auto, using(json_cursor::proofs::Steps::then_stops, crate::proofs::KeptParts::all_held, crate::proofs::KeptParts::made))]
pub(crate) fn kept_arcs_at<'a>(
    alloc: Global,
    depth_left: u32,
    keeping: Keeping,
    texts: bool,
    transform: Option<&Transform>,
    bytes: &'a [u8],
    counts: &mut Counts,
) -> Result<(KeptArcs<'a>, &'a [u8]), Stop<TopoFault>>
    ensures { Answers (λ x. x) (kept_arc_list keeping (option_copied transform.entry)) (prefix_value depth_left bytes.now) counts.old counts.new result }
{
    match keeping {
        Keeping::Counted => arc_ends_at(alloc, depth_left, transform, bytes, counts),
        Keeping::Whole(_) | Keeping::Shapes => match spelled_arcs_at(
            alloc, depth_left, texts, transform, bytes, counts,
        ) {
            Err(stop) => Err(stop),
            Ok((list, rest)) => Ok((
                KeptArcs {
                    list,
                    positions: None,
                },
                rest,
            )),
        },
    }
}

// Arcs of which only the ends are kept.
ghost use Rattle.std.specs.Prelude.{◌≡◌, ◌∷◌, [], IfOk};
ghost use Rattle.std.specs.Option.{option_copied};
ghost use Rattle.json_cursor.specs.Answers.{Answers};
ghost use Rattle.json_cursor.specs.Arrays.{prefix_value};
ghost use Rattle.geometry.specs.Points.{Point};
ghost use Rattle.topojson_decoder.specs.ArcEnds.{EndsOfArcsSoFar, EndsSoFar, arc_ends, arc_ends_list, ends_from, more_ends, with_arc_ends, with_end};

use crate::arrays::elements_at;
use crate::grids::Grid;
use crate::next_cells::{ByDifferences, ByPositions, NextCell};
use crate::spelled_arcs::SpelledArcs;
use geojson_types::Counts;
use json_cursor::{Elements, Stop};
use json_value::Items;
use std::alloc::{AllocError, Global};
use std::marker::Model;
use topojson_meaning::TopoFault;
use topojson_types::{Cell, Transform};

/// Arcs as they are kept, beside their texts, and how many positions they have, where their ends alone are.
#[derive(Drop)]
pub struct KeptArcs<'a> {
    pub list: SpelledArcs<'a>,
    pub positions: Option<u64>,
}

/// The ends of the cells of an arc that were read so far, and how many these are.
#[derive(Drop)]
struct Ends<N: NextCell> {
    by: N,
    first: Cell,
    before: Cell,
    count: u64,
}

impl<N: NextCell> Model for Ends<N> {
    ghost Value = { EndsSoFar };

    ghost view = { λ s. ((N.transform s.by, s.before), (ends_from s.count s.first s.before, s.count)) };
}

/// The first of so many cells, where this one comes after them.
fn first_before(count: u64, first: Cell, cell: Cell) -> Cell
    ensures { (before : Point) → more_ends (ends_from count first before) cell ≡ result ∷ cell ∷ [] }
{
    if count == 0 { cell } else { first }
}

impl<'a, N: NextCell> Elements<'a> for Ends<N> {
    type Fault = TopoFault;

    type With = ();

    ghost takes = { λ _. with_end };

    #[inline(always)]
    fn element(
        &mut self,
        alloc: Global,
        depth_left: u32,
        bytes: &'a [u8],
        _with: (),
        counts: &mut Counts,
    ) -> Result<&'a [u8], Stop<TopoFault>> {
        match self
            .by
            .next_at(alloc, depth_left, self.before, bytes, counts)
        {
            Err(stop) => Err(stop),
            Ok((cell, rest)) => {
                self.first = first_before(self.count, self.first, cell);
                self.before = cell;
                self.count = self.count.saturating_add(1);
                Ok(rest)
            }
        }
    }
}

/// These two.
fn both(alloc: Global, first: Cell, last: Cell) -> Result<Items<Cell>, AllocError>
    ensures { IfOk result (λ cells. cells ≡ first ∷ last ∷ []) }
{
    let mut cells = Vec::with_capacity(alloc, 2)?;
    cells.push_reserved(first);
    cells.push_reserved(last);
    Ok(Items::of(cells))
}

/// The first and the last cell of the arc at the front, and how many it has, and what follows it; or why reading stops.
#[inline(always)]
fn ends_at<'a, N: NextCell>(
    alloc: Global,
    depth_left: u32,
    by: N,
    bytes: &'a [u8],
    counts: &mut Counts,
) -> Result<((Items<Cell>, u64), &'a [u8]), Stop<TopoFault>>
    ensures { Answers (λ x. x) (arc_ends (N.transform by)) (prefix_value depth_left bytes.now) counts.old counts.new result }
{
    let origin = Cell::at(0, 0);
    let start = Ends {
        by,
        first: origin,
        before: origin,
        count: 0,
    };
    match elements_at::<Ends<N>>(alloc, depth_left, start, bytes, counts) {
        Err(stop) => Err(stop),
        Ok((read, rest)) => {
            let count = read.count;
            if count < 2 {
                return Err(Stop::Fault(TopoFault::ShortArc));
            }
            let cells = both(alloc, read.first, read.before)?;
            Ok(((cells, count), rest))
        }
    }
}

/// The ends of the arcs that were read so far, and how many positions these have.
#[derive(Drop)]
struct ArcsByEnds<N: NextCell> {
    by: N,
    list: Vec<Items<Cell>>,
    positions: u64,
}

impl<N: NextCell> Model for ArcsByEnds<N> {
    ghost Value = { EndsOfArcsSoFar };

    ghost view = { λ s. (N.transform s.by, (s.list.items, s.positions)) };
}

impl<'a, N: NextCell> Elements<'a> for ArcsByEnds<N> {
    type Fault = TopoFault;

    type With = ();

    ghost takes = { λ _. with_arc_ends };

    #[inline(always)]
    fn element(
        &mut self,
        alloc: Global,
        depth_left: u32,
        bytes: &'a [u8],
        _with: (),
        counts: &mut Counts,
    ) -> Result<&'a [u8], Stop<TopoFault>> {
        match ends_at(alloc, depth_left, self.by, bytes, counts) {
            Err(stop) => Err(stop),
            Ok((read, rest)) => {
                let (ends, count) = read;
                self.list.push(ends)?;
                self.positions = self.positions.saturating_add(count);
                Ok(rest)
            }
        }
    }
}

/// The ends of the arcs of the array at the front whose cells are read so, with the number of their positions, and what follows it; or why
/// reading stops.
fn arc_ends_by<'a, N: NextCell>(
    alloc: Global,
    depth_left: u32,
    by: N,
    bytes: &'a [u8],
    counts: &mut Counts,
) -> Result<(KeptArcs<'a>, &'a [u8]), Stop<TopoFault>>
    ensures { Answers (λ x. x) (arc_ends_list (N.transform by)) (prefix_value depth_left bytes.now) counts.old counts.new result }
{
    let list = Vec::new(alloc);
    let start = ArcsByEnds {
        by,
        list,
        positions: 0,
    };
    match elements_at::<ArcsByEnds<N>>(alloc, depth_left, start, bytes, counts) {
        Err(stop) => Err(stop),
        Ok((read, rest)) => {
            let positions = read.positions;
            let mut arcs = read.list;
            arcs.shrink_to_fit();
            let kept = KeptArcs {
                list: SpelledArcs::of(alloc, arcs),
                positions: Some(positions),
            };
            Ok((kept, rest))
        }
    }
}

/// The ends of the arcs of the array at the front, with the number of their positions, and what follows it; or why reading stops.
pub(crate) fn arc_ends_at<'a>(
    alloc: Global,
    depth_left: u32,
    transform: Option<&Transform>,
    bytes: &'a [u8],
    counts: &mut Counts,
) -> Result<(KeptArcs<'a>, &'a [u8]), Stop<TopoFault>>
    ensures { Answers (λ x. x) (arc_ends_list (option_copied transform.entry)) (prefix_value depth_left bytes.now) counts.old counts.new result }
{
    match transform {
        None => arc_ends_by(alloc, depth_left, ByPositions, bytes, counts),
        Some(transform) => {
            let grid = Grid::of_many(transform);
            let by = ByDifferences { grid };
            arc_ends_by(alloc, depth_left, by, bytes, counts)
        }
    }
}

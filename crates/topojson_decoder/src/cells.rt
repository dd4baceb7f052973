// Positions and cells of the grid (TopoJSON 1.0, sections 2.1.1 and 2.1.2).
ghost use Rattle.std.specs.Prelude.{◌≡◌, ◌≤◌, ◌^◌};
ghost use Rattle.std.specs.Option.{option_copied};
ghost use Rattle.json_cursor.specs.Answers.{Answers};
ghost use Rattle.json_cursor.specs.Arrays.{prefix_value};
ghost use Rattle.topojson_types.specs.Transforms.{grid_limit, origin};
ghost use Rattle.topojson_meaning.specs.Arcs as spec;
ghost use Rattle.topojson_decoder.specs.Cells.{whole};

use crate::grids::Grid;
use crate::numbers::Scale;
use crate::pairs::{pair_at, plain_pair_at};
use geojson_types::Counts;
use json_cursor::Stop;
use std::alloc::Global;
use topojson_meaning::TopoFault;
use topojson_types::{Cell, GRID_LIMIT, Transform};
use unit_scanning::Units;

/// How far from zero a difference may be.
const DIFFERENCE_LIMIT: u64 = 4_294_967_296;

/// The position at the front, however it is written, and what follows it.
#[cold]
#[inline(never)]
fn any_position_at<'a>(
    alloc: Global,
    depth_left: u32,
    bytes: &'a [u8],
    counts: &mut Counts,
) -> Result<(Cell, &'a [u8]), Stop<TopoFault>>
    ensures { Answers (λ p. p) spec.position (prefix_value depth_left bytes.now) counts.old counts.new result }
{
    match pair_at(alloc, depth_left, Scale::Units, bytes) {
        Err(stop) => Err(stop),
        Ok((pair, rest)) => {
            let Some(x) = pair.x else {
                return Err(Stop::Fault(TopoFault::Range));
            };
            let Some(y) = pair.y else {
                return Err(Stop::Fault(TopoFault::Range));
            };
            counts.count_rounded(!x.exact);
            counts.count_rounded(!y.exact);
            counts.count_extra(pair.more);
            Ok((Cell::at(x.value, y.value), rest))
        }
    }
}

/// The position at the front, and what follows it.
#[inline(always)]
pub(crate) fn position_at<'a>(
    alloc: Global,
    depth_left: u32,
    bytes: &'a [u8],
    counts: &mut Counts,
) -> Result<(Cell, &'a [u8]), Stop<TopoFault>>
    ensures { Answers (λ p. p) spec.position (prefix_value depth_left bytes.now) counts.old counts.new result }
{
    let Some((x, y, more, rest)) = plain_pair_at(alloc, depth_left, Scale::Units, bytes) else {
        return any_position_at(alloc, depth_left, bytes, counts);
    };
    counts.count_extra(more);
    Ok((Cell::at(x, y), rest))
}

/// The number of a cell, which must be whole and in range.
#[inline(always)]
fn grid_number(number: Option<Units>) -> Option<i64>
    ensures { result ≡ whole number }
{
    let number = number?;
    if !number.exact {
        return None;
    }
    Some(number.value)
}

/// The cell at the front, however it is written, which stands as its difference from this one, and what follows it: the numbers of the
/// difference are no farther from zero than the bound.
#[cold]
#[inline(never)]
fn any_cell_within<'a>(
    alloc: Global,
    depth_left: u32,
    grid: Grid,
    bound: u64,
    before: Cell,
    bytes: &'a [u8],
    counts: &mut Counts,
) -> Result<(Cell, &'a [u8]), Stop<TopoFault>>
    requires { bound ≤ 2 ^ 32 }
    ensures { Answers (λ c. c) (spec.cell grid.entry.transform.now bound before) (prefix_value depth_left bytes.now) counts.old counts.new result }
{
    match pair_at(alloc, depth_left, Scale::Whole(bound), bytes) {
        Err(stop) => Err(stop),
        Ok((pair, rest)) => {
            let Some(x) = grid_number(pair.x) else {
                return Err(Stop::Fault(TopoFault::GridNumber));
            };
            let Some(y) = grid_number(pair.y) else {
                return Err(Stop::Fault(TopoFault::GridNumber));
            };
            match grid.cell(before, Cell::at(x, y)) {
                Err(fault) => Err(Stop::Fault(fault)),
                Ok(cell) => {
                    counts.count_extra(pair.more);
                    Ok((cell, rest))
                }
            }
        }
    }
}

/// The cell at the front, which stands as its difference from this one, and what follows it: the numbers of the difference are no farther
/// from zero than the bound.
#[inline(always)]
fn cell_within<'a>(
    alloc: Global,
    depth_left: u32,
    grid: Grid,
    bound: u64,
    before: Cell,
    bytes: &'a [u8],
    counts: &mut Counts,
) -> Result<(Cell, &'a [u8]), Stop<TopoFault>>
    requires { bound ≤ 2 ^ 32 }
    ensures { Answers (λ c. c) (spec.cell grid.entry.transform.now bound before) (prefix_value depth_left bytes.now) counts.old counts.new result }
{
    let scale = Scale::Whole(bound);
    let Some((x, y, more, rest)) = plain_pair_at(alloc, depth_left, scale, bytes) else {
        return any_cell_within(alloc, depth_left, grid, bound, before, bytes, counts);
    };
    let difference = Cell::at(x, y);
    if let Some(cell) = grid.known_cell(before, difference) {
        counts.count_extra(more);
        return Ok((cell, rest));
    }
    match grid.cell(before, difference) {
        Err(fault) => Err(Stop::Fault(fault)),
        Ok(cell) => {
            counts.count_extra(more);
            Ok((cell, rest))
        }
    }
}

/// The place at the front, which is a cell of the grid and no difference (section 2.1.2), and what follows it.
#[inline(never)]
fn grid_place_at<'a>(
    alloc: Global,
    depth_left: u32,
    transform: &Transform,
    bytes: &'a [u8],
    counts: &mut Counts,
) -> Result<(Cell, &'a [u8]), Stop<TopoFault>>
    ensures { Answers (λ c. c) (spec.cell transform.now grid_limit origin) (prefix_value depth_left bytes.now) counts.old counts.new result }
{
    cell_within(
        alloc,
        depth_left,
        Grid::of_few(transform),
        GRID_LIMIT,
        Cell::at(0, 0),
        bytes,
        counts,
    )
}

/// The place at the front, of a Point or in a MultiPoint, and what follows it. With a transform it is a cell that is no difference.
#[inline(always)]
#[tactic(auto, using(crate::proofs::Then::same_answers, crate::proofs::CellParts::place_is_cell, crate::proofs::CellParts::place_is_position))]
pub fn place_at<'a>(
    alloc: Global,
    depth_left: u32,
    transform: Option<&Transform>,
    bytes: &'a [u8],
    counts: &mut Counts,
) -> Result<(Cell, &'a [u8]), Stop<TopoFault>>
    ensures { Answers (λ c. c) (spec.place (option_copied transform.entry)) (prefix_value depth_left bytes.now) counts.old counts.new result }
{
    match transform {
        None => position_at(alloc, depth_left, bytes, counts),
        Some(transform) => grid_place_at(alloc, depth_left, transform, bytes, counts),
    }
}

/// The cell at the front, which stands as the difference from this one, which is before it in its arc, and what follows it (section 2.1.3).
#[inline(always)]
pub(crate) fn difference_at<'a>(
    alloc: Global,
    depth_left: u32,
    grid: Grid,
    before: Cell,
    bytes: &'a [u8],
    counts: &mut Counts,
) -> Result<(Cell, &'a [u8]), Stop<TopoFault>>
    ensures { Answers (λ c. c) (spec.cell grid.entry.transform.now spec.difference_limit before) (prefix_value depth_left bytes.now) counts.old counts.new result }
{
    cell_within(
        alloc,
        depth_left,
        grid,
        DIFFERENCE_LIMIT,
        before,
        bytes,
        counts,
    )
}

// The search through the lists of cells.
ghost use Rattle.std.specs.Prelude.{◌<◌, length};
ghost use Rattle.std.specs.Option.{IfNone, IfSome};
ghost use Rattle.guarded_reduction.specs.Blocked.{blocking};
ghost use Rattle.guarded_reduction.specs.Cells.{AreCells, AreCellsOf, NoneMeetsInRow, NoneMeetsOn};
ghost use Rattle.guarded_reduction.specs.Indexes.{Meets, NoneMeets};
ghost use Rattle.guarded_reduction.specs.Tests.{Reaches};

use crate::index::blocking::Blocked;
use crate::index::cell_lists::{CellLists, Grid, cell_along, list_at, list_of};
use crate::index::searching::is_met_at;
use geometry::Position;
use planar_predicates::Extent;

/// Cells: the columns from one on until before another, and so the rows.
#[derive(Clone, Copy)]
pub struct CellRange {
    pub low: u64,
    pub high: u64,
    pub low_row: u64,
    pub high_row: u64,
}

/// The cells of a grid that a box meets.
fn cells_of(grid: &Grid, within: &Extent) -> CellRange
    requires { grid.now.bits < 64 }
    ensures { AreCellsOf grid.now.bits within.now result }
{
    let low = cell_along(within.low_x, grid.bits);
    let high = cell_along(within.high_x, grid.bits) + 1;
    let low_row = cell_along(within.low_y, grid.bits);
    let high_row = cell_along(within.high_y, grid.bits) + 1;
    CellRange {
        low,
        high,
        low_row,
        high_row,
    }
}

/// A place of a list that is left and meets the test. A step is counted for each place that is gone through.
#[tactic(auto, using(crate::proofs::Cells::first_is_on, crate::proofs::Cells::next_is_on, crate::proofs::Cells::walk_begins, crate::proofs::Cells::walk_on))]
fn find_on_list(
    cells: &CellLists,
    list: usize,
    within: &Extent,
    query: &Blocked,
    steps: &mut u64,
) -> Option<usize>
    requires cells { AreCells cells.now }
    requires list { list < length cells.now.grid.firsts.items }
    requires reach { Reaches within.now (blocking query.now) }
    ensures some { IfSome result (λ z. Meets cells.now.positions.items cells.now.present.items (blocking query.now) z) }
    ensures none { IfNone result (NoneMeetsOn cells.now (blocking query.now) list 0) }
{
    let mut number = cells.grid.firsts[list];
    'places: while number > 0 {
        *steps = steps.saturating_add(1);
        let place = number as usize - 1;
        if is_met_at(&cells.positions, &cells.present, place, within, query) {
            return Some(place);
        }
        number = cells.grid.nexts[place];
    }
    None
}

/// A place in the cells of a row, from one column on until before another, that is left and meets the test. A step is counted for each cell, too.
#[tactic(auto, using(crate::proofs::Cells::row_begins, crate::proofs::Cells::row_on, crate::proofs::Cells::row_until))]
fn find_in_row(
    cells: &CellLists,
    row: u64,
    low: u64,
    high: u64,
    within: &Extent,
    query: &Blocked,
    steps: &mut u64,
) -> Option<usize>
    requires cells { AreCells cells.now }
    requires reach { Reaches within.now (blocking query.now) }
    ensures some { IfSome result (λ z. Meets cells.now.positions.items cells.now.present.items (blocking query.now) z) }
    ensures none { IfNone result (NoneMeetsInRow cells.now (blocking query.now) row low high) }
{
    'columns: for column in low..high {
        *steps = steps.saturating_add(1);
        let list = list_of(column, row, cells.grid.mask);
        if let Some(place) = find_on_list(cells, list, within, query, steps) {
            return Some(place);
        }
    }
    None
}

impl CellLists {
    /// How many cells a box meets, or more than memory has numbers for.
    pub fn count_cells(&self, within: &Extent) -> u64
        requires { AreCells self.now }
    {
        let range = cells_of(&self.grid, within);
        let columns = range.high.saturating_sub(range.low);
        let rows = range.high_row.saturating_sub(range.low_row);
        columns.saturating_mul(rows)
    }

    /// How many steps a search through this box takes at least: one for each cell, and one or two for places on the list of a position in it.
    pub fn least_steps(&self, at: Position, within: &Extent) -> u64
        requires { AreCells self.now }
    {
        let list = list_at(at, self.grid.bits, self.grid.mask);
        let first = self.grid.firsts.get(list).copied().unwrap_or(0) as usize;
        let next = self.grid.nexts.get(first.wrapping_sub(1)).copied();
        let places = if next.unwrap_or(0) > 0 { 2 } else { 1 };
        self.count_cells(within).saturating_add(places)
    }

    /// A place that is left and meets the test. The steps that this takes are counted.
    #[tactic(auto, using(crate::proofs::Cells::all_within, crate::proofs::Cells::rows_begin, crate::proofs::Cells::rows_on))]
    pub fn find(&self, query: &Blocked, steps: &mut u64) -> Option<usize>
        requires { AreCells self.now }
        ensures some { IfSome result (λ z. Meets self.now.positions.items self.now.present.items (blocking query.now) z) }
        ensures none { IfNone result (NoneMeets self.now.positions.items self.now.present.items (blocking query.now)) }
    {
        let within = query.reach();
        let range = cells_of(&self.grid, &within);
        'rows: for row in range.low_row..range.high_row {
            let found = find_in_row(self, row, range.low, range.high, &within, query, steps);
            if let Some(place) = found {
                return Some(place);
            }
        }
        None
    }
}

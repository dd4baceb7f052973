// Cells in place of positions, in arcs, points and MultiPoints.
ghost use Rattle.std.specs.Prelude.{◌≡◌, None, Some, map};
ghost use Rattle.std.specs.List.{AllByRecursion};
ghost use Rattle.build_meaning.specs.Quantized.{IsOn};
ghost use Rattle.grid_snap.specs.Axes.{cell};
ghost use Rattle.topo_model.specs.ArcUses.{as_they_are};
ghost use Rattle.layer_topology.specs.Replacing.{cell_if_covered};

use geojson_types::{Cause, Position};
use grid_snap::Grid;
use json_value::Items;
use std::marker::Model;
use topo_model::Keeps;
use topojson_types::{ArcRef, Cell};

/// The cell that stands for a position of a topology without a transform. One that the grid doesn't cover stays.
#[tactic(auto, using(crate::proofs::Covered::if_no_position, crate::proofs::Covered::as_passed))]
fn cell_if_covered(grid: &Grid, position: Cell) -> Cell
    ensures { result ≡ cell_if_covered grid.now position }
{
    grid.law();
    let Some(place) = Position::new(position.x(), position.y()) else {
        return position;
    };
    if !grid.covers(place) {
        return position;
    }
    let (x, y) = grid.cell(place);
    Cell::at(x, y)
}

/// The cell that stands for a position on the grid.
#[tactic(auto, using(crate::proofs::Covered::as_passed, crate::proofs::Covered::is_position, crate::proofs::Covered::passed_is))]
fn cell_on(grid: &Grid, position: Cell) -> Cell
    requires { IsOn (Some grid.now) position }
    ensures { result ≡ cell grid.now position }
{
    grid.law();
    let (x, y) = grid.cell_on(Position::at(position.x(), position.y()));
    Cell::at(x, y)
}

/// Each position replaced, all of which are on the grid.
#[tactic(auto, using(geometry::proofs::Moved::starts, geometry::proofs::Moved::turns, geometry::proofs::Moved::ends, crate::proofs::Covered::still_here))]
fn cells_on(grid: &Grid, cells: &mut [Cell])
    requires { AllByRecursion (IsOn (Some grid.now)) cells.old }
    ensures { cells.new ≡ map (cell grid.now) cells.old }
{
    'cells: for cell in cells.iter_mut() {
        *cell = cell_on(grid, *cell);
    }
}

/// Each position of each arc replaced, all of which are on the grid.
pub(crate) fn arcs_on(grid: &Grid, arcs: &mut [Items<Cell>])
    requires { AllByRecursion (λ a. AllByRecursion (IsOn (Some grid.now)) a) arcs.old }
    ensures { arcs.new ≡ map (map (cell grid.now)) arcs.old }
{
    'arcs: for arc in arcs.iter_mut() {
        cells_on(grid, arc.as_mut_slice());
    }
}

/// Puts cells in the place of the positions of points, and leaves lines and rings as they are.
#[derive(Drop)]
pub(crate) struct Gridding<'a> {
    grid: &'a Grid,
}

impl<'a> Model for Gridding<'a> {
    ghost use Rattle.grid_snap.specs.Axes.{Axes};

    ghost Value = { Axes };

    ghost view = { λ g. g.grid.now };
}

impl<'a> Gridding<'a> {
    pub(crate) fn on(grid: &'a Grid) -> Gridding<'a>
        ensures { result ≡ grid.now }
    {
        Gridding { grid }
    }
}

impl<'a> Keeps for Gridding<'a> {
    ghost places = { cell_if_covered };

    ghost keeps = { λ grid. as_they_are };

    ghost goes = { λ grid closed l. None };

    fn place(&self, cell: Cell) -> Cell {
        cell_if_covered(self.grid, cell)
    }

    fn keep(&self, _closed: bool, _refs: &mut Items<ArcRef>) -> Option<Cause> {
        None
    }

    fn hole_goes(&self, _outer: &[ArcRef], _hole: &[ArcRef]) -> Option<Cause> {
        None
    }
}

// The grid of layers.
ghost use Rattle.std.specs.Prelude.{◌≡◌, ◌≤◌, pos, true, List, None};
ghost use Rattle.std.specs.List.{AllByRecursion};
ghost use Rattle.geometry.specs.Points.{IsInput, Point};
ghost use Rattle.grid_snap.specs.Axes.{IsCell, IsGrid, count_limit, grid_over, snapped};
ghost use Rattle.grid_snap.specs.Axes as spec;
ghost use Rattle.grid_snap.specs.Bounds.{AreBoundsIfSome, widened_by};
ghost use Rattle.grid_snap.specs.Snapping.{layers_points};

use crate::axis::{Axis, axis_over};
use crate::bounds::{Bounds, bounds_of};
use geojson_types::{Layer, Moves, Position};
use std::marker::Model;

/// A grid over layers: so many equally spaced coordinates in each direction. A cell of it is the numbers of its coordinates, x
/// first, counted from zero.
#[derive(Debug, Drop)]
pub struct Grid {
    across: Axis,
    up: Axis,
    /// The axes' inverses.
    across_inverse: u64,
    up_inverse: u64,
}

impl Model for Grid {
    ghost use Rattle.std.specs.Prelude.{◌*◌};
    ghost use Rattle.grid_snap.specs.Axes.{Axes, IsGrid};
    ghost use Rattle.grid_snap.specs.Inverses.{IsInverse};

    ghost Value = { Axes };

    ghost view = { λ g. record { x = g.across; y = g.up } };

    ghost invariant = { λ g. IsGrid (record { x = g.across; y = g.up })
        × IsInverse (2 * g.across.step) g.across_inverse × IsInverse (2 * g.up.step) g.up_inverse };
}

impl Grid {
    /// The grid of so many coordinates in each direction from the least coordinates to the greatest or farther.
    pub fn within(bounds: Option<Bounds>, count: u32) -> Option<Grid>
        requires some { 2 ≤ count }
        requires few { count ≤ count_limit }
        requires bounds { AreBoundsIfSome bounds }
        ensures { (ps : List Point) → widened_by None ps ≡ bounds → result ≡ grid_over count ps }
    {
        let bounds = bounds?;
        let across = axis_over(count, bounds.left, bounds.right);
        let up = axis_over(count, bounds.bottom, bounds.top);
        Some(Grid {
            across,
            up,
            across_inverse: across.inverse(),
            up_inverse: up.inverse(),
        })
    }

    /// The grid of so many coordinates in each direction over the positions of all layers, those of Points too: from the least
    /// coordinate to the greatest or farther, in the least step of whole units that serves. `None` where there is no position.
    #[tactic(auto, using(crate::proofs::Widening::bounds_of_input))]
    pub fn over(layers: &[Layer], count: u32) -> Option<Grid>
        requires some { 2 ≤ count }
        requires few { count ≤ count_limit }
        requires inputs { AllByRecursion IsInput (layers_points layers.now) }
        ensures { result ≡ grid_over count (layers_points layers.now) }
    {
        Grid::within(bounds_of(layers), count)
    }

    /// What each grid keeps. A call does nothing; its contract is what `Grid` keeps.
    pub fn law(&self)
        ensures { IsGrid self.now }
    {
        let _ = &self.across;
    }

    /// Whether a position lies between the first and the last coordinates, as each position of the layers and each snapped one does.
    pub fn covers(&self, position: Position) -> bool
        ensures { result ≡ spec.covers self.now position }
    {
        self.across.has(position.x()) && self.up.has(position.y())
    }

    /// The position of the nearest coordinates, the higher ones of two.
    #[tactic(auto, using(crate::proofs::Settled::settled))]
    pub fn snap(&self, position: Position) -> Position
        requires covered { spec.covers self.now position ≡ true }
        ensures snapped { result ≡ snapped self.now position }
        ensures covered { spec.covers self.now result ≡ true }
    {
        self.law();
        self.back(self.cell(position))
    }

    /// The cell of the nearest coordinates.
    pub fn cell(&self, position: Position) -> (i64, i64)
        requires covered { spec.covers self.now position ≡ true }
        ensures cell { spec.cell self.now position ≡ record { x = result.0; y = result.1 } }
        ensures within { IsCell self.now (record { x = result.0; y = result.1 }) }
    {
        (
            self.across.number(position.x(), self.across_inverse),
            self.up.number(position.y(), self.up_inverse),
        )
    }

    /// The cell of a position that lies where a cell does: it is covered, and snapping leaves it where it is.
    pub fn cell_on(&self, position: Position) -> (i64, i64)
        requires covered { spec.covers self.now position ≡ true }
        requires there { snapped self.now position ≡ position }
        ensures cell { spec.cell self.now position ≡ record { x = result.0; y = result.1 } }
        ensures within { IsCell self.now (record { x = result.0; y = result.1 }) }
    {
        (
            self.across.number_at(position.x(), self.across_inverse),
            self.up.number_at(position.y(), self.up_inverse),
        )
    }

    /// Where a cell lies.
    pub fn back(&self, cell: (i64, i64)) -> Position
        requires cell { IsCell self.now (record { x = cell.0; y = cell.1 }) }
        ensures { result ≡ spec.back self.now (record { x = cell.0; y = cell.1 }) }
    {
        Position::at(self.across.coordinate(cell.0), self.up.coordinate(cell.1))
    }

    /// Where the cell of zeros lies.
    pub fn origin(&self) -> Position
        ensures { result ≡ record { x = self.now.x.first; y = self.now.y.first } }
    {
        Position::at(self.across.first, self.up.first)
    }

    /// How far apart its coordinates are, in units.
    pub fn step(&self) -> (i64, i64)
        ensures x { result.0 ≡ pos self.now.x.step }
        ensures y { result.1 ≡ pos self.now.y.step }
    {
        (self.across.step as i64, self.up.step as i64)
    }
}

impl Moves for Grid {
    ghost use Rattle.grid_snap.specs.Snapping.{snapped_if_covered};

    ghost goes_to = { snapped_if_covered };

    fn moved(&self, position: Position) -> Position {
        if self.covers(position) {
            self.snap(position)
        } else {
            position
        }
    }
}

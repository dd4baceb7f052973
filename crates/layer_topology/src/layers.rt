// Quantized layers.
ghost use Rattle.std.specs.Prelude.{◌≡◌, ◌≤◌, true, None, Some};
ghost use Rattle.std.specs.List.{AllByRecursion};
ghost use Rattle.build_meaning.specs.Quantized.{AreInputs, IsCount, named_grid, named_points, snapped_named};
ghost use Rattle.grid_snap.specs.Axes.{count_limit, covers, grid_over};
ghost use Rattle.grid_snap.specs.Bounds.{widened_by};

use extraction::ExtractedLayer;
use grid_snap::{Bounds, Grid, layers_are_covered};
use json_value::OwnText;

/// The least and the greatest coordinates of all layers, if there is a position.
#[tactic(auto, using(grid_snap::proofs::Widening::starts, grid_snap::proofs::Widening::turns, grid_snap::proofs::Widening::ends))]
fn bounds_of(layers: &[(OwnText, ExtractedLayer)]) -> Option<Bounds>
    ensures { result ≡ widened_by None (named_points layers.now) }
{
    let mut all = None;
    'layers: for layer in layers {
        all = layer.1.widen(all);
    }
    all
}

/// The grid of so many coordinates in each direction over all layers, if there is a position.
#[tactic(auto, using(grid_snap::proofs::Widening::bounds_of_input))]
fn grid_of(layers: &[(OwnText, ExtractedLayer)], count: u32) -> Option<Grid>
    requires some { 2 ≤ count }
    requires few { count ≤ count_limit }
    requires inputs { AreInputs layers.now }
    ensures { result ≡ grid_over count (named_points layers.now) }
{
    Grid::within(bounds_of(layers), count)
}

/// Each layer snapped to the grid, which covers it.
fn snap_named(layers: &mut [(OwnText, ExtractedLayer)], grid: &Grid)
    requires { AllByRecursion (λ p. covers grid.now p ≡ true) (named_points layers.old) }
    ensures { layers.new ≡ snapped_named (Some grid.now) layers.old }
{
    'layers: for layer in layers.iter_mut() {
        layer.1.snap(grid);
    }
}

/// Snaps layers to the grid of so many coordinates in each direction over all of them, and answers the grid. Where none is asked
/// for, or where there is no position, they stay as they are.
pub fn snap_layers(layers: &mut [(OwnText, ExtractedLayer)], count: Option<u32>) -> Option<Grid>
    requires count { IsCount count }
    requires inputs { AreInputs layers.old }
    ensures grid { result ≡ named_grid count layers.old }
    ensures snapped { layers.new ≡ snapped_named (named_grid count layers.old) layers.old }
{
    layers_are_covered();
    let count = count?;
    let grid = grid_of(layers, count)?;
    snap_named(layers, &grid);
    Some(grid)
}

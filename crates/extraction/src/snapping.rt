// The Points of extracted features, snapped in place.
ghost use Rattle.std.specs.Prelude.{◌≡◌, map};
ghost use Rattle.extraction.specs.Snapped.{feature_repointed, repointed};
ghost use Rattle.grid_snap.specs.Snapping.{snapped_if_covered};

use geojson_types::{Geometry, Moves, Position};
use grid_snap::Grid;
use topojson_types::{Cell, TopoFeature, TopoShape};

/// The cell that holds the snapped position. One that the grid doesn't cover stays.
#[tactic(auto, using(crate::proofs::Snapped::too_far))]
fn snapped_cell(cell: Cell, grid: &Grid) -> Cell
    ensures { result ≡ snapped_if_covered grid.now cell }
{
    grid.law();
    match Position::new(cell.x(), cell.y()) {
        Some(position) => Cell::of(grid.moved(position)),
        None => cell,
    }
}

/// Each cell snapped.
fn snap_cells(cells: &mut [Cell], grid: &Grid)
    ensures { cells.new ≡ map (snapped_if_covered grid.now) cells.old }
{
    'cells: for cell in cells.iter_mut() {
        *cell = snapped_cell(*cell, grid);
    }
}

/// Each cell of the Points and MultiPoints of a shape snapped.
fn snap_shape(shape: &mut TopoShape, grid: &Grid)
    ensures { shape.new ≡ repointed (snapped_if_covered grid.now) shape.old }
{
    match shape {
        Geometry::Point(cell) => *cell = snapped_cell(*cell, grid),
        Geometry::MultiPoint(cells) => snap_cells(cells.as_mut_slice(), grid),
        Geometry::Line(_) => {}
        Geometry::Lines(_) => {}
        Geometry::Area(_) => {}
        Geometry::Areas(_) => {}
        Geometry::Group(shapes) => {
            'shapes: for shape in shapes.as_mut_slice().iter_mut() {
                snap_shape(shape, grid);
            }
        }
    }
}

/// Each cell of the Points and MultiPoints of a feature snapped.
fn snap_feature(feature: &mut TopoFeature, grid: &Grid)
    ensures { feature.new ≡ feature_repointed (snapped_if_covered grid.now) feature.old }
{
    if let Some(shape) = feature.shape.as_mut() {
        snap_shape(shape, grid);
    }
}

/// Those of features.
pub(crate) fn snap_features(features: &mut [TopoFeature], grid: &Grid)
    ensures { features.new ≡ map (feature_repointed (snapped_if_covered grid.now)) features.old }
{
    'features: for feature in features.iter_mut() {
        snap_feature(feature, grid);
    }
}

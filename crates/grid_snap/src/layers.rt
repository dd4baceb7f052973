// Layers that are snapped.
ghost use Rattle.std.specs.Prelude.{◌≡◌, true};
ghost use Rattle.std.specs.List.{AllByRecursion};
ghost use Rattle.geojson_types.specs.Places.{features_points};
ghost use Rattle.grid_snap.specs.Axes.{covers};
ghost use Rattle.grid_snap.specs.Snapping.{snapped_layer};

use crate::grid::Grid;
use geojson_types::Layer;

/// Each position of the layer snapped to the grid, those of Points too. Identifiers, properties and order stay.
pub fn snap_layer(layer: &mut Layer, grid: &Grid)
    requires { AllByRecursion (λ p. covers grid.now p ≡ true) (features_points layer.old.features) }
    ensures { layer.new ≡ snapped_layer grid.now layer.old }
{
    'features: for feature in layer.features.as_mut_slice().iter_mut() {
        feature.move_positions(grid);
    }
}

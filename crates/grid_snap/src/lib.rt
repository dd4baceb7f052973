//! Grids over layers: each position snapped to the nearest of equally spaced ones, so that it can be written as two small
//! numbers. It stands on `geojson_types`, whose layers it snaps in place. `specs/Axes.antt` has the definitions, and
//! `specs/Snapping.antt` those of snapped layers; `laws` says that snapping once is enough and where cells lie. The layers
//! above snap before anything else is made of the layers, and write cells in place of positions.
#![tactic(auto)]

mod axis;
mod bounds;
mod dividing;
mod grid;
mod laws;
mod layers;

pub use bounds::{Bounds, widen_to, with_positions};
pub use grid::Grid;
pub use laws::{
    cells_lie_at_snapped, covered_are_positions, grid_is_made, layers_are_covered,
    snapped_features_are_sound, snapped_stay, step_is_least,
};
pub use layers::snap_layer;

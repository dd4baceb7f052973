//! Layers whose lines and rings are taken out as they are read: features without them, and these in one list. An `ExtractedLayer` is what
//! features are put into (`CollectsFeatures` of `geojson_types`); contracts see it as the layer that was read, so nothing above knows that its
//! lines stand elsewhere until it is taken into its parts. It stands on `linework`, whose `Outlines` has the lines and rings, on
//! `topojson_types`, whose features have no arc index here yet, and on `grid_snap`, to whose grids it is snapped. `specs/Extracts.antt` says what
//! is left of a feature.
#![tactic(auto)]

mod bounds;
mod layer;
mod position_cells;
mod snapping;
mod taking_out;
mod whole;

pub use layer::ExtractedLayer;
pub use position_cells::cells;

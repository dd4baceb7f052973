//! What GeoJSON layers (RFC 7946) are made of beside their geometry: features, identifiers, layers, what features are put into as they are read, and the
//! counts of what was read with a change. It stands on `json_value` for identifiers and properties, and on `geometry`; it passes on the types of
//! these two, and the definitions of `geometry`. `specs/Features.antt` says what contracts see of a feature, `specs/Nesting.antt` how deep it nests as JSON.
#![tactic(auto)]

mod collecting;
mod counts;
mod feature;
mod id;
mod layer;

pub use collecting::CollectsFeatures;
pub use counts::Counts;
pub use feature::Feature;
pub use geometry::{
    Address, Cause, Dropped, Geometry, INPUT_LIMIT, Moves, PLACES, POSITION_LIMIT, Position, Ring,
    Shape, is_closed,
};
pub use id::Id;
pub use json_value::{Properties, PropertiesForm};
pub use layer::{FeatureSet, Layer};

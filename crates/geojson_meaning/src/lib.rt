//! What GeoJSON layers are (RFC 7946): the definition of the layer that a JSON value stands for, or of its first fault, with its laws. It
//! stands on `geojson_types` for what layers are made of, which it passes on, on `json_value` for the
//! values and on `decimal_text` for coordinates. The reader, `geojson_model`, answers what the definition `layer` of `specs/Layers.antt`
//! gives.
#![tactic(auto)]

mod fault;
mod features;
mod laws;
mod types;

pub use fault::{GeoFault, GeoFaultKind};
pub use features::identifier;
pub use geojson_types::{
    Address, Cause, Counts, Dropped, Feature, FeatureSet, Geometry, INPUT_LIMIT, Id, Layer, PLACES,
    POSITION_LIMIT, Position, Properties, PropertiesForm, Ring, Shape, is_closed,
};
pub use laws::{
    exact_is_stricter, inputs_alone, nothing_deeper, numbers_stay, rings_close, shapes_are_proper,
    texts_stay,
};
pub use types::{CoordinatesType, GeoJsonType, GeometryType, geojson_type, geometry_type};

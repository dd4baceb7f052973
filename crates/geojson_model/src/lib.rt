//! The reader of layers (RFC 7946) straight from bytes, whatever their form and whatever their faults: members in any order, names with
//! escapes, collections at any depth. What stands at the front is read as the definitions of `geojson_meaning` say, or has the fault that they
//! say comes first. It stands on `json_cursor`, whose `Answers` each contract is. A layer above calls `read_features_text`; what has a JSON
//! value calls `read_layer`. What layers are made of is passed on.
#![tactic(auto)]

mod coordinate_members;
mod coordinates;
mod features;
mod geometries;
mod layers;
mod leading;
mod lines;
mod positions;
mod shapes;
mod texts;
mod type_names;
mod values;

pub use features::feature_at;
pub use geojson_meaning::{
    Address, Cause, CoordinatesType, Counts, Dropped, Feature, FeatureSet, GeoFault, GeoFaultKind,
    GeoJsonType, Geometry, GeometryType, INPUT_LIMIT, Id, Layer, PLACES, POSITION_LIMIT, Position,
    Properties, PropertiesForm, Ring, Shape, exact_is_stricter, geojson_type, geometry_type,
    inputs_alone, is_closed, nothing_deeper, numbers_stay, rings_close, shapes_are_proper,
    texts_stay,
};
pub use geometries::geometry_at;
pub use layers::{FeatureList, layer_at};
pub use shapes::coordinates_at;
pub use texts::read_features_text;
pub use values::read_layer;

//! The writers of topologies (TopoJSON 1.0) and of the features that they hold (GeoJSON, RFC 7946), straight from the topology. They stand on
//! `topojson_types` for topologies, for the walk along arcs and for what may stand in a valid one, on `geojson_types` for features, on
//! `json_value` for the texts of names, identifiers and properties, on `decimal_text` for the numbers, and on `byte_ends` for the sinks. The
//! contracts of `write_topology`, `write_features` and `write_object` say: what the first writes is the text of the value that `topojson_types` has
//! in `specs/Values.antt`; the second, of the value of a set of features (`specs/FeatureValues.antt`); the third, of the features that an object of
//! a topology is decoded to: positions are written where a walk along the arcs reaches them, so that no list of them is made, and identifiers and
//! properties stay where they are. Of the texts of arcs that the third's caller has (`specs/ArcTexts.antt` of `topojson_meaning`) one is copied
//! where a line or a ring goes along that arc forwards. The layers above use the first and the third.
#![tactic(auto)]

mod arc_writer;
mod bounds_writer;
mod cell_writer;
mod feature_writer;
mod geometry_writer;
mod index_writer;
mod laws;
mod line_source;
mod object_writer;
mod position_writer;
mod shape_writer;
mod topology_features;
mod topology_lines;
mod topology_shapes;
mod topology_writer;
mod transform_writer;

pub use feature_writer::{put_features, write_features};
pub use laws::{features_text_is_utf8, features_text_spells_value};
pub use topology_features::write_object;
pub use topology_writer::{put_topology, write_topology};

//! Which topology (TopoJSON 1.0) a JSON value stands for. `specs/Topologies.antt` says it, with what is counted, or the first
//! fault. There is no code here that reads: that is `topojson_decoder` with the crates below it, whose clauses use the words of
//! `specs/Answers.antt`. It stands on `topojson_types` for topologies and on `json_value` and `decimal_text` for values and
//! numbers. The layers above use the laws of `laws.rt`: a topology that is read is valid, and the value that is written for a
//! topology stands for that topology again.
#![tactic(auto)]

mod fault;
mod geometry_type;
mod laws;

pub use fault::TopoFault;
pub use geometry_type::{ArcsType, GeometryType, PlacesType};
pub use laws::{
    numbers_stay, reads_back, texts_stay, topology_is_valid, topology_text_is_read,
    topology_text_is_utf8, topology_value_is_bounded,
};

//! Decoding topologies (TopoJSON 1.0): the reader of topologies straight from bytes, whatever their form and whatever their faults, and
//! where a user of topologies begins. It stands on `json_cursor`, whose `Answers` says what a reader answers of the bytes, and on
//! `topojson_meaning`, which says what a value stands for. A layer above calls `read_text`, or `read_spelled_text` for the texts of the arcs,
//! too, or `read_parts`, of which less is kept. `read_topology` reads a value through its text, by that reader. Beside it stand the GeoJSON
//! features of an object, the walk along arcs and the types, of `topojson_types`. For who tells a person of a file that was read, it says what
//! a feature is called, shows texts as a terminal can, and passes over members once more; that has no contracts.
#![tactic(auto)]

mod arc_ends;
mod arcs;
mod areas;
mod arrays;
mod cells;
mod collected_features;
mod escaping;
mod feature_parts;
mod geometries;
mod geometry_parts;
mod grids;
mod held;
mod index;
mod joins;
mod keeping;
mod kept_laws;
mod labels;
mod leaping;
mod least_arcs;
mod lines_and_rings;
mod members;
mod named_objects;
mod next_cells;
mod numbers;
mod object_parts;
mod pairs;
mod reading;
mod repeats;
mod shapes;
mod spelled_arcs;
mod texts;
mod topologies;
mod transforms;
mod types;

pub use arcs::arc_at;
pub use areas::polygon_at;
pub use cells::place_at;
pub use collected_features::feature_at;
pub use escaping::{quoted, shown};
pub use geometries::geometry_at;
pub use keeping::Keeping;
pub use kept_laws::shapes_stay_valid;
pub use labels::{add_label, label_of};
pub use leaping::leap;
pub use lines_and_rings::line_or_ring_at;
pub use members::{after_mark, member_at, next_member, rest_after};
pub use object_parts::object_at;
pub use reading::read_topology;
pub use repeats::members_before_repeat;
pub use shapes::{arcs_shape_at, places_shape_at};
pub use texts::{
    Refusal, SpelledTopology, read_parts, read_spelled_text, read_text, topology_of,
    topology_of_valid,
};
pub use topojson_meaning::TopoFault;
pub use topojson_types::{
    ArcRef, Cell, DecodeFault, TopoFeature, TopoObject, TopoShape, Topology, Transform,
    TransformNumber, Walk, features,
};
pub use topologies::{Parts, topology_at};
pub use transforms::transform_at;

//! What topologies (TopoJSON 1.0) are made of, and the positions and GeoJSON features that they stand for (section 2.1.4): cells, arc indexes,
//! geometries over arc indexes, features, objects, and the topology itself, which is valid by its type; the positions of lines and rings,
//! by a walk along their arcs from either end, and the features of an object. It stands on `geojson_types`, whose generic geometry and
//! identifiers it uses, and on `geometry`, whose `specs/Joins.antt` says how arcs are joined. `specs/Decoding.antt` says which features a
//! topology stands for, `specs/Values.antt` which JSON value it is. The layers above build a `Topology` of parts that are known to be valid,
//! write it, and decode it; they use the contract of `features`, that of `Walk`, and where a ring has to have four positions that of `LineWalk`.
#![tactic(auto)]

mod bounding;
mod cell;
mod cell_walk;
mod decode_fault;
mod differing;
mod directed_arc;
mod feature;
mod line_walk;
mod lines;
mod object;
mod objects;
mod placing;
mod shapes;
mod summing;
mod topology;
mod transform;
mod transform_number;
mod walk;

pub use bounding::{Corners, corners_of};
pub use cell::Cell;
pub use decode_fault::DecodeFault;
pub use differing::{deltas, difference, sums_of_deltas, texts_stand_exactly, units_are_numbers};
pub use feature::{TopoFeature, TopoShape};
pub use geometry::{ArcRef, CELL_LIMIT, TRANSFORM_LIMIT, TRANSFORM_PLACES};
pub use line_walk::LineWalk;
pub use lines::positions;
pub use object::TopoObject;
pub use objects::{features, named_object};
pub use placing::{placed, places_all_cells, position_at};
pub use summing::{GRID_LIMIT, SumFault, cell_after, sums};
pub use topology::Topology;
pub use transform::Transform;
pub use transform_number::TransformNumber;
pub use walk::Walk;

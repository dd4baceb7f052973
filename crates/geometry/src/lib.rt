//! The geometry of layers and topologies: positions in whole units, rings, the generic geometry, arc indexes, and the addresses of
//! lines that are left out. It stands on `owned_values`, and knows nothing of JSON.
//! `specs/Units.antt` has the unit of coordinates and every number that follows from it, `specs/Points.antt` what a position is,
//! `specs/Areas.antt` the areas of triangles and rings; `specs/Pruning.antt` has the one traversal of a geometry by which lines are
//! left out and replaced, and the lines of a geometry in reading order; `specs/Joins.antt` says which line arc indexes stand for. `proofs/` has laws of these. The layers above use the types, whose invariants they rely on.
#![tactic(auto)]

mod address;
mod arc_ref;
mod moving;
mod position;
mod ring;
mod ring_area;
mod shape;
mod units;

pub use address::{Address, AddressPath, Cause, Dropped};
pub use arc_ref::ArcRef;
pub use moving::{Moves, move_positions, move_shape};
pub use position::{Position, is_same};
pub use ring::{Ring, is_closed};
pub use ring_area::{RingSum, ring_under};
pub use shape::{Geometry, Shape};
pub use units::{
    AREA_LIMIT, AREA_PLACES, CELL_LIMIT, FINE_UNITS, INPUT_LIMIT, PLACES, POSITION_LIMIT,
    TRANSFORM_LIMIT, TRANSFORM_PLACES,
};

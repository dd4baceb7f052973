//! Where positions, segments, triangles and boxes lie in the plane: on which side of a line a position is, whether two segments meet badly, whether a
//! closed triangle holds a position, as `guarded_meaning` has it, by `effective_area`'s cross product; boxes round positions, and whether one lies
//! beyond a line or a triangle; and an order in which near things are close together (`src/halving.rt`). `guarded_reduction` finds by it what keeps a
//! corner, and `segment_crossings` which segments meet badly.
#![tactic(auto)]

mod extent;
mod halving;
mod meeting;
mod sides;
mod triangle;
mod turns;

pub use extent::{Extent, around, empty_extent, holds, is_point, joined, meets};
pub use halving::{Located, arrange};
pub use meeting::{is_end, is_on, meets_badly, same_ends, touches};
pub use sides::{is_aside, is_beyond};
pub use triangle::{in_triangle, is_clear};
pub use turns::{is_flat, is_left, is_right};

// Whether the coordinates of a layer seem to be something else.
use grid_snap::Bounds;

/// 90 degrees in units, the greatest latitude.
const QUARTER: u64 = 90_000_000_000;

/// Whether both are at most so far from zero.
fn lies_within(least: i64, greatest: i64, limit: u64) -> bool {
    least.unsigned_abs() <= limit && greatest.unsigned_abs() <= limit
}

/// Whether each position seems to have its latitude first: as degrees each x is a latitude, some y is none, and each y is a longitude.
pub(crate) fn seem_swapped(bounds: Bounds) -> bool {
    lies_within(bounds.left, bounds.right, QUARTER)
        && !lies_within(bounds.bottom, bounds.top, QUARTER)
        && lies_within(bounds.bottom, bounds.top, 2 * QUARTER)
}

// The cross product of three positions.
ghost use Rattle.std.specs.Prelude.{◌≡◌, ◌≤◌, ◌<◌, ◌*◌, ◌-ℤ◌, ◌*ℤ◌, unsigned_abs};
ghost use Rattle.geometry.specs.Areas as spec;
ghost use Rattle.geometry.specs.Units.{area_limit, position_limit};

use geometry::Position;

/// A difference of coordinates.
fn difference(a: i64, b: i64) -> i64
    requires a { unsigned_abs a ≤ position_limit }
    requires b { unsigned_abs b ≤ position_limit }
    ensures value { result ≡ a -ℤ b }
    ensures bound { unsigned_abs result ≤ 2 * position_limit }
{
    a - b
}

/// A product of differences.
#[tactic(auto, using(crate::proofs::Products::product_fits, crate::proofs::Products::product_bound))]
fn product(a: i64, b: i64) -> i128
    requires a { unsigned_abs a ≤ 2 * position_limit }
    requires b { unsigned_abs b ≤ 2 * position_limit }
    ensures value { result ≡ a *ℤ b }
    ensures bound { unsigned_abs result ≤ 4 * position_limit * position_limit }
{
    a as i128 * b as i128
}

/// The cross product of the ways from the first position to the others, in square units: over zero where they turn left. At the limit of
/// positions it is a difference of two products of 3.6 * 10^35, so it fits 128 bits.
#[tactic(auto, using(crate::proofs::Products::apart_fits, geometry::proofs::RingAreas::read_both, geometry::proofs::RingAreas::both, geometry::proofs::RingAreas::through))]
pub fn cross(a: Position, b: Position, c: Position) -> i128
    ensures value { result ≡ spec.cross a b c }
    ensures bound { unsigned_abs result < area_limit }
{
    let left = product(difference(b.x(), a.x()), difference(c.y(), a.y()));
    let right = product(difference(c.x(), a.x()), difference(b.y(), a.y()));
    left - right
}

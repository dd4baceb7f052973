// Boxes that lie beyond a side of a triangle.
ghost use Rattle.std.specs.Prelude.{◌≡◌, ◌≤◌, ℤ, pos, ◌≤ℤ◌, ◌<ℤ◌, ◌⊎◌, true, unsigned_abs};
ghost use Rattle.geometry.specs.Areas as spec;
ghost use Rattle.geometry.specs.Points.{Point, IsPosition};
ghost use Rattle.geometry.specs.Units.{position_limit};
ghost use Rattle.guarded_meaning.specs.Triangles.{in_triangle};
ghost use Rattle.planar_predicates.specs.Extents.{HoldsPoint};

use crate::extent::Extent;
use crate::turns::is_right;
use geometry::{POSITION_LIMIT, Position};

/// The greatest coordinate of a position.
const LIMIT: i64 = POSITION_LIMIT as i64;

/// The coordinate of a position that is the closest to a number.
fn clamped(x: i64) -> i64
    ensures within { unsigned_abs result ≤ position_limit }
    ensures over { (k : ℤ) → unsigned_abs k ≤ position_limit → k ≤ℤ x → k ≤ℤ result }
    ensures under { (k : ℤ) → unsigned_abs k ≤ position_limit → x ≤ℤ k → result ≤ℤ k }
{
    x.clamp(-LIMIT, LIMIT)
}

/// The first coordinate of the corner of a box that lies the farthest to the left, seen along the way from one position to another.
fn leftmost_x(e: &Extent, from: Position, to: Position) -> i64
    ensures within { unsigned_abs result ≤ position_limit }
    ensures from { unsigned_abs from.y ≤ position_limit }
    ensures to { unsigned_abs to.y ≤ position_limit }
    ensures up { from.y ≤ℤ to.y → (k : ℤ) → unsigned_abs k ≤ position_limit → e.now.low_x ≤ℤ k → result ≤ℤ k }
    ensures down { to.y <ℤ from.y → (k : ℤ) → unsigned_abs k ≤ position_limit → k ≤ℤ e.now.high_x → k ≤ℤ result }
{
    if from.y() <= to.y() {
        clamped(e.low_x)
    } else {
        clamped(e.high_x)
    }
}

/// Its second coordinate.
fn leftmost_y(e: &Extent, from: Position, to: Position) -> i64
    ensures within { unsigned_abs result ≤ position_limit }
    ensures from { unsigned_abs from.x ≤ position_limit }
    ensures to { unsigned_abs to.x ≤ position_limit }
    ensures forth { from.x ≤ℤ to.x → (k : ℤ) → unsigned_abs k ≤ position_limit → k ≤ℤ e.now.high_y → k ≤ℤ result }
    ensures back { to.x <ℤ from.x → (k : ℤ) → unsigned_abs k ≤ position_limit → e.now.low_y ≤ℤ k → result ≤ℤ k }
{
    if from.x() <= to.x() {
        clamped(e.high_y)
    } else {
        clamped(e.low_y)
    }
}

/// The corner of a box that lies the farthest to the left, seen along the way from one position to another, as far as positions go.
fn leftmost(e: &Extent, from: Position, to: Position) -> Position
    ensures leftmost { (q : Point) → IsPosition q → HoldsPoint e.now q → spec.cross from to q ≤ℤ spec.cross from to result }
    ensures from { IsPosition from }
    ensures to { IsPosition to }
{
    Position::at(leftmost_x(e, from, to), leftmost_y(e, from, to))
}

/// Each position of a box is to the right, seen along the way from one position to another, if the answer is yes.
pub fn is_beyond(e: &Extent, from: Position, to: Position) -> bool
    ensures beyond { result ≡ true → (q : Point) → IsPosition q → HoldsPoint e.now q → spec.cross from to q <ℤ pos 0 }
    ensures from { IsPosition from }
    ensures to { IsPosition to }
{
    is_right(from, to, leftmost(e, from, to))
}

/// Each position of a box is to the right of the same side of a triangle, if the answer is yes.
fn is_beyond_one(e: &Extent, a: Position, p: Position, c: Position) -> bool
    ensures beyond { result ≡ true → (q : Point) → IsPosition q → HoldsPoint e.now q
        → (spec.cross a p q <ℤ pos 0) ⊎ ((spec.cross p c q <ℤ pos 0) ⊎ (spec.cross c a q <ℤ pos 0)) }
    ensures first { IsPosition a }
    ensures second { IsPosition p }
    ensures third { IsPosition c }
{
    let first = is_beyond(e, a, p);
    let second = is_beyond(e, p, c);
    first || (second || is_beyond(e, c, a))
}

/// A box holds no position of the closed triangle of a, p and c, if the answer is yes.
pub fn is_aside(e: &Extent, a: Position, p: Position, c: Position) -> bool
    ensures triangle { result ≡ true → (q : Point) → HoldsPoint e.now q → in_triangle a p c q ≡ true → ⊥ }
    ensures first { result ≡ true → HoldsPoint e.now a → ⊥ }
{
    if is_right(a, p, c) {
        is_beyond_one(e, c, p, a)
    } else {
        is_beyond_one(e, a, p, c)
    }
}

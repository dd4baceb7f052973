// Positions and triangles.
ghost use Rattle.std.specs.Prelude.{◌≡◌};
ghost use Rattle.guarded_meaning.specs.Triangles as spec;

use crate::meeting::{is_end, is_on};
use crate::turns::{is_flat, is_left, is_right};
use geometry::Position;

/// The position is to the right of no side.
fn none_right(a: Position, p: Position, c: Position, q: Position) -> bool
    ensures { result ≡ spec.none_right a p c q }
{
    !is_right(a, p, q) && (!is_right(p, c, q) && !is_right(c, a, q))
}

/// The position is to the left of no side.
fn none_left(a: Position, p: Position, c: Position, q: Position) -> bool
    ensures { result ≡ spec.none_left a p c q }
{
    !is_left(a, p, q) && (!is_left(p, c, q) && !is_left(c, a, q))
}

/// The position q is in the closed triangle of a, p and c: the segment over all three, where they lie on one line.
#[tactic(auto, unfolding(guarded_meaning::specs::Triangles::in_triangle))]
pub fn in_triangle(a: Position, p: Position, c: Position, q: Position) -> bool
    ensures { result ≡ spec.in_triangle a p c q }
{
    is_on(a, c, q)
        || (is_on(a, p, q)
            || (is_on(p, c, q)
                || (!is_flat(a, p, c) && (none_right(a, p, c, q) || none_left(a, p, c, q)))))
}

/// The corner at p between a and c can go as far as q is concerned: it is a or c, or not in their triangle.
pub fn is_clear(a: Position, p: Position, c: Position, q: Position) -> bool
    ensures { result ≡ spec.is_clear a p c q }
{
    is_end(a, c, q) || !in_triangle(a, p, c, q)
}

// Positions and segments, and two segments.
ghost use Rattle.std.specs.Prelude.{◌≡◌};
ghost use Rattle.guarded_meaning.specs.Segments as spec;
ghost use Rattle.guarded_meaning.specs.Segments.{segment};

use crate::turns::{is_flat, is_left, is_right};
use geometry::{Position, is_same};

/// The third number is the first or the second, or between them.
fn is_between(x: i64, y: i64, z: i64) -> bool
    ensures { result ≡ spec.is_between x y z }
{
    x <= z && z <= y || y <= z && z <= x
}

/// Of the first coordinates the third is between the others.
fn is_between_across(a: Position, b: Position, q: Position) -> bool
    ensures { result ≡ spec.is_between a.x b.x q.x }
{
    is_between(a.x(), b.x(), q.x())
}

/// Of the second coordinates the third is between the others.
fn is_between_up(a: Position, b: Position, q: Position) -> bool
    ensures { result ≡ spec.is_between a.y b.y q.y }
{
    is_between(a.y(), b.y(), q.y())
}

/// The position is on the segment, or one of its ends.
#[tactic(auto, unfolding(guarded_meaning::specs::Segments::is_on))]
pub fn is_on(a: Position, b: Position, q: Position) -> bool
    ensures { result ≡ spec.is_on a b q }
{
    is_flat(a, b, q) && (is_between_across(a, b, q) && is_between_up(a, b, q))
}

/// The position is one of the segment's ends.
pub fn is_end(a: Position, b: Position, q: Position) -> bool
    ensures { result ≡ spec.is_end a b q }
{
    is_same(a, q) || is_same(b, q)
}

/// The position is on the segment, and no end of it.
#[tactic(auto, unfolding(guarded_meaning::specs::Segments::touches))]
pub fn touches(a: Position, b: Position, q: Position) -> bool
    ensures { result ≡ spec.touches a b q }
{
    is_on(a, b, q) && !is_end(a, b, q)
}

/// The line through the first two has the others strictly on either side.
#[tactic(auto, unfolding(guarded_meaning::specs::Segments::separates))]
fn separates(a: Position, b: Position, c: Position, d: Position) -> bool
    ensures { result ≡ spec.separates a b c d }
{
    is_left(a, b, c) && is_right(a, b, d) || is_right(a, b, c) && is_left(a, b, d)
}

/// The segments from a to b and from c to d have the same two ends, in either order.
#[tactic(auto, unfolding(guarded_meaning::specs::Segments::same_ends))]
pub fn same_ends(a: Position, b: Position, c: Position, d: Position) -> bool
    ensures { result ≡ spec.same_ends (segment a b) (segment c d) }
{
    is_same(a, c) && is_same(b, d) || is_same(a, d) && is_same(b, c)
}

/// The segments from a to b and from c to d have one position in common, which is no end of either.
#[tactic(auto, unfolding(guarded_meaning::specs::Segments::crosses))]
fn crosses(a: Position, b: Position, c: Position, d: Position) -> bool
    ensures { result ≡ spec.crosses (segment a b) (segment c d) }
{
    separates(a, b, c, d) && separates(c, d, a, b)
}

/// An end of the segment from c to d lies on that from a to b, and is no end of it.
fn is_touched(a: Position, b: Position, c: Position, d: Position) -> bool
    ensures { result ≡ spec.is_touched (segment a b) (segment c d) }
{
    touches(a, b, c) || touches(a, b, d)
}

/// The segments from a to b and from c to d meet badly: they have more in common than an end of both.
#[tactic(auto, unfolding(guarded_meaning::specs::Segments::meets_badly))]
pub fn meets_badly(a: Position, b: Position, c: Position, d: Position) -> bool
    ensures { result ≡ spec.meets_badly (segment a b) (segment c d) }
{
    same_ends(a, b, c, d)
        || (crosses(a, b, c, d) || (is_touched(a, b, c, d) || is_touched(c, d, a, b)))
}

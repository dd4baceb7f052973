// On which side of a line a position lies.
ghost use Rattle.std.specs.Prelude.{◌≡◌};
ghost use Rattle.guarded_meaning.specs.Segments as tests;

use effective_area::cross;
use geometry::Position;

/// The third position is to the left, seen along the way from the first to the second.
pub fn is_left(a: Position, b: Position, q: Position) -> bool
    ensures { result ≡ tests.is_left a b q }
{
    cross(a, b, q) > 0
}

/// It is to the right.
pub fn is_right(a: Position, b: Position, q: Position) -> bool
    ensures { result ≡ tests.is_right a b q }
{
    cross(a, b, q) < 0
}

/// It is on their line.
pub fn is_flat(a: Position, b: Position, q: Position) -> bool
    ensures { result ≡ tests.is_flat a b q }
{
    cross(a, b, q) == 0
}

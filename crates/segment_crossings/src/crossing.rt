// Pairs of segments that meet badly, by their ends.
ghost use Rattle.std.specs.Prelude.{◌≡◌};
ghost use Rattle.segment_crossings.specs.Crossings.{crossing_of};
ghost use Rattle.segment_crossings.specs.Lines.{as_segment};

use crate::line::Line;
use geometry::Position;

/// Two segments that meet badly: the ends of each.
#[derive(Clone, Copy, Debug, PartialEq, Eq)]
pub struct Crossing {
    pub first: (Position, Position),
    pub second: (Position, Position),
}

/// The pair of two segments.
pub fn pair_of(line: &Line, other: &Line) -> Crossing
    ensures { result ≡ crossing_of (as_segment line.now) (as_segment other.now) }
{
    Crossing {
        first: (line.from, line.to),
        second: (other.from, other.to),
    }
}

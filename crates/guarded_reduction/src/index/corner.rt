// What holds a corner.
ghost use Rattle.std.specs.Prelude.{◌≡◌, true};
ghost use Rattle.geometry.specs.Points.{Point};
ghost use Rattle.guarded_meaning.specs.Triangles.{in_triangle};
ghost use Rattle.planar_predicates.specs.Extents.{HoldsPoint};
ghost use Rattle.guarded_reduction.specs.Tests.{Reaches};
ghost use Rattle.guarded_reduction.specs.Tests as spec;

use geometry::Position;
use planar_predicates::{Extent, around, is_clear, joined};

/// A corner, with the positions before and after it, and the place where it is. Another place that lies in its triangle, and
/// not at its ends, holds it.
#[derive(Clone, Copy, Debug, PartialEq, Eq)]
pub struct Corner {
    pub before: Position,
    pub at: Position,
    pub after: Position,
    pub place: usize,
}

/// A place other than the corner's own, at this position, holds it.
#[tactic(auto, unfolding(crate::specs::Tests::is_held_by))]
pub fn is_held_by(c: &Corner, place: usize, at: Position) -> bool
    ensures { result ≡ spec.is_held_by c.now place at }
{
    place != c.place && !is_clear(c.before, c.at, c.after, at)
}

/// The box round a corner.
pub fn reach_of(c: &Corner) -> Extent
    ensures triangle { (q : Point) → in_triangle c.now.before c.now.at c.now.after q ≡ true → HoldsPoint result q }
    ensures holders { Reaches result (spec.is_held_by c.now) }
    ensures before { HoldsPoint result c.now.before }
{
    joined(around(c.before), joined(around(c.at), around(c.after)))
}

ghost use Rattle.std.specs.Prelude.{◌≡◌, ◌<◌};
ghost use Rattle.effective_area.specs.Counts.{RoseAtMost, RoseBy, no_steps, one_area, one_push};
ghost use Rattle.geometry.specs.Areas as spec;
ghost use Rattle.geometry.specs.Units.{area_limit};

use crate::crossing::cross;
use geometry::Position;

/// What a reducer did so far. A count that is at the greatest `u64` stays there, and then means that many or more.
#[derive(Clone, Copy, Debug, PartialEq, Eq)]
pub struct Steps {
    /// How many areas of triangles were computed.
    pub areas: u64,
    /// How many corners were put in their order, or pushed on a heap.
    pub pushes: u64,
}

impl Steps {
    /// Nothing done yet.
    pub fn none() -> Steps
        ensures { result ≡ no_steps }
    {
        Steps {
            areas: 0,
            pushes: 0,
        }
    }

    /// One more area.
    fn count_area(&mut self)
        ensures { self.new ≡ one_area self.old }
    {
        self.areas = self.areas.saturating_add(1);
    }

    /// One more entry.
    pub fn count_push(&mut self)
        ensures counted { self.new ≡ one_push self.old }
        ensures rises { RoseAtMost 1 self.old self.new }
        ensures apart { RoseBy 0 1 self.old self.new }
    {
        self.pushes = self.pushes.saturating_add(1);
    }
}

/// Twice the area of the triangle between three positions, in square units: for a position and its two neighbours, twice its
/// effective area (Visvalingam and Whyatt 1993). It is counted.
#[tactic(auto, unfolding(geometry::specs::Areas::twice_area))]
pub fn twice_area(steps: &mut Steps, a: Position, b: Position, c: Position) -> u128
    ensures value { result ≡ spec.twice_area a b c }
    ensures bound { result < area_limit }
    ensures counted { steps.new ≡ one_area steps.old }
{
    steps.count_area();
    cross(a, b, c).unsigned_abs()
}

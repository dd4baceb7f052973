// What keeps a corner from going.
ghost use Rattle.std.specs.Prelude.{◌≡◌, false};
ghost use Rattle.guarded_reduction.specs.Blocked.{blocking};
ghost use Rattle.guarded_reduction.specs.Blocking.{joins_ends};
ghost use Rattle.guarded_reduction.specs.Blocking as spec;
ghost use Rattle.guarded_reduction.specs.SideBySide.{afters_in, befores_in};
ghost use Rattle.guarded_reduction.specs.Tests.{IsOutside, Reaches};

use crate::index::corner::{Corner, is_held_by, reach_of};
use crate::index::searching::position_of;
use crate::places::neighbours::{Neighbours, after_or, before_or};
use geometry::{Position, is_same};
use planar_predicates::{Extent, is_aside, is_point};

/// The place is another than a corner's own, and at this position.
#[tactic(auto, unfolding(crate::specs::Blocking::leads_on))]
pub fn leads_on(positions: &[Position], to: Position, own: usize, place: usize) -> bool
    ensures { result ≡ spec.leads_on positions.now to own place }
{
    place < positions.len() && (place != own && is_same(to, position_of(positions, place)))
}

/// A corner, and the positions and neighbours of places. A place that holds the corner blocks it, and so does one from which a segment leads between the
/// positions before and after it, where these are two.
#[derive(Drop)]
pub struct Blocked<'a> {
    pub corner: Corner,
    pub positions: &'a [Position],
    pub neighbours: &'a [Neighbours],
}

/// The place is at the position before the corner, and a segment from it leads to the one after it.
#[tactic(auto, unfolding(crate::specs::Blocking::is_joined_at, crate::specs::Blocking::joins_ends))]
fn joins(b: &Blocked, place: usize, at: Position) -> bool
    ensures { result ≡ joins_ends b.now.positions.now (befores_in b.now.neighbours.now) (afters_in b.now.neighbours.now) b.now.corner place at }
{
    let Corner {
        before,
        at: _,
        after,
        place: own,
    } = b.corner;
    !is_same(before, after)
        && (is_same(before, at)
            && (place != own
                && (leads_on(b.positions, after, own, before_or(b.neighbours, place, own))
                    || leads_on(b.positions, after, own, after_or(b.neighbours, place, own)))))
}

impl Blocked<'_> {
    /// A place at this position blocks the corner.
    #[tactic(auto, unfolding(crate::specs::Blocking::is_blocked_by))]
    pub fn is_met_by(&self, place: usize, at: Position) -> bool
        ensures { result ≡ blocking self.now place at }
    {
        is_held_by(&self.corner, place, at) || joins(self, place, at)
    }

    /// A box that holds the positions of all places that block it.
    #[tactic(auto, using(crate::proofs::Joining::blocked_reach))]
    pub fn reach(&self) -> Extent
        ensures { Reaches result (blocking self.now) }
    {
        reach_of(&self.corner)
    }

    /// A box may hold the position of one, unless the answer is no. It is asked of boxes that meet the reach.
    #[tactic(auto, using(crate::proofs::Joining::blocked_outside, crate::proofs::OtherSide::after_outside, crate::proofs::Queries::outside))]
    pub fn may_meet(&self, e: &Extent) -> bool
        ensures { result ≡ false → IsOutside e.now (blocking self.now) }
    {
        !is_point(e, self.corner.after)
            && !is_aside(e, self.corner.before, self.corner.at, self.corner.after)
    }
}

// Places that are left, and their neighbours.
ghost use Rattle.std.specs.Prelude.{◌≡◌, ◌<◌, IfOk, OnOk, true, false, length, slice_index};
ghost use Rattle.std.specs.Option.{IfNone, IfSome};
ghost use Rattle.geometry.specs.Units.{area_limit};
ghost use Rattle.guarded_reduction.specs.Indexes.{Meets, NoneMeets, is_left_at, point_at};
ghost use Rattle.guarded_reduction.specs.Blocking.{is_blocked_by, leads_on};
ghost use Rattle.guarded_reduction.specs.Entries.{IsCurrent, IsDue, entry_at, entry_in};
ghost use Rattle.guarded_reduction.specs.First.{first_linked};
ghost use Rattle.guarded_reduction.specs.Linking.{IsCorner, IsWhole as IsWholeLinked, corner_in, fixed_at, is_fixed as is_fixed_in, unlinked};
ghost use Rattle.guarded_reduction.specs.Moves.{lost_at};

use crate::index::blocking::{Blocked, leads_on};
use crate::index::corner::{Corner, reach_of};
use crate::index::searching::{is_left, position_of};
use crate::places::flattening::{all_neighbours, all_positions};
use crate::places::neighbours::{Neighbours, neighbours_of, set_after, set_before};
use crate::places::shown_places::ShownPlaces;
use crate::queue::entry::Entry;
use crate::rings::ring_moves::step;
use effective_area::cross;
use geometry::Position;
use owned_values::{Items, Memory};
use std::alloc::Global;
use std::cmp::Reverse;
use std::marker::Model;

/// The places of arcs, numbered one arc after another, of which some are left, and the neighbours of these: the place before each, and the one after
/// it; where there is none, the place itself. Some of them may stay for good.
#[derive(Drop)]
pub struct LinkedPlaces {
    places: ShownPlaces,
    neighbours: Vec<Neighbours>,
    fixed: Vec<bool>,
}

impl Model for LinkedPlaces {
    ghost use Rattle.guarded_reduction.specs.Linking.{IsWhole, Linked};
    ghost use Rattle.guarded_reduction.specs.SideBySide.{afters_in, befores_in};

    ghost Value = { Linked };

    ghost view = { λ p. record { positions = p.places.positions; left = p.places.left; befores = befores_in p.neighbours.items; afters = afters_in p.neighbours.items; no_crossings = p.places.indexed; fixed = p.fixed.items } };

    ghost invariant = { λ p. IsWhole (record { positions = p.places.positions; left = p.places.left; befores = befores_in p.neighbours.items; afters = afters_in p.neighbours.items; no_crossings = p.places.indexed; fixed = p.fixed.items }) };
}

impl LinkedPlaces {
    /// The places of these arcs, which are all left, with an index where crossings are to be avoided.
    #[tactic(auto, using(crate::proofs::Starts::first_is, crate::proofs::Starts::first_whole, crate::proofs::Starts::links_many))]
    pub fn of(
        alloc: Global,
        arcs: &[Items<Position>],
        no_crossings: bool,
    ) -> Result<LinkedPlaces, Memory>
        ensures { IfOk result (λ s. s ≡ first_linked no_crossings arcs.now) }
    {
        let positions = all_positions(alloc, arcs)?;
        let fixed = vec![in alloc; false; positions.len()]?;
        let neighbours = all_neighbours(alloc, arcs)?;
        let places = ShownPlaces::of(alloc, positions, &neighbours, no_crossings)?;
        Ok(LinkedPlaces {
            places,
            neighbours,
            fixed,
        })
    }

    /// What is true of any of them. A call does nothing.
    pub fn law(&self)
        ensures { IsWholeLinked self.now }
    {
        let _ = &self.neighbours;
    }

    /// How many places there are, with those that are gone.
    pub fn len(&self) -> usize
        ensures { result ≡ length self.now.positions }
    {
        self.places.positions().len()
    }

    /// Which places are left.
    pub fn left(&self) -> &[bool]
        ensures { result.now ≡ self.now.left }
    {
        self.places.left()
    }

    /// The place is left.
    pub fn is_left(&self, place: usize) -> bool
        requires { place < length self.now.positions }
        ensures { result ≡ is_left_at self.now.left place }
    {
        self.law();
        is_left(self.left(), place)
    }

    /// The place stays for good.
    #[tactic(auto, unfolding(crate::specs::Linking::is_fixed))]
    fn is_fixed(&self, place: usize) -> bool
        requires { place < length self.now.positions }
        ensures { result ≡ is_fixed_in self.now place }
    {
        self.fixed[place]
    }

    /// The position of a place.
    pub fn position(&self, place: usize) -> Position
        requires { place < length self.now.positions }
        ensures { result ≡ point_at self.now.positions place }
    {
        position_of(self.places.positions(), place)
    }

    /// The place before a place.
    pub fn before(&self, place: usize) -> usize
        requires { place < length self.now.positions }
        ensures value { result ≡ slice_index self.now.befores place }
        ensures within { result < length self.now.positions }
    {
        neighbours_of(&self.neighbours, place).before as usize
    }

    /// The place after a place.
    pub fn after(&self, place: usize) -> usize
        requires { place < length self.now.positions }
        ensures value { result ≡ slice_index self.now.afters place }
        ensures within { result < length self.now.positions }
    {
        neighbours_of(&self.neighbours, place).after as usize
    }

    /// The corner at a place between two others.
    #[tactic(auto, unfolding(geometry::specs::Areas::twice_area))]
    fn entry_between(&self, before: usize, place: usize, after: usize) -> Entry
        requires before { before < length self.now.positions }
        requires place { place < length self.now.positions }
        requires after { after < length self.now.positions }
        ensures value { result ≡ entry_at self.now.positions before place after }
        ensures below { result.area < area_limit }
    {
        self.law();
        let at = self.position(place);
        let first = self.position(before);
        let last = self.position(after);
        let area = cross(first, at, last).unsigned_abs();
        Entry {
            area,
            at,
            place: place as u32,
            before: before as u32,
            after: after as u32,
        }
    }

    /// The corner at a place, if there is one that is under the threshold and doesn't stay for good.
    pub fn entry(&self, place: usize, threshold: u128) -> Option<Entry>
        ensures due { IfSome result (λ e. IsDue threshold self.now place) }
        ensures value { IfSome result (λ e. e ≡ entry_in self.now place) }
        ensures none { IfNone result (IsDue threshold self.now place → ⊥) }
        ensures below { IsCorner self.now place → (entry_in self.now place).area < area_limit }
    {
        if place >= self.len() {
            return None;
        }
        if !self.is_left(place) {
            return None;
        }
        let before = self.before(place);
        if before == place {
            return None;
        }
        let after = self.after(place);
        if after == place {
            return None;
        }
        let entry = self.entry_between(before, place, after);
        if entry.area >= threshold || self.is_fixed(place) {
            return None;
        }
        Some(entry)
    }

    /// The entry's place is left, doesn't stay for good, and its neighbours are those that its area was computed with.
    pub fn is_current(&self, entry: &Entry) -> bool
        ensures current { result ≡ true → IsCurrent self.now entry.now }
        ensures stale { result ≡ false → IsCurrent self.now entry.now → ⊥ }
    {
        let place = entry.place as usize;
        if place >= self.len() {
            return false;
        }
        if !self.is_left(place) || self.is_fixed(place) {
            return false;
        }
        if self.before(place) != entry.before as usize {
            return false;
        }
        self.after(place) == entry.after as usize
    }

    /// The corner at a place, as the index is asked for it.
    pub fn corner(&self, place: usize) -> Corner
        requires { place < length self.now.positions }
        ensures { result ≡ corner_in self.now place }
    {
        Corner {
            before: self.position(self.before(place)),
            at: self.position(place),
            after: self.position(self.after(place)),
            place,
        }
    }

    /// Makes the index anew of what is left, where that is little.
    pub fn renew(&mut self, alloc: Global) -> Result<(), Memory>
        ensures { self.new ≡ self.old }
    {
        self.places.renew(alloc, &self.neighbours)
    }

    /// Looks at what the searches of these corners begin with: memory brings it for all of them at once, and has it at hand when each comes.
    pub fn look_ahead(&mut self, coming: &[Reverse<Entry>])
        ensures { self.new ≡ self.old }
    {
        let mut steps = 0u64;
        'coming: for Reverse(entry) in coming {
            if self.is_current(entry) {
                let corner = self.corner(entry.place as usize);
                steps = steps.saturating_add(self.places.least_steps(&corner));
            }
        }
        self.places.spend(steps);
    }

    /// A place that is left and blocks a corner, where crossings are to be avoided. The index is readied for the search, whose steps are then spent.
    pub fn holder(&mut self, alloc: Global, corner: Corner) -> Result<Option<usize>, Memory>
        ensures same { OnOk result (self.new ≡ self.old) }
        ensures asked { IfOk result (λ found. IfSome found (λ _. self.old.no_crossings ≡ true)) }
        ensures some { IfOk result (λ found. IfSome found (λ z. Meets self.old.positions self.old.left (is_blocked_by self.old.positions self.old.befores self.old.afters corner) z)) }
        ensures none { IfOk result (λ found. IfNone found (self.old.no_crossings ≡ true → NoneMeets self.old.positions self.old.left (is_blocked_by self.old.positions self.old.befores self.old.afters corner))) }
    {
        self.places.ready(alloc, &reach_of(&corner))?;
        let blocked = Blocked {
            corner,
            positions: self.places.positions(),
            neighbours: self.neighbours.as_slice(),
        };
        let mut steps = 0u64;
        let found = self.places.find(&blocked, &mut steps);
        self.places.spend(steps);
        Ok(found)
    }

    /// Crossings are to be avoided.
    pub fn avoids_crossings(&self) -> bool
        ensures { result ≡ self.now.no_crossings }
    {
        self.places.is_indexed()
    }

    /// There seem to be more places at the position of one than at that of another.
    pub fn is_more_crowded(&self, place: usize, other: usize) -> bool
        requires place { place < length self.now.positions }
        requires other { other < length self.now.positions }
    {
        self.places.is_more_crowded(place, other)
    }

    /// The place is left and blocks a corner.
    pub fn is_holder(&self, corner: &Corner, place: usize) -> bool
        ensures yes { result ≡ true → Meets self.now.positions self.now.left (is_blocked_by self.now.positions self.now.befores self.now.afters corner.now) place }
        ensures no { result ≡ false → Meets self.now.positions self.now.left (is_blocked_by self.now.positions self.now.befores self.now.afters corner.now) place → ⊥ }
    {
        if place >= self.len() {
            return false;
        }
        let blocked = Blocked {
            corner: *corner,
            positions: self.places.positions(),
            neighbours: self.neighbours.as_slice(),
        };
        self.is_left(place) && blocked.is_met_by(place, self.position(place))
    }

    /// A place is another than the corner's own, and at the position after it.
    pub fn leads_on(&self, corner: &Corner, place: usize) -> bool
        ensures { result ≡ leads_on self.now.positions corner.now.after corner.now.place place }
    {
        leads_on(self.places.positions(), corner.after, corner.place, place)
    }

    /// How many moves fewer an arc makes when the corner at a place goes.
    pub fn lost(&self, place: usize) -> usize
        requires { place < length self.now.positions }
        ensures { result ≡ lost_at self.now place }
    {
        let corner = self.corner(place);
        let there = step(corner.before, corner.at) + step(corner.at, corner.after);
        there.saturating_sub(step(corner.before, corner.after))
    }

    /// The place stays for good.
    pub fn fix(&mut self, place: usize)
        requires { place < length self.old.positions }
        ensures fixed { self.new ≡ fixed_at place self.old }
        ensures stays { is_fixed_in self.new place ≡ true }
    {
        self.fixed[place] = true;
    }

    /// The place goes, and its neighbours become each other's.
    pub fn remove(&mut self, place: usize)
        requires { place < length self.old.positions }
        ensures { self.new ≡ unlinked place self.old }
    {
        let Neighbours { before, after } = neighbours_of(&self.neighbours, place);
        self.places.remove(place);
        set_before(&mut self.neighbours, after as usize, before);
        set_after(&mut self.neighbours, before as usize, after);
    }
}

// Rings that are to stay.
ghost use Rattle.std.specs.Prelude.{◌≡◌, ◌⊎◌, ◌<◌, ◌≤◌, IfOk, length, map, not, slice_index, slice_set, true, ◌||◌};
ghost use Rattle.std.specs.List.{AllByRecursion, list_all};
ghost use Rattle.geometry.specs.Joins.{AreInRange, Meet, arc_at};
ghost use Rattle.guarded_meaning.specs.Guards.{is_long, uses};
ghost use Rattle.guarded_reduction.specs.Linking.{IsCorner};
ghost use Rattle.guarded_reduction.specs.Moves.{IsCounted, counted_without, keeps_all, stays};

use crate::places::linked_places::LinkedPlaces;
use crate::rings::ring_moves::{
    LEAST_MOVES, all_moves, capped, left_to, lose_moves, owners_of, sums_of, users_of,
};
use geometry::{ArcRef, Position};
use owned_values::{Items, Memory};
use std::alloc::Global;
use std::marker::Model;

/// The rings that are to stay while corners go: the arc indexes of each, the number of each place's arc, how many positions of each arc that are left
/// differ from the one before, the numbers of the rings that use each arc, one as often as it does, and how often each ring moves on over what is
/// left, where no arc counts for more than three moves. Where there are no rings, nothing is counted.
#[derive(Drop)]
pub struct KeptRings<'a> {
    rings: &'a [Items<ArcRef>],
    owners: Vec<usize>,
    moves: Vec<usize>,
    users: Vec<Vec<usize>>,
    sums: Vec<u128>,
}

impl<'a> Model for KeptRings<'a> {
    ghost use Rattle.std.specs.Prelude.{map};
    ghost use Rattle.guarded_reduction.specs.Moves.{Counted, HasSums};

    ghost Value = { Counted };

    ghost view = { λ g. record { rings = g.rings.now; owners = g.owners.items; moves = g.moves.items; users = map (λ u. u.items) g.users.items } };

    ghost invariant = { λ g. HasSums (record { rings = g.rings.now; owners = g.owners.items; moves = g.moves.items; users = map (λ u. u.items) g.users.items }) g.sums.items };
}

impl<'a> KeptRings<'a> {
    /// These rings of these arcs, of which all positions are left.
    pub fn of(
        alloc: Global,
        arcs: &[Items<Position>],
        rings: &'a [Items<ArcRef>],
    ) -> Result<KeptRings<'a>, Memory>
        requires in_range { AllByRecursion (AreInRange (length arcs.now)) rings.now }
        requires meet { AllByRecursion (λ refs. Meet (map (arc_at arcs.now) refs)) rings.now }
        requires long { AllByRecursion (λ refs. is_long arcs.now refs ≡ true) rings.now }
        ensures rings { IfOk result (λ g. g.rings ≡ rings.now) }
        ensures counted { IfOk result (λ g. (length rings.now ≡ 0) ⊎ IsCounted arcs.now arcs.now g) }
    {
        if rings.is_empty() {
            return Ok(KeptRings {
                rings,
                owners: Vec::new(alloc),
                moves: Vec::new(alloc),
                users: Vec::new(alloc),
                sums: Vec::new(alloc),
            });
        }
        let owners = owners_of(alloc, arcs)?;
        let moves = all_moves(alloc, arcs)?;
        let users = users_of(alloc, arcs.len(), rings)?;
        let sums = sums_of(alloc, moves.as_slice(), rings)?;
        Ok(KeptRings {
            rings,
            owners,
            moves,
            users,
            sums,
        })
    }

    /// Whether each ring that uses an arc stays where so many moves are left to the arc.
    fn all_stay(&self, arc: usize, left: usize) -> bool
        requires some { 0 < length self.now.rings }
        requires arc { arc < length self.now.moves }
        requires left { left ≤ slice_index self.now.moves arc }
        requires few { left < 3 }
        ensures { result ≡ list_all (λ refs. not (uses arc refs) || stays (slice_set self.now.moves arc left) refs) self.now.rings }
    {
        let lost = capped(self.moves[arc]).saturating_sub(left) as u128;
        let mut ring = 0;
        let mut sum = self.sums[0];
        let sums = self.sums.as_slice();
        let users = self.users[arc].as_slice();
        'users: for user in users {
            sum = left_to(sums, *user, ring, sum).saturating_sub(lost);
            ring = *user;
            if sum < LEAST_MOVES as u128 {
                return false;
            }
        }
        true
    }

    /// Whether each ring stays where the corner at a place goes.
    pub fn keeps(&self, places: &LinkedPlaces, place: usize) -> bool
        requires owner { (length self.now.rings ≡ 0) ⊎ (place < length self.now.owners) }
        requires corner { IsCorner places.now place }
        ensures { result ≡ keeps_all places.now place self.now }
    {
        if self.rings.is_empty() {
            return true;
        }
        let arc = self.owners[place];
        let moves = self.moves[arc];
        let left = moves.saturating_sub(places.lost(place));
        if left == moves {
            return true;
        }
        if left >= LEAST_MOVES {
            return true;
        }
        self.all_stay(arc, left)
    }

    /// The corner at a place goes.
    pub fn remove(&mut self, places: &LinkedPlaces, place: usize)
        requires owner { (length self.old.rings ≡ 0) ⊎ (place < length self.old.owners) }
        requires corner { IsCorner places.now place }
        requires stay { keeps_all places.now place self.old ≡ true }
        ensures { self.new ≡ counted_without places.now place self.old }
    {
        if self.rings.is_empty() {
            return;
        }
        let arc = self.owners[place];
        let moves = self.moves[arc];
        let left = moves.saturating_sub(places.lost(place));
        lose_moves(&mut self.sums, self.users[arc].as_slice(), moves, left);
        self.moves[arc] = left;
    }
}

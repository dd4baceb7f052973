// The corner that goes next.
ghost use Rattle.std.specs.Prelude.{◌≡◌, ◌⊎◌, ◌<◌, IfOk, OnOk, length, true, false};
ghost use Rattle.std.specs.Option.{IfNone, IfSome};
ghost use Rattle.guarded_reduction.specs.Blocking.{is_blocked_by};
ghost use Rattle.guarded_reduction.specs.Indexes.{Meets, point_at};
ghost use Rattle.guarded_reduction.specs.Linking.{IsChained};
ghost use Rattle.guarded_reduction.specs.Moves.{counted_without, keeps_all};
ghost use Rattle.guarded_reduction.specs.States.{IsFixing, IsHeld, IsNext, IsOtherEnd, IsQueued, NoneNext, blocks};
ghost use Rattle.guarded_reduction.specs.Tests.{is_held_by};
ghost use Rattle.guarded_reduction.specs.Waiting.{KeepsWaits};

use crate::index::corner::{Corner, is_held_by};
use crate::places::holding::holder_of;
use crate::places::linked_places::LinkedPlaces;
use crate::queue::corner_queue::CornerQueue;
use crate::queue::entry::Entry;
use crate::queue::waiting_lists::WaitingLists;
use crate::rings::kept_rings::KeptRings;
use owned_values::Memory;
use std::alloc::Global;
use std::cmp::Reverse;

/// The other end of the segment by which a place blocks a corner, in whose triangle it isn't.
fn other_end(places: &LinkedPlaces, corner: &Corner, holder: usize) -> usize
    requires blocks { Meets places.now.positions places.now.left (is_blocked_by places.now.positions places.now.befores places.now.afters corner.now) holder }
    requires outside { is_held_by corner.now holder (point_at places.now.positions holder) ≡ false }
    ensures within { result < length places.now.positions }
    ensures end { IsOtherEnd places.now corner.now holder result }
{
    places.law();
    let before = places.before(holder);
    if places.leads_on(corner, before) {
        return before;
    }
    places.after(holder)
}

/// The corner at a place waits on what blocks it: on a place in its triangle alone, and on both ends of a segment.
fn wait_on(
    waiting: &mut WaitingLists,
    places: &LinkedPlaces,
    place: usize,
    holder: usize,
) -> Result<(), Memory>
    requires asked { places.now.no_crossings ≡ true }
    requires place { place < length places.now.positions }
    requires firsts { length waiting.old.firsts ≡ length places.now.positions }
    requires meets { Meets places.now.positions places.now.left (blocks places.now place) holder }
    ensures kept { OnOk result (KeepsWaits waiting.old waiting.new) }
    ensures held { OnOk result (IsHeld places.now waiting.new place) }
{
    waiting.add(holder, place)?;
    let corner = places.corner(place);
    if is_held_by(&corner, holder, places.position(holder)) {
        return Ok(());
    }
    waiting.add(other_end(places, &corner, holder), place)
}

/// The corner that goes next, if its rings stay, and if there is one. Those that are blocked come to wait, each once.
pub fn next_corner(
    alloc: Global,
    queue: &mut CornerQueue,
    waiting: &mut WaitingLists,
    places: &mut LinkedPlaces,
    threshold: u128,
) -> Result<Option<Entry>, Memory>
    requires queued { IsQueued threshold places.old queue.old waiting.old }
    requires chained { IsChained places.old }
    ensures same { OnOk result (places.new ≡ places.old) }
    ensures next { IfOk result (λ found. IfSome found (λ e. IsNext threshold places.old queue.new waiting.new e)) }
    ensures none { IfOk result (λ found. IfNone found (NoneNext threshold places.old waiting.new)) }
    ensures fewer { IfOk result (λ found. IfSome found (λ _. length queue.new < length queue.old)) }
{
    let mut held = places.len();
    let mut last = held;
    'entries: while let Some(Reverse(entry)) = queue.pop() {
        places.look_ahead(queue.coming());
        let place = entry.place as usize;
        // (equal entries come off the queue one after another)
        if place == held {
            continue;
        }
        if !places.is_current(&entry) {
            continue;
        }
        let Some(holder) = holder_of(alloc, places, place, last)? else {
            return Ok(Some(entry));
        };
        wait_on(waiting, places, place, holder)?;
        held = place;
        last = holder;
    }
    Ok(None)
}

/// The corner that goes next, if there is one. The places of those with which not all rings would stay, stay for good.
#[tactic(auto, using(crate::proofs::Queued::chained_fixed, crate::proofs::Queued::next_fixed, crate::proofs::Queued::one_fixed))]
pub fn next_going(
    alloc: Global,
    queue: &mut CornerQueue,
    waiting: &mut WaitingLists,
    places: &mut LinkedPlaces,
    rings: &mut KeptRings<'_>,
    threshold: u128,
) -> Result<Option<Entry>, Memory>
    requires queued { IsQueued threshold places.old queue.old waiting.old }
    requires chained { IsChained places.old }
    requires owners { (length rings.old.rings ≡ 0) ⊎ (length rings.old.owners ≡ length places.old.positions) }
    ensures fixing { OnOk result (IsFixing places.old rings.old places.new) }
    ensures next { IfOk result (λ found. IfSome found (λ e. IsNext threshold places.new queue.new waiting.new e)) }
    ensures stay { IfOk result (λ found. IfSome found (λ e. keeps_all places.new e.place rings.old ≡ true)) }
    ensures counted { IfOk result (λ found. IfSome found (λ e. rings.new ≡ counted_without places.new e.place rings.old)) }
    ensures none { IfOk result (λ found. IfNone found (NoneNext threshold places.new waiting.new)) }
    ensures same { IfOk result (λ found. IfNone found (rings.new ≡ rings.old)) }
{
    'corners: while let Some(entry) = next_corner(alloc, queue, waiting, places, threshold)? {
        let place = entry.place as usize;
        if rings.keeps(places, place) {
            rings.remove(places, place);
            return Ok(Some(entry));
        }
        places.fix(place);
    }
    Ok(None)
}

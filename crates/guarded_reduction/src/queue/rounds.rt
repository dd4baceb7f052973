// Rounds: corners are queued a share of them at a time, those under a lower threshold first, so that the queue stays short.
ghost use Rattle.std.specs.Prelude.{◌≡◌, ◌⊎◌, ◌<◌, ◌≤◌, true, IfOk, OnOk, length};
ghost use Rattle.std.specs.Option.{IfNone, IfSome};
ghost use Rattle.guarded_reduction.specs.Entries.{AreBelow};
ghost use Rattle.guarded_reduction.specs.Linking.{IsChained};
ghost use Rattle.guarded_reduction.specs.Moves.{counted_without, keeps_all};
ghost use Rattle.guarded_reduction.specs.States.{IsFixing, IsNext, IsQueued, NoneNext, PushedFrom};

use crate::places::linked_places::LinkedPlaces;
use crate::queue::corner_queue::CornerQueue;
use crate::queue::entry::Entry;
use crate::queue::looking::next_going;
use crate::queue::waiting_lists::WaitingLists;
use crate::rings::kept_rings::KeptRings;
use owned_values::Memory;
use std::alloc::Global;
use std::cmp::Reverse;

/// So many places have one round: their corners are soon sorted, and threshold by threshold those would be looked at that are left.
const FEW: usize = 8192;

/// At so many places corners are looked at to find the threshold of a round.
const SAMPLES: usize = 512;

/// In each round go about as many corners as those of these samples that have the least areas stand for.
const LEAST: usize = 64;

/// The threshold of a round is higher than the one before by as much as this part of that at least, so that there are some five hundred rounds at most.
const STEP: u128 = 8;

/// With more waits than so many for each place all of them are forgotten. Each corner that waits is looked at once more then, and comes to wait twice at
/// most: before the next time so many looks have blocked anew as there are places, and no more than these are made twice. Between two corners that
/// go each is looked at once at most: so there are never more waits than six for each place, and on the heap no more corners than these, and two for
/// each that went.
const MOST_WAITS: usize = 4;

/// The area of the corner at a place where it is in a later round than that under the first threshold, else the second threshold.
fn later_area(places: &LinkedPlaces, place: usize, round: u128, threshold: u128) -> u128 {
    match places.entry(place, threshold) {
        Some(entry) if entry.area >= round => entry.area,
        _ => threshold,
    }
}

/// A threshold for the next round, which is above that of the last one, unless that is the whole. For few places it is the whole.
pub fn next_threshold(places: &LinkedPlaces, round: u128, threshold: u128) -> u128
    requires { round ≤ threshold }
    ensures above { round < threshold → round < result }
    ensures within { result ≤ threshold }
{
    if places.len() <= FEW || round == threshold {
        return threshold;
    }
    let stride = places.len() / SAMPLES;
    let mut areas = [threshold; SAMPLES];
    for i in 0..SAMPLES {
        areas[i] = later_area(places, i.wrapping_mul(stride), round, threshold);
    }
    areas.sort_unstable();
    let least = round.saturating_add(round / STEP);
    areas[LEAST].max(least).max(round + 1).min(threshold)
}

/// Puts the corner at a place after the others, if there is one that is under the second threshold, and not under the first.
#[tactic(auto, using(crate::proofs::Heap::pushed_from, crate::proofs::Heap::put_last))]
fn push_from(
    corners: &mut Vec<Reverse<Entry>>,
    places: &LinkedPlaces,
    from: u128,
    until: u128,
    place: usize,
) -> Result<(), Memory>
    ensures { OnOk result (PushedFrom from until places.now corners.old.items corners.new.items place) }
{
    let Some(entry) = places.entry(place, until) else {
        return Ok(());
    };
    if entry.area >= from {
        corners.push(Reverse(entry))?;
    }
    Ok(())
}

/// Begins a round, where no corner under the threshold of the last one goes any more: the corners under its own are queued, but for those that
/// wait.
pub fn begin_round(
    alloc: Global,
    queue: &mut CornerQueue,
    waiting: &WaitingLists,
    places: &LinkedPlaces,
    from: u128,
    until: u128,
) -> Result<(), Memory>
    requires { NoneNext from places.now waiting.now }
    ensures queued { OnOk result (IsQueued until places.now queue.new waiting.now) }
    ensures below { OnOk result (AreBelow places.now) }
{
    let mut corners = queue.emptied(alloc);
    for place in 0..places.len() {
        push_from(&mut corners, places, from, until, place)?;
    }
    queue.fill(corners);
    Ok(())
}

/// Begins the round after one that was not the last, with an index of what is left.
fn begin_next_round(
    alloc: Global,
    queue: &mut CornerQueue,
    waiting: &WaitingLists,
    places: &mut LinkedPlaces,
    round: &mut u128,
    threshold: u128,
) -> Result<(), Memory>
    requires none { NoneNext round.old places.old waiting.now }
    requires more { round.old < threshold }
    ensures same { OnOk result (places.new ≡ places.old) }
    ensures queued { OnOk result (IsQueued round.new places.new queue.new waiting.now) }
    ensures above { OnOk result (round.old < round.new) }
    ensures within { OnOk result (round.new ≤ threshold) }
{
    places.renew(alloc)?;
    let from = *round;
    let until = next_threshold(places, from, threshold);
    begin_round(alloc, queue, waiting, places, from, until)?;
    *round = until;
    Ok(())
}

/// Where there are too many waits all are forgotten, and the round begins anew, with all of its corners.
fn forget_many(
    alloc: Global,
    queue: &mut CornerQueue,
    waiting: &mut WaitingLists,
    places: &LinkedPlaces,
    round: u128,
) -> Result<(), Memory>
    requires { IsQueued round places.now queue.old waiting.old }
    ensures { OnOk result (IsQueued round places.now queue.new waiting.new) }
{
    if waiting.len() / MOST_WAITS <= places.len() {
        return Ok(());
    }
    waiting.clear();
    begin_round(alloc, queue, waiting, places, 0, round)
}

/// The corner that goes next, if there is one. Where none is queued any more, the next round begins.
#[tactic(auto, using(crate::proofs::Queued::chained_fixed, crate::proofs::Queued::fixed_more, crate::proofs::Queued::owners_still))]
pub fn next_in_rounds(
    alloc: Global,
    queue: &mut CornerQueue,
    waiting: &mut WaitingLists,
    places: &mut LinkedPlaces,
    rings: &mut KeptRings<'_>,
    round: &mut u128,
    threshold: u128,
) -> Result<Option<Entry>, Memory>
    requires queued { IsQueued round.old places.old queue.old waiting.old }
    requires round { round.old ≤ threshold }
    requires chained { IsChained places.old }
    requires owners { (length rings.old.rings ≡ 0) ⊎ (length rings.old.owners ≡ length places.old.positions) }
    ensures round { OnOk result (round.new ≤ threshold) }
    ensures fixing { OnOk result (IsFixing places.old rings.old places.new) }
    ensures next { IfOk result (λ found. IfSome found (λ e. IsNext round.new places.new queue.new waiting.new e)) }
    ensures stay { IfOk result (λ found. IfSome found (λ e. keeps_all places.new e.place rings.old ≡ true)) }
    ensures counted { IfOk result (λ found. IfSome found (λ e. rings.new ≡ counted_without places.new e.place rings.old)) }
    ensures none { IfOk result (λ found. IfNone found (NoneNext threshold places.new waiting.new)) }
{
    forget_many(alloc, queue, waiting, places, *round)?;
    'rounds: while *round < threshold {
        if let Some(entry) = next_going(alloc, queue, waiting, places, rings, *round)? {
            return Ok(Some(entry));
        }
        begin_next_round(alloc, queue, waiting, places, round, threshold)?;
    }
    let last = next_going(alloc, queue, waiting, places, rings, *round)?;
    Ok(last)
}

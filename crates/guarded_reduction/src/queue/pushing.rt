// Corners that are queued.
ghost use Rattle.std.specs.Prelude.{◌≡◌, ◌<◌, IfOk, OnOk, length};
ghost use Rattle.guarded_reduction.specs.Entries.{AreBelow};
ghost use Rattle.guarded_reduction.specs.Linking.{IsChained, unlinked};
ghost use Rattle.guarded_reduction.specs.States.{IsNext, IsQueued, Pushed, PushedAll};

use crate::places::linked_places::LinkedPlaces;
use crate::queue::corner_queue::CornerQueue;
use crate::queue::entry::Entry;
use crate::queue::waiting_lists::WaitingLists;
use owned_values::Memory;
use std::cmp::Reverse;

/// Queues the corner at a place, if there is one that is under the threshold.
fn push_corner(
    queue: &mut CornerQueue,
    places: &LinkedPlaces,
    threshold: u128,
    place: usize,
) -> Result<(), Memory>
    ensures { OnOk result (Pushed threshold places.now queue.old queue.new place) }
{
    if let Some(entry) = places.entry(place, threshold) {
        queue.push(Reverse(entry))?;
    }
    Ok(())
}

/// Queues the corners that wait on a place, as far as they are under the threshold.
fn push_waiting(
    queue: &mut CornerQueue,
    places: &LinkedPlaces,
    waiting: &WaitingLists,
    threshold: u128,
    holder: usize,
) -> Result<(), Memory>
    requires { holder < length waiting.now.firsts }
    ensures { OnOk result (PushedAll threshold places.now queue.old queue.new waiting.now holder) }
{
    let mut number = waiting.first(holder);
    'waits: while number > 0 {
        let wait = waiting.wait(number);
        push_corner(queue, places, threshold, wait.corner)?;
        number = wait.next;
    }
    Ok(())
}

/// The corner goes. Those of its neighbours, and those that waited on it, are looked at again.
#[tactic(auto, using(crate::proofs::Queued::below_to, crate::proofs::Queued::taken_out_to))]
pub fn take_out(
    queue: &mut CornerQueue,
    places: &mut LinkedPlaces,
    waiting: &WaitingLists,
    threshold: u128,
    entry: Entry,
) -> Result<(), Memory>
    requires next { IsNext threshold places.old queue.old waiting.now entry }
    requires chained { IsChained places.old }
    ensures places { OnOk result (places.new ≡ unlinked entry.place places.old) }
    ensures queued { OnOk result (IsQueued threshold places.new queue.new waiting.now) }
    ensures below { OnOk result (AreBelow places.old → AreBelow places.new) }
{
    places.law();
    let place = entry.place as usize;
    places.remove(place);
    push_corner(queue, places, threshold, entry.before as usize)?;
    push_corner(queue, places, threshold, entry.after as usize)?;
    push_waiting(queue, places, waiting, threshold, place)?;
    Ok(())
}

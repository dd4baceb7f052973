// A heap of entries: the corner that goes first is on top. The order of entries depends on the positions of a line, which they don't
// hold, so it is no heap of the standard library's.
ghost use Rattle.std.specs.Prelude.{◌≡◌, ◌<◌, ◌≤◌, ◌+◌, ◌*◌, ◌∷◌, [], IfSome, IfNone, OnOk, length, vec_len};
ghost use Rattle.std.specs.BinaryHeap.{IsHeap, IsUpperBound};
ghost use Rattle.std.specs.List.Sorted.{IsPermutation};
ghost use Rattle.std.specs.BinaryHeap.Sift.{IsGreaterChild, SiftsDown, SiftsUp};
ghost use Rattle.effective_area.specs.Links.{queue_cmp};

use crate::entry::{Entry, is_ahead};
use geometry::Position;
use owned_values::Memory;

/// Moves an entry up to where it belongs.
fn rise(heap: &mut Vec<Entry>, arc: &[Position], from: usize)
    requires { from < length heap.old.items }
    ensures same { IsPermutation heap.old.items heap.new.items }
    ensures rises { SiftsUp (queue_cmp arc.now) heap.old.items from heap.new.items }
{
    let mut at = from;
    while at > 0 {
        let parent = (at - 1) / 2;
        if !is_ahead(arc, &heap[at], &heap[parent]) {
            return;
        }
        heap.swap(parent, at);
        at = parent;
    }
}

/// The one below a place that goes first.
fn first_below(heap: &[Entry], arc: &[Position], at: usize) -> usize
    requires { 2 * at + 1 < length heap.now }
    ensures from { 2 * at + 1 ≤ result }
    ensures to { result ≤ 2 * at + 2 }
    ensures within { result < length heap.now }
    ensures first { IsGreaterChild (queue_cmp arc.now) heap.now at result (length heap.now) }
{
    let left = 2 * at + 1;
    if heap.len() - left <= 1 {
        return left;
    }
    let right = left + 1;
    if is_ahead(arc, &heap[left], &heap[right]) {
        return left;
    }
    right
}

/// Moves the entry on top down to where it belongs.
fn sink(heap: &mut Vec<Entry>, arc: &[Position])
    ensures same { IsPermutation heap.old.items heap.new.items }
    ensures sinks { SiftsDown (queue_cmp arc.now) heap.old.items 0 (length heap.old.items) heap.new.items }
{
    let inner = heap.len() / 2;
    let mut at = 0;
    while at < inner {
        let child = first_below(heap, arc, at);
        if !is_ahead(arc, &heap[child], &heap[at]) {
            return;
        }
        heap.swap(at, child);
        at = child;
    }
}

/// Puts an entry on the heap.
pub fn push(heap: &mut Vec<Entry>, arc: &[Position], entry: Entry) -> Result<(), Memory>
    requires order { IsHeap (queue_cmp arc.now) heap.old.items }
    ensures order { OnOk result (IsHeap (queue_cmp arc.now) heap.new.items) }
    ensures permutation { OnOk result (IsPermutation (entry ∷ heap.old.items) heap.new.items) }
{
    let at = heap.len();
    heap.push(entry)?;
    rise(heap, arc, at);
    Ok(())
}

/// Takes out the entry on top.
pub fn pop(heap: &mut Vec<Entry>, arc: &[Position]) -> Option<Entry>
    requires order { IsHeap (queue_cmp arc.now) heap.old.items }
    ensures order { IsHeap (queue_cmp arc.now) heap.new.items }
    ensures permutation { IfSome result (λ e. IsPermutation heap.old.items (e ∷ heap.new.items)) }
    ensures first { IfSome result (λ e. IsUpperBound (queue_cmp arc.now) e heap.old.items) }
    ensures fewer { IfSome result (λ e. vec_len heap.new < vec_len heap.old) }
    ensures none { IfNone result (heap.old.items ≡ []) }
    ensures empty { IfNone result (heap.new.items ≡ []) }
{
    if heap.is_empty() {
        return None;
    }
    let first = heap.swap_remove(0);
    sink(heap, arc);
    Some(first)
}

ghost use Rattle.std.specs.Prelude.{◌≡◌, ◌+◌, ◌<◌, ◌≤◌, ◌++◌, true, false, IfSome, IfNone, OnOk, [], ◌∷◌, length, vec_len};
ghost use Rattle.std.specs.BinaryHeap.{IsHeap, IsUpperBound};
ghost use Rattle.std.specs.List.Sorted.{IsPermutation, IsSorted};
ghost use Rattle.effective_area.specs.Counts.{RoseBy};
ghost use Rattle.effective_area.specs.Links.{DropsStale, GoesFirst, IsCurrent, IsReady, IsUnder, LeavesCurrent, Pushed, PushedFirst, IsDue, area_in, cached, queue_cmp};
ghost use Rattle.elimination_meaning.specs.Elimination.{is_before};

use crate::caching::goes_before;
use crate::entry::{Entry, entry_of, is_ahead, is_current};
use crate::heap;
use crate::links::{Link, after_of, area_of, before_of};
use crate::steps::Steps;
use geometry::Position;
use owned_values::Memory;

/// Whether the first of all entries is the first of the heap, rather than the last of those that are sorted.
fn is_on_heap(sorted: &[Entry], heap: &[Entry], arc: &[Position]) -> bool
    requires sorted { IsSorted (queue_cmp arc.now) sorted.now }
    requires order { IsHeap (queue_cmp arc.now) heap.now }
    ensures on_heap { result ≡ true → GoesFirst arc.now heap.now sorted.now }
    ensures sorted { result ≡ false → GoesFirst arc.now sorted.now heap.now }
{
    let n = sorted.len();
    if n == 0 {
        return true;
    }
    if heap.is_empty() {
        return false;
    }
    is_ahead(arc, &heap[0], &sorted[n - 1])
}

/// Takes out the first of all entries.
fn pop_first(sorted: &mut Vec<Entry>, heap: &mut Vec<Entry>, arc: &[Position]) -> Option<Entry>
    requires sorted { IsSorted (queue_cmp arc.now) sorted.old.items }
    requires order { IsHeap (queue_cmp arc.now) heap.old.items }
    ensures sorted { IsSorted (queue_cmp arc.now) sorted.new.items }
    ensures order { IsHeap (queue_cmp arc.now) heap.new.items }
    ensures permutation { IfSome result (λ e. IsPermutation (sorted.old.items ++ heap.old.items) (e ∷ (sorted.new.items ++ heap.new.items))) }
    ensures first { IfSome result (λ e. IsUpperBound (queue_cmp arc.now) e (sorted.old.items ++ heap.old.items)) }
    ensures none { IfNone result (sorted.old.items ++ heap.old.items ≡ []) }
    ensures empty { IfNone result (sorted.new.items ++ heap.new.items ≡ []) }
    ensures fewer { IfSome result (λ e. vec_len sorted.new + vec_len heap.new < vec_len sorted.old + vec_len heap.old) }
{
    if is_on_heap(sorted, heap, arc) {
        return heap::pop(heap, arc);
    }
    sorted.pop()
}

/// Drops the last entry of those that are sorted, if it is stale. It is the next one, mostly: to look at its link so early has the link
/// fetched from memory while another corner is removed.
#[tactic(auto, using(crate::proofs::HeapLaws::alone_stale, crate::proofs::HeapLaws::none_in))]
fn drop_stale(sorted: &mut Vec<Entry>, links: &[Link])
    ensures dropped { DropsStale links.now sorted.old.items sorted.new.items }
    ensures fewer { vec_len sorted.new ≤ vec_len sorted.old }
{
    let Some(last) = sorted.pop() else {
        return;
    };
    if !is_current(links, &last) {
        return;
    }
    sorted.push_reserved(last);
}

/// The first entry that is current, without the stale ones before it.
pub fn pop_current(
    sorted: &mut Vec<Entry>,
    heap: &mut Vec<Entry>,
    arc: &[Position],
    links: &[Link],
) -> Option<Entry>
    requires sorted { IsSorted (queue_cmp arc.now) sorted.old.items }
    requires order { IsHeap (queue_cmp arc.now) heap.old.items }
    ensures sorted { IsSorted (queue_cmp arc.now) sorted.new.items }
    ensures order { IsHeap (queue_cmp arc.now) heap.new.items }
    ensures current { IfSome result (λ e. IsCurrent links.now e) }
    ensures empty { IfNone result (sorted.new.items ++ heap.new.items ≡ []) }
    ensures fewer { IfSome result (λ e. vec_len sorted.new + vec_len heap.new < vec_len sorted.old + vec_len heap.old) }
    ensures left { LeavesCurrent arc.now links.now (sorted.old.items ++ heap.old.items) result (sorted.new.items ++ heap.new.items) }
{
    while let Some(entry) = pop_first(sorted, heap, arc) {
        if is_current(links, &entry) {
            drop_stale(sorted, links);
            return Some(entry);
        }
    }
    None
}

/// Whether the corner of a neighbour goes before the one at an index. Of the corner at `later` it is known that it doesn't.
fn neighbour_goes_before(
    arc: &[Position],
    links: &[Link],
    neighbour: u32,
    index: u32,
    later: u32,
) -> bool
    requires size { length links.now ≡ length arc.now }
    requires neighbour { neighbour < length links.now }
    requires index { index < length links.now }
    ensures { result ≡ true → is_before (cached arc.now links.now neighbour) (cached arc.now links.now index) ≡ true }
{
    if neighbour == later {
        return false;
    }
    goes_before(arc, links, neighbour, index)
}

/// The entry of an index, if it is between the ends and its corner is due: it is under the threshold, and those of its neighbours
/// don't go before it. Of the corner at `later` that is known.
#[tactic(auto, using(crate::proofs::LinkLaws::entry_cached))]
fn queued_entry(arc: &[Position], links: &[Link], t: u128, index: u32, later: u32) -> Option<Entry>
    requires size { length links.now ≡ length arc.now }
    requires ready { IsReady arc.now links.now index }
    ensures under { IfSome result (λ e. IsUnder t arc.now links.now index e) }
    ensures none { IfNone result (IsDue t arc.now links.now index → ⊥) }
{
    if index == 0 {
        return None;
    }
    if links.len() - index as usize <= 1 {
        return None;
    }
    let area = area_of(links, index as usize);
    if area >= t {
        return None;
    }
    let before = before_of(links, index as usize);
    if neighbour_goes_before(arc, links, before, index, later) {
        return None;
    }
    let after = after_of(links, index as usize);
    if neighbour_goes_before(arc, links, after, index, later) {
        return None;
    }
    Some(entry_of(links, index))
}

/// Puts the corner at an index after the others, if it is due.
pub fn put_corner(
    entries: &mut Vec<Entry>,
    steps: &mut Steps,
    arc: &[Position],
    links: &[Link],
    t: u128,
    index: u32,
) -> Result<(), Memory>
    requires size { length links.now ≡ length arc.now }
    requires ready { IsReady arc.now links.now index }
    ensures pushed { OnOk result (Pushed t arc.now links.now entries.old.items entries.new.items index) }
    ensures counted { RoseBy 0 1 steps.old steps.new }
{
    if let Some(entry) = queued_entry(arc, links, t, index, index) {
        steps.count_push();
        entries.push(entry)?;
    }
    Ok(())
}

/// Pushes the corner at an index on the heap, if it is due. That of a neighbour at `later` is known not to go before it.
#[tactic(auto, using(crate::proofs::HeapLaws::pushed))]
fn push_corner(
    heap: &mut Vec<Entry>,
    steps: &mut Steps,
    arc: &[Position],
    links: &[Link],
    t: u128,
    index: u32,
    later: u32,
) -> Result<(), Memory>
    requires size { length links.now ≡ length arc.now }
    requires ready { IsReady arc.now links.now index }
    requires order { IsHeap (queue_cmp arc.now) heap.old.items }
    ensures order { OnOk result (IsHeap (queue_cmp arc.now) heap.new.items) }
    ensures pushed { OnOk result (Pushed t arc.now links.now heap.old.items heap.new.items index) }
    ensures counted { RoseBy 0 1 steps.old steps.new }
{
    if let Some(entry) = queued_entry(arc, links, t, index, later) {
        steps.count_push();
        heap::push(heap, arc, entry)?;
    }
    Ok(())
}

/// Whether neither of two corners is under the threshold.
fn are_over(links: &[Link], t: u128, index: u32, other: u32) -> bool
    requires index { index < length links.now }
    requires other { other < length links.now }
    ensures { result ≡ true → (t ≤ area_in links.now index) × (t ≤ area_in links.now other) }
{
    if area_of(links, index as usize) < t {
        return false;
    }
    area_of(links, other as usize) >= t
}

/// Pushes the one of two neighbours that goes first, if it is due. The outer one is left out if its entry was queued before.
#[tactic(auto, using(crate::proofs::HeapLaws::inner_pushed, crate::proofs::HeapLaws::none_due, crate::proofs::HeapLaws::outer_pushed))]
pub fn push_first(
    heap: &mut Vec<Entry>,
    steps: &mut Steps,
    arc: &[Position],
    links: &[Link],
    t: u128,
    inner: u32,
    outer: u32,
    is_known: bool,
) -> Result<(), Memory>
    requires size { length links.now ≡ length arc.now }
    requires inner { IsReady arc.now links.now inner }
    requires outer { IsReady arc.now links.now outer }
    requires order { IsHeap (queue_cmp arc.now) heap.old.items }
    ensures order { OnOk result (IsHeap (queue_cmp arc.now) heap.new.items) }
    ensures pushed { OnOk result (PushedFirst t arc.now links.now heap.old.items heap.new.items inner outer is_known) }
    ensures counted { RoseBy 0 1 steps.old steps.new }
{
    if are_over(links, t, inner, outer) {
        return Ok(());
    }
    if !goes_before(arc, links, outer, inner) {
        return push_corner(heap, steps, arc, links, t, inner, outer);
    }
    if is_known {
        return Ok(());
    }
    push_corner(heap, steps, arc, links, t, outer, inner)
}

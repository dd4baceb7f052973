ghost use Rattle.std.specs.Prelude.{◌≡◌, ℕ, ◌+◌, ◌*◌, ◌<◌, ◌++◌, min, IfOk, OnOk, List, length};
ghost use Rattle.std.specs.BinaryHeap.{IsHeap};
ghost use Rattle.std.specs.List.Sorted.{IsSorted};
ghost use Rattle.effective_area.specs.Counts.{RoseAtMost};
ghost use Rattle.effective_area.specs.Links.{IsState, RemovesFirst, after_in, before_in, queue_cmp};

use crate::caching::{goes_after, note_area};
use crate::entry::Entry;
use crate::links::{Link, after_of, before_of, unlink};
use crate::queue::{pop_current, push_first};
use crate::steps::Steps;
use geometry::Position;
use owned_values::Memory;

/// The one before an index, or the index itself if it is the first.
fn ahead(links: &[Link], index: u32) -> u32
    requires { index < length links.now }
    ensures first { (index ≡ 0) → result ≡ index }
    ensures inside { 0 < index → result ≡ before_in links.now index }
{
    if index == 0 {
        return index;
    }
    before_of(links, index as usize)
}

/// The one after an index, or the index itself if it is the last.
fn following(links: &[Link], index: u32) -> u32
    requires { index < length links.now }
    ensures last { (index + 1 ≡ length links.now) → result ≡ index }
    ensures inside { index + 1 < length links.now → result ≡ after_in links.now index }
{
    if links.len() - index as usize <= 1 {
        return index;
    }
    after_of(links, index as usize)
}

/// Takes out the first corner of all, if one is under the threshold, and answers it.
pub fn take_first(
    sorted: &mut Vec<Entry>,
    heap: &mut Vec<Entry>,
    steps: &mut Steps,
    arc: &[Position],
    links: &mut [Link],
    t: u128,
) -> Result<Option<Entry>, Memory>
    requires sorted { IsSorted (queue_cmp arc.now) sorted.old.items }
    requires order { IsHeap (queue_cmp arc.now) heap.old.items }
    requires state { (left : ℕ) × (vs : List ℕ) × IsState t arc.now links.old (sorted.old.items ++ heap.old.items) left vs }
    ensures sorted { OnOk result (IsSorted (queue_cmp arc.now) sorted.new.items) }
    ensures order { OnOk result (IsHeap (queue_cmp arc.now) heap.new.items) }
    // What is removed is the first corner of those that are present, and what was known of them is known of the others.
    ensures taken { IfOk result (λ taken. (left : ℕ) (vs : List ℕ) → IsState t arc.now links.old (sorted.old.items ++ heap.old.items) left vs
        → RemovesFirst t arc.now links.new (sorted.new.items ++ heap.new.items) left vs taken) }
    // Where there was one to remove, two corners are computed again, and else none.
    ensures counted { (left : ℕ) (vs : List ℕ) → IsState t arc.now links.old (sorted.old.items ++ heap.old.items) left vs → RoseAtMost (2 * min left 1) steps.old steps.new }
{
    let Some(entry) = pop_current(sorted, heap, arc, links) else {
        return Ok(None);
    };
    let (before, after) = (entry.before, entry.after);
    let first = ahead(links, before);
    let last = following(links, after);
    let is_first_known = goes_after(arc, links, t, before, first);
    let is_last_known = goes_after(arc, links, t, after, last);
    unlink(links, before, entry.index, after);
    note_area(links, steps, arc, before);
    note_area(links, steps, arc, after);
    push_first(heap, steps, arc, links, t, before, first, is_first_known)?;
    push_first(heap, steps, arc, links, t, after, last, is_last_known)?;
    Ok(Some(entry))
}

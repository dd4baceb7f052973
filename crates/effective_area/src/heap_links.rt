ghost use Rattle.std.specs.Prelude.{◌≡◌, ℕ, ◌+◌, ◌-◌, ◌*◌, ◌<◌, ◌≤◌, ◌++◌, [], true, IfOk, OnOk, List, ◌∷◌, length, vec_capacity};
ghost use Rattle.std.specs.BinaryHeap.{IsHeap};
ghost use Rattle.std.specs.List.{range_with_len};
ghost use Rattle.std.specs.List.Sorted.{IsSorted};
ghost use Rattle.effective_area.specs.Calls.{call_at};
ghost use Rattle.effective_area.specs.Counts.{AreasRose, RoseAtMost, RoseBy, nothing_counted};
ghost use Rattle.effective_area.specs.Links.{AreCached, HasCorners, IsFirst, IsLinked, IsState, queue_cmp};
ghost use Rattle.elimination_meaning.specs.Elimination.{reduce};

use crate::caching::cached_links;
use crate::call_log::CallLog;
use crate::entry::{Entry, compared};
use crate::indexes::all_indexes;
use crate::links::{Link, present, short};
use crate::queue::put_corner;
use crate::reducer::Reducer;
use crate::rescan::rescanned;
use crate::steps::Steps;
use crate::taking::take_first;
use geometry::Position;
use owned_values::Memory;
use std::alloc::Global;
use std::cmp::Ordering;
use std::marker::Model;

/// The greatest room, in entries, of the lists that are kept for the next line: 32 KiB at most. What a long line took is given back,
/// and short ones allocate nothing but their answers.
const KEPT_ROOM: usize = 1024;

/// The most positions of a line whose corners are all looked through for each that goes, which takes less time than links and a queue of so few.
/// Up to it three areas for each position between the ends are enough.
const MOST_RESCANNED: usize = 7;

/// Fills the list with the corners of a whole line that are due.
#[tactic(auto, using(crate::proofs::Counts::by_then, crate::proofs::Counts::by_more, crate::proofs::Turns::first_ready, crate::proofs::Turns::more_corners))]
fn first_entries(
    entries: &mut Vec<Entry>,
    steps: &mut Steps,
    arc: &[Position],
    links: &[Link],
    t: u128,
) -> Result<(), Memory>
    requires two { 2 ≤ length arc.now }
    requires first { IsFirst links.now (length arc.now) }
    requires cached { AreCached t arc.now links.now }
    ensures has { OnOk result (HasCorners t arc.now links.now entries.new.items (length arc.now - 1)) }
    ensures counted { RoseBy 0 (length arc.now - 2) steps.old steps.new }
{
    entries.clear();
    let last = short(arc.len() - 1)?;
    for i in 1..last {
        put_corner(entries, steps, arc, links, t, i)?;
    }
    Ok(())
}

/// Fills the list with the corners of a whole line that are due, in their order. They are sorted once, which takes less time than a
/// heap of them all; those that come later are put on a heap.
pub fn sorted_entries(
    entries: &mut Vec<Entry>,
    steps: &mut Steps,
    arc: &[Position],
    links: &[Link],
    t: u128,
) -> Result<(), Memory>
    requires two { 2 ≤ length arc.now }
    requires first { IsFirst links.now (length arc.now) }
    requires cached { AreCached t arc.now links.now }
    ensures sorted { OnOk result (IsSorted (queue_cmp arc.now) entries.new.items) }
    ensures state { OnOk result (IsState t arc.now links.now entries.new.items (length arc.now - 2) (range_with_len 1 (length arc.now - 1))) }
    ensures counted { RoseBy 0 (length arc.now - 2) steps.old steps.new }
{
    first_entries(entries, steps, arc, links, t)?;
    entries.sort_unstable_by(
        |entry: &Entry, other: &Entry| -> Ordering
            ensures { result ≡ queue_cmp arc.entry.now entry.now other.now }
        { compared(arc, other, entry) },
    );
    Ok(())
}

/// Takes out corners under the threshold, the first of all each time, and answers how many positions stay.
fn eliminate(
    sorted: &mut Vec<Entry>,
    heap: &mut Vec<Entry>,
    steps: &mut Steps,
    arc: &[Position],
    links: &mut [Link],
    t: u128,
) -> Result<usize, Memory>
    requires two { 2 ≤ length arc.now }
    requires sorted { IsSorted (queue_cmp arc.now) sorted.old.items }
    requires order { IsHeap (queue_cmp arc.now) heap.old.items }
    requires state { (vs : List ℕ) × IsState t arc.now links.old (sorted.old.items ++ heap.old.items) (length arc.now - 2) vs }
    ensures kept { OnOk result ((vs : List ℕ) × IsLinked links.new vs × (0 ∷ vs ≡ reduce t arc.now)) }
    ensures many { IfOk result (λ many. many ≡ length (reduce t arc.now)) }
    ensures counted { RoseAtMost (2 * (length arc.now - 2)) steps.old steps.new }
{
    let mut left = arc.len() - 2;
    'corners: while let Some(_entry) = take_first(sorted, heap, steps, arc, links, t)? {
        left -= 1;
    }
    Ok(left + 2)
}

/// The indexes that stay, over links from each index to the next.
#[tactic(auto, using(crate::proofs::Queues::queue_total, crate::proofs::Turns::same_present, crate::proofs::Turns::ok_also))]
fn kept_by(
    alloc: Global,
    sorted: &mut Vec<Entry>,
    heap: &mut Vec<Entry>,
    steps: &mut Steps,
    arc: &[Position],
    links: &mut [Link],
    t: u128,
) -> Result<Vec<usize>, Memory>
    requires two { 2 ≤ length arc.now }
    requires first { IsFirst links.old (length arc.now) }
    requires cached { AreCached t arc.now links.old }
    ensures kept { IfOk result (λ kept. kept.items ≡ reduce t arc.now) }
    ensures counted { RoseBy (2 * (length arc.now - 2)) (3 * (length arc.now - 2)) steps.old steps.new }
{
    sorted_entries(sorted, steps, arc, links, t)?;
    heap.clear();
    let many = eliminate(sorted, heap, steps, arc, links, t)?;
    present(alloc, links, many)
}

/// What a line is reduced in: its links, and its corners that are queued, in their order or on a heap. What stands in these lists when a line
/// begins is dropped, so of the last line only their memory is used again.
#[derive(Debug, Drop)]
struct Buffers {
    links: Vec<Link>,
    sorted: Vec<Entry>,
    heap: Vec<Entry>,
}

impl Buffers {
    /// Empty lists, which take no memory.
    fn new(alloc: Global) -> Buffers {
        Buffers {
            links: Vec::new(alloc),
            sorted: Vec::new(alloc),
            heap: Vec::new(alloc),
        }
    }

    /// Whether none of the lists has more room than is kept.
    fn are_small(&self) -> bool
        ensures links { result ≡ true → vec_capacity self.now.links ≤ KEPT_ROOM }
        ensures sorted { result ≡ true → vec_capacity self.now.sorted ≤ KEPT_ROOM }
        ensures heap { result ≡ true → vec_capacity self.now.heap ≤ KEPT_ROOM }
    {
        self.links.capacity() <= KEPT_ROOM
            && self.sorted.capacity() <= KEPT_ROOM
            && self.heap.capacity() <= KEPT_ROOM
    }

    /// The indexes that stay of a line, whatever stands in the lists. They may hold part of this line where memory runs out.
    fn kept(
        &mut self,
        alloc: Global,
        steps: &mut Steps,
        arc: &[Position],
        t: u128,
    ) -> Result<Vec<usize>, Memory>
        requires { 2 ≤ length arc.now }
        ensures kept { IfOk result (λ kept. kept.items ≡ reduce t arc.now) }
        ensures counted { RoseAtMost (3 * (length arc.now - 2)) steps.old steps.new }
        ensures computed { IfOk result (λ _. AreasRose (length arc.now - 2) steps.old steps.new) }
    {
        cached_links(&mut self.links, steps, arc, t)?;
        kept_by(
            alloc,
            &mut self.sorted,
            &mut self.heap,
            steps,
            arc,
            &mut self.links,
            t,
        )
    }
}

/// A reducer that takes time n log n: of the corners under the threshold those that are due are queued in their order, stale ones among
/// them, which go before their neighbours, and the positions that are present are linked both ways. A call raises each count of its steps
/// by three for each position between the ends at most, and at a threshold over zero that of the areas by one or more. The corners of a line
/// of at most seven positions are all looked through instead, for each position that goes. Contracts see it as its calls and the steps that it
/// did so far: nothing else is left of a call, whether it answered or not. What it reduces in is used again by the next call, unless it became
/// large: then its memory is given back.
#[derive(Debug, Drop)]
pub struct HeapLinks {
    calls: CallLog,
    steps: Steps,
    buffers: Option<Buffers>,
}

impl Model for HeapLinks {
    ghost use Rattle.effective_area.specs.Counts.{Counted};

    ghost Value = { Counted };

    ghost view = { λ r. record { calls = r.calls.calls; steps = r.steps } };
}

impl HeapLinks {
    /// A reducer that did nothing yet.
    pub fn new() -> HeapLinks
        ensures { result ≡ nothing_counted }
    {
        HeapLinks {
            calls: CallLog::none(),
            steps: Steps::none(),
            buffers: None,
        }
    }

    /// What it did so far.
    pub fn steps(&self) -> Steps
        ensures { result ≡ self.now.steps }
    {
        self.steps
    }
}

impl Reducer for HeapLinks {
    ghost calls = { λ r. r.calls };

    #[tactic(auto, using(crate::proofs::Counts::by_most, crate::proofs::Counts::few_areas, crate::proofs::Turns::all_at_zero))]
    fn kept(&mut self, alloc: Global, arc: &[Position], t: u128) -> Result<Vec<usize>, Memory>
        requires { 2 ≤ length arc.now }
        ensures kept { IfOk result (λ kept. kept.items ≡ reduce t arc.now) }
        ensures called { self.new.calls ≡ self.old.calls ++ call_at t arc.now ∷ [] }
        ensures counted { RoseAtMost (3 * (length arc.now - 2)) self.old.steps self.new.steps }
        // At a threshold over zero the area at each position between the ends is computed.
        ensures computed { 0 < t → IfOk result (λ _. AreasRose (length arc.now - 2) self.old.steps self.new.steps) }
    {
        self.calls = self.calls.and(arc, t);
        if t == 0 {
            return all_indexes(alloc, arc.len());
        }
        if arc.len() <= MOST_RESCANNED {
            return rescanned(alloc, &mut self.steps, arc, t);
        }
        let buffers = self.buffers.get_or_insert_with(|| Buffers::new(alloc));
        let kept = buffers.kept(alloc, &mut self.steps, arc, t);
        if !buffers.are_small() {
            self.buffers = None;
        }
        kept
    }
}

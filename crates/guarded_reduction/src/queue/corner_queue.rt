// The corners that are queued.
ghost use Rattle.std.specs.Prelude.{◌≡◌, ◌<◌, ◌++◌, List, [], ◌∷◌, true, false, IfSome, IfNone, OnOk, length};
ghost use Rattle.std.specs.BinaryHeap.{heap_items, IsHeap, IsUpperBound};
ghost use Rattle.std.specs.List.Sorted.{IsPermutation, IsSorted};
ghost use Rattle.std.specs.declared.cmp.Reverse.{Reverse};
ghost use Rattle.guarded_reduction.specs.declared.queue.entry.Entry.{Entry};
ghost use Rattle.guarded_reduction.specs.Entries.{turned_cmp};
ghost use Rattle.guarded_reduction.specs.Queues.{GoesFirst};

use crate::queue::entry::Entry;
use owned_values::Memory;
use std::alloc::Global;
use std::cmp::Reverse;
use std::collections::BinaryHeap;
use std::marker::Model;
use std::mem;

/// Whether the first of all corners is the first of the heap, rather than the last of those that are sorted.
fn is_on_heap(sorted: &[Reverse<Entry>], heap: &BinaryHeap<Reverse<Entry>>) -> bool
    requires sorted { IsSorted turned_cmp sorted.now }
    requires order { IsHeap turned_cmp (heap_items heap.now) }
    ensures on_heap { result ≡ true → GoesFirst (heap_items heap.now) sorted.now }
    ensures sorted { result ≡ false → GoesFirst sorted.now (heap_items heap.now) }
{
    let Some(top) = heap.peek() else {
        return false;
    };
    let Some(last) = sorted.last() else {
        return true;
    };
    last.cmp(top).is_lt()
}

/// So many corners are looked ahead at, all at once.
const AHEAD: usize = 16;

/// Corners that are to be looked at. Those that are known when a round begins are sorted once, which takes less time than a heap of them all; those
/// that come later are put on a heap. Contracts see all of them, in no order.
#[derive(Drop)]
pub struct CornerQueue {
    sorted: Vec<Reverse<Entry>>,
    heap: BinaryHeap<Reverse<Entry>>,
}

impl Model for CornerQueue {
    ghost Value = { List (Reverse Entry) };

    ghost view = { λ q. q.sorted.items ++ heap_items q.heap };

    ghost invariant = { λ q. IsSorted turned_cmp q.sorted.items × IsHeap turned_cmp (heap_items q.heap) };
}

impl CornerQueue {
    /// No corners, which take no memory.
    pub fn new(alloc: Global) -> CornerQueue
        ensures { result ≡ [] }
    {
        CornerQueue {
            sorted: Vec::new(alloc),
            heap: BinaryHeap::new(alloc),
        }
    }

    /// An empty list in the memory of the corners that were sorted. No corners are left.
    pub fn emptied(&mut self, alloc: Global) -> Vec<Reverse<Entry>>
        ensures none { result.items ≡ [] }
        ensures emptied { self.new ≡ [] }
    {
        self.heap.clear();
        let mut corners = mem::replace(&mut self.sorted, Vec::new(alloc));
        corners.clear();
        corners
    }

    /// These corners alone, in whatever order they come.
    pub fn fill(&mut self, mut corners: Vec<Reverse<Entry>>)
        ensures { IsPermutation corners.items self.new }
    {
        corners.sort_unstable();
        self.heap.clear();
        self.sorted = corners;
    }

    /// Those that were sorted and come next, once for so many of them that were taken out; else none.
    pub fn coming(&self) -> &[Reverse<Entry>] {
        let many = self.sorted.len();
        let from = if many % AHEAD == 0 {
            many.saturating_sub(AHEAD)
        } else {
            many
        };
        self.sorted.split_at(from).1
    }

    /// Puts one more corner among the others.
    #[tactic(auto, using(crate::proofs::Queues::on_heap))]
    pub fn push(&mut self, corner: Reverse<Entry>) -> Result<(), Memory>
        ensures { OnOk result (IsPermutation (corner ∷ self.old) self.new) }
    {
        self.heap.push(corner)?;
        Ok(())
    }

    /// Takes out the corner that goes first.
    #[tactic(auto, using(crate::proofs::Queues::first_of_sorted, crate::proofs::Queues::first_on_heap, crate::proofs::Queues::off_heap, crate::proofs::Queues::off_sorted))]
    pub fn pop(&mut self) -> Option<Reverse<Entry>>
        ensures permutation { IfSome result (λ e. IsPermutation self.old (e ∷ self.new)) }
        ensures first { IfSome result (λ e. IsUpperBound turned_cmp e self.old) }
        ensures fewer { IfSome result (λ _. length self.new < length self.old) }
        ensures empty { IfNone result (self.old ≡ []) }
    {
        if is_on_heap(&self.sorted, &self.heap) {
            return self.heap.pop();
        }
        self.sorted.pop()
    }
}

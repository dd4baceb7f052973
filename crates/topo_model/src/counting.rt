// Lines and rings that are left with too few positions where they are rebuilt of their arcs. The positions of each arc are counted once.
ghost use Rattle.std.specs.Prelude.{◌≡◌, ◌-◌, ◌≤◌, ◌<◌, ◌∷◌, [], IfOk, drop, get_or, if◌then◌else◌, length, map};
ghost use Rattle.geometry.specs.Joins.{arc_at, stitched};
ghost use Rattle.topo_model.specs.Passing.{counted, directed, new_after, unpassed, Passes};
ghost use Rattle.junctions.specs.Cleaning.{clean, is_short};

use json_value::Items;
use owned_values::Memory;
use std::alloc::Global;
use std::marker::Model;
use topojson_types::{ArcRef, Cell};

/// No more positions of an arc are counted. A ring needs four, and two may not count: the first of the arc, and the next.
const MOST_COUNTED: u8 = 6;

/// Where the position with this number stands among so many, in one direction or the other.
pub fn index_in(many: usize, reversed: bool, k: usize) -> usize
    requires { k < many }
    ensures index { result ≡ (if reversed then many - 1 - k else k) }
    ensures within { result < many }
{
    if reversed { many - 1 - k } else { k }
}

/// The position with this number of an arc in one direction or the other.
fn cell_at(arc: &[Cell], reversed: bool, k: usize) -> Cell
    requires { k < length arc.now }
    ensures { result ≡ get_or (directed reversed arc.now) k result }
{
    let i = index_in(arc.len(), reversed, k);
    arc[i]
}

/// How many positions one is more after the last one, which is none where they are equal.
fn new_after(last: Option<Cell>, cell: Cell) -> u8
    ensures count { result ≡ new_after last (cell ∷ []) }
    ensures most { result ≤ 1 }
{
    let Some(other) = last else {
        return 1;
    };
    if other == cell {
        return 0;
    }
    1
}

/// How many positions of an arc are left with equal neighbours as one, as far as they are counted. No more are looked at than that takes.
fn count_of(arc: &[Cell]) -> u8
    ensures { result ≡ counted arc.now }
{
    let mut count: u8 = 0;
    let mut last: Option<Cell> = None;
    'cells: for cell in arc {
        if count == MOST_COUNTED {
            return count;
        }
        count += new_after(last, *cell);
        last = Some(*cell);
    }
    count
}

/// How many of each arc are.
pub fn counts_of(alloc: Global, arcs: &[Items<Cell>]) -> Result<Vec<u8>, Memory>
    ensures { IfOk result (λ counts. counts.items ≡ map counted arcs.now) }
{
    let mut counts = Vec::with_capacity(alloc, arcs.len())?;
    'arcs: for arc in arcs {
        counts.push(count_of(arc.as_slice()))?;
    }
    Ok(counts)
}

/// Whether an open line that is rebuilt of the arcs with these indexes, with equal neighbours as one position, is left with fewer
/// than two positions, or a ring with fewer than four, where so many of each arc are. That takes a step for each arc index, however
/// long the arcs are.
pub fn is_short_rebuilt(closed: bool, refs: &[ArcRef], arcs: &[Items<Cell>], counts: &[u8]) -> bool
    requires { counts.now ≡ map counted arcs.now }
    ensures { result ≡ is_short closed (clean (stitched (map (arc_at arcs.now) refs.now))) }
{
    let Some((first, later)) = refs.split_first() else {
        return true;
    };
    let mut need = Need::of(closed);
    need.pass_ref(*first, arcs, counts, 0);
    'later: for index in later {
        if need.missing == 0 {
            return false;
        }
        need.pass_ref(*index, arcs, counts, 1);
    }
    need.missing > 0
}

// The last position that was passed, and how many are still missing, with equal neighbours as one.
#[derive(Drop)]
struct Need {
    last: Option<Cell>,
    missing: u8,
}

impl Model for Need {
    ghost use Rattle.std.specs.Prelude.{◌≤◌};
    ghost use Rattle.topo_model.specs.Passing.{Need as Passing};

    ghost Value = { Passing };

    ghost view = { λ n. record { last = n.last; missing = n.missing } };

    ghost invariant = { λ n. n.missing ≤ 4 };
}

impl Need {
    // Before any position of an open line or a ring is passed.
    fn of(closed: bool) -> Need
        ensures { result ≡ unpassed closed }
    {
        Need {
            last: None,
            missing: if closed { 4 } else { 2 },
        }
    }

    // Passes the positions of an arc in one direction or the other, from its first or second on, at once.
    fn pass_arc(&mut self, arc: &[Cell], count: u8, reversed: bool, from: usize)
        requires count { count ≡ counted arc.now }
        requires from { from ≤ 1 }
        ensures { Passes (drop from (directed reversed arc.now)) self.old self.new }
    {
        if arc.len() <= from {
            return;
        }
        let first = cell_at(arc, reversed, 0);
        let next = cell_at(arc, reversed, from);
        let end = cell_at(arc, reversed, arc.len() - 1);
        let here = new_after(self.last, next);
        let before = 1 + new_after(Some(first), next);
        let later = count - before;
        self.missing = self.missing.saturating_sub(here + later);
        self.last = Some(end);
    }

    // Passes those of the arc that an index names.
    fn pass_ref(&mut self, index: ArcRef, arcs: &[Items<Cell>], counts: &[u8], from: usize)
        requires counts { counts.now ≡ map counted arcs.now }
        requires from { from ≤ 1 }
        ensures { Passes (drop from (arc_at arcs.now index)) self.old self.new }
    {
        let number = index.index();
        if let Some(arc) = arcs.get(number) {
            self.pass_arc(arc.as_slice(), counts[number], index.reversed(), from);
        }
    }
}

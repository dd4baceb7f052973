// How much rings enclose that are rebuilt of their arcs, and whether they have too few positions.
ghost use Rattle.std.specs.Prelude.{◌≡◌, ◌+◌, ◌≤◌, ◌<◌, IfOk, drop, get_or, length, map, nat_lt, unsigned_abs};
ghost use Rattle.std.specs.List.{AllByRecursion};
ghost use Rattle.topo_model.specs.Passing.{directed, goes_on, is_sum, most_of_arc, Sums};
ghost use Rattle.geometry.specs.Areas.{shoelace, sum_limit, twice_ring_area};
ghost use Rattle.geometry.specs.Joins.{arc_at, stitched};
ghost use Rattle.geometry.specs.Points.{IsPosition};
ghost use Rattle.geometry.specs.Units.{threshold_limit};
ghost use Rattle.junctions.specs.Cleaning.{clean, is_short};

use crate::counting::{counts_of, index_in, is_short_rebuilt};
use geojson_types::Position;
use geometry::{RingSum, is_same};
use json_value::Items;
use owned_values::Memory;
use std::alloc::Global;
use std::marker::Model;
use topojson_types::{ArcRef, Cell};

/// The position with this number of an arc in one direction or the other.
fn position_at(arc: &[Cell], reversed: bool, k: usize) -> Position
    requires places { AllByRecursion IsPosition arc.now }
    requires within { k < length arc.now }
    ensures { result ≡ get_or (directed reversed arc.now) k result }
{
    let i = index_in(arc.len(), reversed, k);
    let cell = arc[i];
    Position::at(cell.x(), cell.y())
}

/// Passes the positions of an arc in one direction or the other, from this one on.
fn pass_arc(sum: &mut RingSum, arc: &[Cell], reversed: bool, from: usize)
    requires places { AllByRecursion IsPosition arc.now }
    requires sum { unsigned_abs sum.old.sum + most_of_arc ≤ sum_limit }
    ensures sums { Sums (drop from (directed reversed arc.now)) sum.old sum.new }
    ensures bound { unsigned_abs sum.new.sum ≤ unsigned_abs sum.old.sum + most_of_arc }
{
    'cells: for k in from..arc.len() {
        sum.pass(position_at(arc, reversed, k));
    }
}

/// What the positions of an arc add up to.
fn sum_of(arc: &[Cell]) -> RingSum
    requires { AllByRecursion IsPosition arc.now }
    ensures { is_sum arc.now result }
{
    let mut sum = RingSum::new();
    pass_arc(&mut sum, arc, false, 0);
    sum
}

/// Whether a line goes on where the ring is, which is without its first position, or begins the ring.
fn is_next(sum: &RingSum, first: Position, from: usize) -> bool
    ensures { result ≡ goes_on sum.now.last first from }
{
    match sum.last() {
        None => from == 0,
        Some(last) => from == 1 && is_same(last, first),
    }
}

/// The same as `pass_arc`, of an arc whose positions add up to this: at once, where it goes on where the ring is, or begins it.
fn pass_summed(sum: &mut RingSum, arc: &[Cell], line: &RingSum, reversed: bool, from: usize)
    requires places { AllByRecursion IsPosition arc.now }
    requires sum { unsigned_abs sum.old.sum + most_of_arc ≤ sum_limit }
    requires line { is_sum arc.now line.now }
    ensures sums { Sums (drop from (directed reversed arc.now)) sum.old sum.new }
    ensures bound { unsigned_abs sum.new.sum ≤ unsigned_abs sum.old.sum + most_of_arc }
{
    if arc.is_empty() {
        return;
    }
    if !is_next(sum, position_at(arc, reversed, 0), from) {
        pass_arc(sum, arc, reversed, from);
        return;
    }
    let end = position_at(arc, reversed, arc.len() - 1);
    sum.pass_line(line, reversed, end);
}

/// Arcs, with how many positions each is left with, and what these add up to, or of none. With that a ring takes a step for each of its arcs,
/// however long they are.
#[derive(Drop)]
pub struct SummedArcs<'a> {
    arcs: &'a [Items<Cell>],
    sums: Vec<RingSum>,
    counts: Vec<u8>,
}

impl<'a> Model for SummedArcs<'a> {
    ghost use Rattle.std.specs.Prelude.{◌≡◌, List, map};
    ghost use Rattle.std.specs.List.{AllByRecursion};
    ghost use Rattle.geometry.specs.Points.{IsPosition, Point};
    ghost use Rattle.topo_model.specs.Passing.{AreSums, counted};

    ghost Value = { List (List Point) };

    ghost view = { λ s. s.arcs.now };

    ghost invariant = { λ s. AllByRecursion (λ arc. AllByRecursion IsPosition arc) s.arcs.now × AreSums s.arcs.now s.sums.items × (s.counts.items ≡ map counted s.arcs.now) };
}

impl<'a> SummedArcs<'a> {
    /// These arcs, of which none is summed up.
    pub fn unsummed(alloc: Global, arcs: &'a [Items<Cell>]) -> Result<SummedArcs<'a>, Memory>
        requires { AllByRecursion (λ arc. AllByRecursion IsPosition arc) arcs.now }
        ensures { IfOk result (λ s. s ≡ arcs.now) }
    {
        let counts = counts_of(alloc, arcs)?;
        Ok(SummedArcs {
            arcs,
            sums: Vec::new(alloc),
            counts,
        })
    }

    /// These arcs, each of which is summed up.
    pub fn of(alloc: Global, arcs: &'a [Items<Cell>]) -> Result<SummedArcs<'a>, Memory>
        requires { AllByRecursion (λ arc. AllByRecursion IsPosition arc) arcs.now }
        ensures { IfOk result (λ s. s ≡ arcs.now) }
    {
        let mut sums = Vec::with_capacity(alloc, arcs.len())?;
        'arcs: for arc in arcs {
            sums.push(sum_of(arc.as_slice()))?;
        }
        let counts = counts_of(alloc, arcs)?;
        Ok(SummedArcs { arcs, sums, counts })
    }

    /// Whether an open line that is rebuilt of the arcs with these indexes, with equal neighbours as one position, is left with fewer
    /// than two positions, or a ring with fewer than four.
    pub fn is_short(&self, closed: bool, refs: &[ArcRef]) -> bool
        ensures { result ≡ is_short closed (clean (stitched (map (arc_at self.now) refs.now))) }
    {
        is_short_rebuilt(closed, refs, self.arcs, &self.counts)
    }

    /// Passes those of the arc that an index names.
    fn pass_ref(&self, sum: &mut RingSum, index: ArcRef, from: usize)
        requires { unsigned_abs sum.old.sum + most_of_arc ≤ sum_limit }
        ensures sums { Sums (drop from (arc_at self.now index)) sum.old sum.new }
        ensures bound { unsigned_abs sum.new.sum ≤ unsigned_abs sum.old.sum + most_of_arc }
    {
        let number = index.index();
        let Some(arc) = self.arcs.get(number) else {
            return;
        };
        match self.sums.get(number) {
            Some(line) => pass_summed(sum, arc.as_slice(), line, index.reversed(), from),
            None => pass_arc(sum, arc.as_slice(), index.reversed(), from),
        }
    }

    /// What the positions of a ring that is rebuilt of the arcs with these indexes add up to.
    pub fn ring_sum(&self, refs: &[ArcRef]) -> RingSum
        ensures { result.sum ≡ shoelace (stitched (map (arc_at self.now) refs.now)) }
    {
        let mut sum = RingSum::new();
        let Some((first, later)) = refs.split_first() else {
            return sum;
        };
        self.pass_ref(&mut sum, *first, 0);
        'later: for index in later {
            self.pass_ref(&mut sum, *index, 1);
        }
        sum
    }

    /// Whether twice the area of a ring that is rebuilt of the arcs with these indexes is under the limit. Nothing is under zero, so then
    /// no position is looked at.
    pub fn is_ring_under(&self, refs: &[ArcRef], limit: u128) -> bool
        requires { limit ≤ threshold_limit }
        ensures { result ≡ nat_lt (twice_ring_area (stitched (map (arc_at self.now) refs.now))) limit }
    {
        if limit == 0 {
            return false;
        }
        let sum = self.ring_sum(refs);
        sum.is_under(limit)
    }
}

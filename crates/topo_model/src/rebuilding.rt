// Lines and rings that are left with too few positions where they are rebuilt of their arcs, and rings that enclose too little.
ghost use Rattle.std.specs.Prelude.{◌≡◌, ◌≤◌, IfOk, map};
ghost use Rattle.std.specs.List.{AllByRecursion};
ghost use Rattle.build_meaning.specs.Expected.{is_small};
ghost use Rattle.geometry.specs.Joins.{arc_at, stitched};
ghost use Rattle.geometry.specs.Points.{IsPosition};
ghost use Rattle.geometry.specs.Units.{threshold_limit};
ghost use Rattle.topo_model.specs.Drops.{draft_cause};

use crate::enclosing::SummedArcs;
use geojson_types::Cause;
use json_value::Items;
use owned_values::Memory;
use std::alloc::Global;
use std::marker::Model;
use topojson_types::{ArcRef, Cell};

/// The arcs that lines and rings are rebuilt of, and how little a ring may enclose.
#[derive(Drop)]
pub struct Rebuilding<'a> {
    arcs: SummedArcs<'a>,
    ring_limit: u128,
}

impl<'a> Model for Rebuilding<'a> {
    ghost use Rattle.std.specs.Prelude.{◌≤◌};
    ghost use Rattle.topo_model.specs.Rebuilding.{Rebuilding as OfArcs};
    ghost use Rattle.geometry.specs.Units.{threshold_limit};

    ghost Value = { OfArcs };

    ghost view = { λ r. record { arcs = r.arcs; limit = r.ring_limit } };

    ghost invariant = { λ r. r.ring_limit ≤ threshold_limit };
}

impl<'a> Rebuilding<'a> {
    /// Of these arcs, where twice the area of a ring may not be under the limit, in square units. Under zero is none, so then no arc is summed up.
    pub fn of(
        alloc: Global,
        arcs: &'a [Items<Cell>],
        ring_limit: u128,
    ) -> Result<Rebuilding<'a>, Memory>
        requires places { AllByRecursion (λ arc. AllByRecursion IsPosition arc) arcs.now }
        requires limit { ring_limit ≤ threshold_limit }
        ensures { IfOk result (λ r. r ≡ record { arcs = arcs.now; limit = ring_limit }) }
    {
        let arcs = if ring_limit == 0 {
            SummedArcs::unsummed(alloc, arcs)?
        } else {
            SummedArcs::of(alloc, arcs)?
        };
        Ok(Rebuilding { arcs, ring_limit })
    }

    /// Whether an open line of the arcs with these indexes, with equal neighbours as one position, is left with fewer than two
    /// positions, or a ring with fewer than four, or a ring encloses too little.
    pub fn is_small(&self, closed: bool, refs: &[ArcRef]) -> bool
        ensures { result ≡ is_small self.now.limit closed (stitched (map (arc_at self.now.arcs) refs.now)) }
    {
        if self.arcs.is_short(closed, refs) {
            return true;
        }
        closed && self.arcs.is_ring_under(refs, self.ring_limit)
    }

    /// Why a line or ring is dropped for its own sake, if it is: it has no arc index, or else it is small.
    pub fn cause(&self, closed: bool, refs: &[ArcRef]) -> Option<Cause>
        ensures { result ≡ draft_cause self.now closed refs.now }
    {
        if refs.is_empty() {
            Some(Cause::Collapsed)
        } else if self.is_small(closed, refs) {
            Some(Cause::Small)
        } else {
            None
        }
    }
}

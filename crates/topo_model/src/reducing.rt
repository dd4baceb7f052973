// The topology that is left where of each arc only the cells stay whose numbers are given.
ghost use Rattle.std.specs.Prelude.{◌≡◌, ◌≤◌, IfOk, map};
ghost use Rattle.byte_ends.specs.Ends.{saturated};
ghost use Rattle.geometry.specs.Units.{threshold_limit};
ghost use Rattle.build_meaning.specs.Simplified.{EachFromFirstToLast, dropped_by, simplified_by, removed_count_by};
ghost use Rattle.topojson_types.specs.Topologies.{Contents};

use crate::given_numbers::cells_of_all;
use crate::left::Retained;
use crate::position_counting::position_counts;
use crate::reassembling::reassemble;
use geojson_types::Dropped;
use owned_values::Memory;
use std::alloc::Global;
use topojson_types::Topology;

/// What can be simplified as a topology can: of each of its arcs only given cells stay.
pub trait Reduces: Sized {
    /// The topology that it is.
    ghost contents: { Self → Contents };

    /// What is left of it, with of each arc only the cells with the numbers of its own list, which begin with the first and end
    /// with the last, without rings that enclose less than half the limit; the lines and rings that are dropped; and how many positions are
    /// removed from the arcs that stay.
    fn reduce(
        self,
        alloc: Global,
        kept: &[Vec<usize>],
        ring_limit: u128,
    ) -> Result<(Self, Vec<Dropped>, u64), Memory>
        requires kept { EachFromFirstToLast (map (λ k. k.items) kept.now) (contents self).arcs }
        requires limit { ring_limit ≤ threshold_limit }
        ensures topology { IfOk result (λ r. contents r.0 ≡ simplified_by (map (λ k. k.items) kept.now) ring_limit (contents self)) }
        ensures dropped { IfOk result (λ r. r.1.items ≡ dropped_by (map (λ k. k.items) kept.now) ring_limit (contents self)) }
        ensures removed_count { IfOk result (λ r. r.2 ≡ saturated (removed_count_by (map (λ k. k.items) kept.now) ring_limit (contents self))) };
}

impl Reduces for Topology {
    ghost contents = { λ topology. topology };

    fn reduce(
        self,
        alloc: Global,
        kept: &[Vec<usize>],
        ring_limit: u128,
    ) -> Result<(Topology, Vec<Dropped>, u64), Memory> {
        let counts = position_counts(alloc, self.arcs())?;
        let stay = cells_of_all(alloc, kept, self.arcs())?;
        let (objects, arcs, transform) = self.into_parts();
        drop(arcs);
        let retained = Retained {
            arcs: stay,
            counts,
            ways: Vec::new(alloc),
            chosen: None,
        };
        let left = reassemble(alloc, objects, transform, retained, ring_limit)?;
        Ok((left.topology, left.dropped, left.removed_count))
    }
}

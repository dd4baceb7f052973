// The index with all that it keeps.
ghost use Rattle.std.specs.Prelude.{◌≡◌, ◌+◌, ◌*◌, ◌<◌, ◌^◌, slice_index, false, length, slice_set, IfOk};
ghost use Rattle.std.specs.Option.{IfNone, IfSome};
ghost use Rattle.guarded_reduction.specs.Blocked.{blocking};
ghost use Rattle.guarded_reduction.specs.Indexes.{IsIndex, Meets, NoneMeets};

use crate::index::blocking::Blocked;
use crate::index::ordering::{places_in_order, ranks_of};
use crate::index::refitting::{boxes_over, refit_over};
use crate::index::searching::find_under;
use geometry::Position;
use owned_values::Memory;
use planar_predicates::Extent;
use std::alloc::Global;

/// The positions of places, which of them are left, the places in the order of the leaves, the rank of each among these, and a tree over them: the
/// children of the node at i are those at 2 i and 2 i + 1, and the leaves come last. A box holds what is left under a node, for the nodes of all but
/// the three lowest levels.
#[derive(Drop)]
pub struct BoxTree {
    pub positions: Vec<Position>,
    pub present: Vec<bool>,
    pub places: Vec<usize>,
    pub ranks: Vec<usize>,
    pub extents: Vec<Extent>,
}

/// The index of these positions, of which some are left.
#[tactic(auto, using(crate::proofs::Indexes::leaves_of, crate::proofs::Indexes::made, crate::proofs::Orders::places_below))]
pub fn tree_of(
    alloc: Global,
    positions: Vec<Position>,
    present: Vec<bool>,
) -> Result<BoxTree, Memory>
    requires { length present.items ≡ length positions.items }
    ensures index { IfOk result (λ x. IsIndex x) }
    ensures positions { IfOk result (λ x. x.positions.items ≡ positions.items) }
    ensures present { IfOk result (λ x. x.present.items ≡ present.items) }
{
    let places = places_in_order(alloc, &positions)?;
    let ranks = ranks_of(alloc, &places)?;
    let extents = boxes_over(alloc, &positions, &present, &places)?;
    Ok(BoxTree {
        positions,
        present,
        places,
        ranks,
        extents,
    })
}

impl BoxTree {
    /// Takes the place away.
    #[tactic(auto, using(crate::proofs::Indexes::fitted_without, crate::proofs::Indexes::leaves_without))]
    pub fn remove(&mut self, place: usize)
        requires index { IsIndex self.old }
        requires within { place < length self.old.positions.items }
        ensures index { IsIndex self.new }
        ensures positions { self.new.positions.items ≡ self.old.positions.items }
        ensures present { self.new.present.items ≡ slice_set self.old.present.items place false }
    {
        let leaf = self.leaf_of(place);
        self.present[place] = false;
        refit_over(
            &mut self.extents,
            &self.positions,
            &self.present,
            &self.places,
            leaf,
        );
    }

    /// The leaf of a place.
    fn leaf_of(&self, place: usize) -> usize
        requires index { IsIndex self.now }
        requires within { place < length self.now.positions.items }
        ensures value { result ≡ length self.now.positions.items + slice_index self.now.ranks.items place }
        ensures within { result < 2 * length self.now.positions.items }
    {
        self.positions.len() + self.ranks[place]
    }

    /// A place that is left and meets the test.
    #[tactic(auto, using(crate::proofs::Searches::none_at_all))]
    pub fn find(&self, query: &Blocked) -> Option<usize>
        requires { IsIndex self.now }
        ensures some { IfSome result (λ z. Meets self.now.positions.items self.now.present.items (blocking query.now) z) }
        ensures none { IfNone result (NoneMeets self.now.positions.items self.now.present.items (blocking query.now)) }
    {
        if self.positions.len() == 0 {
            return None;
        }
        find_under(self, 1, &query.reach(), query)
    }
}

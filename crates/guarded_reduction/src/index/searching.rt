// The search through the boxes.
ghost use Rattle.std.specs.Prelude.{◌≡◌, ◌+◌, ◌-◌, ◌*◌, ◌<◌, ◌≤◌, ◌&&◌, false, length, slice_index};
ghost use Rattle.std.specs.Option.{IfNone, IfSome};
ghost use Rattle.guarded_reduction.specs.Blocked.{blocking};
ghost use Rattle.guarded_reduction.specs.Indexes.{IsIndex, Meets, NoneMeetsUnder, is_left_at, point_at};
ghost use Rattle.guarded_reduction.specs.Tests.{Reaches};
ghost use Rattle.guarded_reduction.specs.Trees.{extent_at};

use crate::index::blocking::Blocked;
use crate::index::box_tree::BoxTree;
use geometry::Position;
use planar_predicates::{Extent, around, meets};

/// Whether the place is left.
#[tactic(auto, unfolding(crate::specs::Indexes::is_left_at))]
pub fn is_left(present: &[bool], place: usize) -> bool
    requires { place < length present.now }
    ensures { result ≡ is_left_at present.now place }
{
    present[place]
}

/// The position of a place.
pub fn position_of(positions: &[Position], place: usize) -> Position
    requires { place < length positions.now }
    ensures { result ≡ point_at positions.now place }
{
    positions[place]
}

/// The box of a node.
#[tactic(auto, unfolding(crate::specs::Trees::extent_at))]
pub fn read_extent(extents: &[Extent], at: usize) -> Extent
    requires { at < length extents.now }
    ensures { result ≡ extent_at extents.now at }
{
    extents[at]
}

/// The place is left and meets the test.
#[tactic(auto, using(crate::proofs::Searches::beyond_reach, crate::proofs::Searches::not_both))]
pub fn is_met_at(
    positions: &[Position],
    present: &[bool],
    place: usize,
    within: &Extent,
    query: &Blocked,
) -> bool
    requires present { place < length present.now }
    requires within { place < length positions.now }
    requires reach { Reaches within.now (blocking query.now) }
    ensures { result ≡ (is_left_at present.now place && blocking query.now place (point_at positions.now place)) }
{
    let at = position_of(positions, place);
    meets(around(at), *within) && (is_left(present, place) && query.is_met_by(place, at))
}

/// The place of a leaf.
fn place_at(index: &BoxTree, leaf: usize) -> usize
    requires index { IsIndex index.now }
    requires leaf { length index.now.positions.items ≤ leaf }
    requires within { leaf < 2 * length index.now.positions.items }
    ensures value { result ≡ slice_index index.now.places.items (leaf - length index.now.positions.items) }
    ensures within { result < length index.now.positions.items }
{
    index.places[leaf - index.positions.len()]
}

/// The place of a leaf, where it is left and meets the test.
#[tactic(auto, using(crate::proofs::Searches::leaf_clear))]
fn found_at(index: &BoxTree, leaf: usize, within: &Extent, query: &Blocked) -> Option<usize>
    requires index { IsIndex index.now }
    requires leaf { length index.now.positions.items ≤ leaf }
    requires inside { leaf < 2 * length index.now.positions.items }
    requires reach { Reaches within.now (blocking query.now) }
    ensures some { IfSome result (λ z. Meets index.now.positions.items index.now.present.items (blocking query.now) z) }
    ensures none { IfNone result (NoneMeetsUnder index.now leaf (blocking query.now)) }
{
    let place = place_at(index, leaf);
    if is_met_at(&index.positions, &index.present, place, within, query) {
        Some(place)
    } else {
        None
    }
}

/// Something under a node may meet the test, unless the answer is no.
#[tactic(auto, using(crate::proofs::Searches::outside, crate::proofs::Searches::pruned))]
fn may_hold(index: &BoxTree, node: usize, within: &Extent, query: &Blocked) -> bool
    requires index { IsIndex index.now }
    requires inner { 0 < node }
    requires inside { node < 2 * length index.now.positions.items }
    requires reach { Reaches within.now (blocking query.now) }
    ensures { result ≡ false → NoneMeetsUnder index.now node (blocking query.now) }
{
    if node >= index.extents.len() {
        return true;
    }
    let e = read_extent(&index.extents, node);
    meets(e, *within) && query.may_meet(&e)
}

/// A place under a node that is left and meets the test. The boxes of its children are looked at, and not its own.
pub fn find_under(index: &BoxTree, node: usize, within: &Extent, query: &Blocked) -> Option<usize>
    requires index { IsIndex index.now }
    requires inner { 0 < node }
    requires inside { node < 2 * length index.now.positions.items }
    requires reach { Reaches within.now (blocking query.now) }
    ensures some { IfSome result (λ z. Meets index.now.positions.items index.now.present.items (blocking query.now) z) }
    ensures none { IfNone result (NoneMeetsUnder index.now node (blocking query.now)) }
{
    if node >= index.positions.len() {
        return found_at(index, node, within, query);
    }
    if may_hold(index, 2 * node, within, query) {
        if let Some(place) = find_under(index, 2 * node, within, query) {
            return Some(place);
        }
    }
    if !may_hold(index, 2 * node + 1, within, query) {
        return None;
    }
    find_under(index, 2 * node + 1, within, query)
}

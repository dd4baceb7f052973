// Boxes over places that are left, made and refitted.
ghost use Rattle.std.specs.Prelude.{◌≡◌, ◌-◌, ◌+◌, ◌*◌, ◌<◌, ◌≤◌, length, slice_index, IfOk};
ghost use Rattle.guarded_reduction.specs.Indexes.{AreFitted, AreLeaves, HoldsLeft, is_left_at, point_at};
ghost use Rattle.guarded_reduction.specs.Trees.{extent_at, DiffersAt};

use crate::index::searching::{is_left, position_of, read_extent};
use geometry::Position;
use owned_values::Memory;
use planar_predicates::{Extent, around, empty_extent, joined};
use std::alloc::Global;

/// The box of a leaf, which holds nothing where its place is gone.
#[tactic(auto, using(crate::proofs::Trees::leaf_holds))]
fn leaf_extent(positions: &[Position], present: &[bool], places: &[usize], leaf: usize) -> Extent
    requires leaves { AreLeaves positions.now present.now places.now }
    requires leaf { length positions.now ≤ leaf }
    requires inside { leaf < 2 * length positions.now }
    ensures { HoldsLeft positions.now present.now places.now leaf result }
{
    let place = places[leaf - positions.len()];
    if is_left(present, place) {
        around(position_of(positions, place))
    } else {
        empty_extent()
    }
}

/// A box that holds what is left under a node: its own, where it has one.
fn extent_under(
    extents: &[Extent],
    positions: &[Position],
    present: &[bool],
    places: &[usize],
    node: usize,
) -> Extent
    requires leaves { AreLeaves positions.now present.now places.now }
    requires few { length extents.now ≤ length positions.now }
    requires fitted { AreFitted extents.now positions.now present.now places.now node }
    requires inner { 0 < node }
    requires inside { node < 2 * length positions.now }
    ensures { HoldsLeft positions.now present.now places.now node result }
{
    if node < extents.len() {
        return read_extent(extents, node);
    }
    if node >= positions.len() {
        return leaf_extent(positions, present, places, node);
    }
    joined(
        extent_under(extents, positions, present, places, 2 * node),
        extent_under(extents, positions, present, places, 2 * node + 1),
    )
}

/// Another box is put in a place.
fn set_extent(extents: &mut [Extent], at: usize, e: Extent)
    requires { at < length extents.old }
    ensures there { extent_at extents.new at ≡ e }
    ensures others { DiffersAt at extents.old extents.new }
{
    extents[at] = e;
}

/// Refits a node: its box becomes that round what is left under its two children. The answer is whether it changed.
#[tactic(auto, using(crate::proofs::Trees::both_hold))]
fn refit(
    extents: &mut [Extent],
    positions: &[Position],
    present: &[bool],
    places: &[usize],
    node: usize,
) -> bool
    requires leaves { AreLeaves positions.now present.now places.now }
    requires few { length extents.old ≤ length positions.now }
    requires fitted { AreFitted extents.old positions.now present.now places.now (node + 1) }
    requires inner { 0 < node }
    requires inside { node < length extents.old }
    ensures holds { HoldsLeft positions.now present.now places.now node (extent_at extents.new node) }
    ensures others { DiffersAt node extents.old extents.new }
{
    let before = read_extent(extents, node);
    let e = joined(
        extent_under(extents, positions, present, places, 2 * node),
        extent_under(extents, positions, present, places, 2 * node + 1),
    );
    set_extent(extents, node, e);
    e != before
}

/// Each node that has a box is refitted, the last first.
fn refit_all(extents: &mut [Extent], positions: &[Position], present: &[bool], places: &[usize])
    requires leaves { AreLeaves positions.now present.now places.now }
    requires few { length extents.old ≤ length positions.now }
    ensures { AreFitted extents.new positions.now present.now places.now 1 }
{
    let mut node = extents.len();
    while node > 1 {
        node -= 1;
        let _ = refit(extents, positions, present, places, node);
    }
}

/// The boxes over places that are left. The nodes of the three lowest levels have none.
pub fn boxes_over(
    alloc: Global,
    positions: &[Position],
    present: &[bool],
    places: &[usize],
) -> Result<Vec<Extent>, Memory>
    requires { AreLeaves positions.now present.now places.now }
    ensures few { IfOk result (λ v. length v.items ≤ length positions.now) }
    ensures fitted { IfOk result (λ v. AreFitted v.items positions.now present.now places.now 1) }
{
    let mut extents = vec![in alloc; empty_extent(); positions.len() / 4]?;
    refit_all(&mut extents, positions, present, places);
    Ok(extents)
}

/// Refits a node, if it has a box. The answer is no where its box stays as it was.
fn refit_if_boxed(
    extents: &mut [Extent],
    positions: &[Position],
    present: &[bool],
    places: &[usize],
    node: usize,
) -> bool
    requires leaves { AreLeaves positions.now present.now places.now }
    requires few { length extents.old ≤ length positions.now }
    requires fitted { AreFitted extents.old positions.now present.now places.now 1 }
    requires inner { 0 < node }
    ensures { AreFitted extents.new positions.now present.now places.now 1 }
{
    if node >= extents.len() {
        return true;
    }
    refit(extents, positions, present, places, node)
}

/// The node over one whose box changed, or zero: there is none over the first, and those over one that stays as it was stay so, too.
fn node_over(node: usize, is_changed: bool) -> usize
    requires { 0 < node }
    ensures { result < node }
{
    if is_changed { node / 2 } else { 0 }
}

/// The nodes over a leaf are refitted, as far as they change.
fn refit_from(
    extents: &mut [Extent],
    positions: &[Position],
    present: &[bool],
    places: &[usize],
    leaf: usize,
)
    requires leaves { AreLeaves positions.now present.now places.now }
    requires few { length extents.old ≤ length positions.now }
    requires fitted { AreFitted extents.old positions.now present.now places.now 1 }
    ensures { AreFitted extents.new positions.now present.now places.now 1 }
{
    let mut node = leaf / 2;
    while node > 0 {
        let is_changed = refit_if_boxed(extents, positions, present, places, node);
        node = node_over(node, is_changed);
    }
}

/// The same, in a list that can grow.
pub fn refit_over(
    extents: &mut Vec<Extent>,
    positions: &[Position],
    present: &[bool],
    places: &[usize],
    leaf: usize,
)
    requires leaves { AreLeaves positions.now present.now places.now }
    requires few { length extents.old.items ≤ length positions.now }
    requires fitted { AreFitted extents.old.items positions.now present.now places.now 1 }
    ensures length { length extents.new.items ≡ length extents.old.items }
    ensures fitted { AreFitted extents.new.items positions.now present.now places.now 1 }
{
    refit_from(extents, positions, present, places, leaf);
}

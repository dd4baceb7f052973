// The topology that is left of a draft.
ghost use Rattle.std.specs.Prelude.{◌≡◌, ◌-◌, ◌<◌, ◌≤◌, ◌^◌, ℕ, IfOk, List, OnOk, length, map, sum};
ghost use Rattle.std.specs.List.{AllByRecursion};
ghost use Rattle.std.specs.Option.{option_copied};
ghost use Rattle.topo_model.specs.Uses.{answers};
ghost use Rattle.build_meaning.specs.Built.{positions_of};
ghost use Rattle.build_meaning.specs.Left.{left_by};
ghost use Rattle.build_meaning.specs.Protected.{Protection, sparing};
ghost use Rattle.build_meaning.specs.Trimming.{is_used, keep_from, line_renumbered};
ghost use Rattle.build_meaning.specs.Simplified.{objects_pruned};
ghost use Rattle.byte_ends.specs.Ends.{saturated};
ghost use Rattle.geometry.specs.Joins.{AreInRange};
ghost use Rattle.geometry.specs.Lists.{map_some};
ghost use Rattle.geometry.specs.Points.{IsPosition, Point};
ghost use Rattle.geometry.specs.Units.{threshold_limit};
ghost use Rattle.topojson_types.specs.declared.object.TopoObject.{TopoObject as Object};
ghost use Rattle.topojson_types.specs.Decoding.{placed_arcs as all_placed};
ghost use Rattle.topojson_types.specs.Topologies.{objects_lines_and_rings};
ghost use Rattle.topojson_types.specs.Validity.{IsPlace};
ghost use Rattle.topo_model.specs.Along.{objects_along};
ghost use Rattle.topo_model.specs.ArcUses.{AllNameArcs, as_they_are};
ghost use Rattle.topo_model.specs.Drops.{judged_refs, objects_drops};
ghost use Rattle.topo_model.specs.Parts.{contents};
ghost use Rattle.topo_model.specs.Retaining.{StandsFor, StandsForTopology};

use crate::choosing::Renumbered;
use crate::draft_uses::draft_arcs;
use crate::judging::Judging;
use crate::leaving_out::{leave_out_small, prune_objects};
use crate::left::{Left, Retained};
use crate::marking::all_set;
use crate::placing::placed_arcs;
use crate::position_counting::position_sum;
use crate::rebuilding::Rebuilding;
use crate::trimming::{kept_arcs, removed_count, renumbering, used_sum};
use build_meaning::spared_is_valid;
use geojson_types::Dropped;
use json_value::{Items, OwnText};
use owned_values::Memory;
use std::alloc::Global;
use topojson_types::{Cell, TopoObject, Topology, Transform};

/// Leaves out the lines and rings of the objects that are small where they are rebuilt of the first arcs, if there are any, or of these, and
/// twice the area of a ring may not be under the limit, but no ring to which the way of its feature leads. They are, in reading order, what comes back.
fn leave_out_rebuilt(
    alloc: Global,
    objects: &mut [(OwnText, TopoObject)],
    arcs: &[Items<Cell>],
    first: Option<&Rebuilding<'_>>,
    ring_limit: u128,
    ways: &[Option<Vec<usize>>],
) -> Result<Vec<Dropped>, Memory>
    requires places { AllByRecursion (λ arc. AllByRecursion IsPosition arc) arcs.now }
    requires limit { ring_limit ≤ threshold_limit }
    ensures objects { OnOk result (objects.new ≡ objects_along (sparing (judged_refs (map_some (λ r. r.now) first.entry) (record { arcs = arcs.now; limit = ring_limit })))
        (map (map_some (λ v. v.items)) ways.now) objects.old) }
    ensures dropped { IfOk result (λ dropped. dropped.items
        ≡ objects_drops (record { first = map_some (λ r. r.now) first.entry; later = record { arcs = arcs.now; limit = ring_limit } }) 0 (map (map_some (λ v. v.items)) ways.now) objects.old) }
{
    let later = Rebuilding::of(alloc, arcs, ring_limit)?;
    leave_out_small(alloc, objects, &Judging::by(first, &later), ways)
}

/// Leaves out those where the positions of the arcs are those that their cells stand for.
fn leave_out_dropped(
    alloc: Global,
    objects: &mut [(OwnText, TopoObject)],
    arcs: &[Items<Cell>],
    transform: Option<&Transform>,
    first: Option<&Rebuilding<'_>>,
    ring_limit: u128,
    ways: &[Option<Vec<usize>>],
) -> Result<Vec<Dropped>, Memory>
    requires places { AllByRecursion (λ arc. AllByRecursion (IsPlace (option_copied transform)) arc) arcs.now }
    requires limit { ring_limit ≤ threshold_limit }
    ensures objects { OnOk result (objects.new
        ≡ objects_along (sparing (judged_refs (map_some (λ r. r.now) first.entry) (record { arcs = all_placed (option_copied transform.entry) arcs.now; limit = ring_limit })))
        (map (map_some (λ v. v.items)) ways.now) objects.old) }
    ensures dropped { IfOk result (λ dropped. dropped.items
        ≡ objects_drops (record { first = map_some (λ r. r.now) first.entry; later = record { arcs = all_placed (option_copied transform.entry) arcs.now; limit = ring_limit } }) 0
        (map (map_some (λ v. v.items)) ways.now) objects.old) }
{
    match transform {
        None => leave_out_rebuilt(alloc, objects, arcs, first, ring_limit, ways),
        Some(_) => {
            let placed = placed_arcs(alloc, arcs, transform)?;
            leave_out_rebuilt(alloc, objects, &placed, first, ring_limit, ways)
        }
    }
}

/// The arcs that a line or ring of the objects uses, which have a set flag. The objects have the new indexes, or stay as they are where each
/// flag is set.
fn only_used(
    alloc: Global,
    objects: &mut [(OwnText, TopoObject)],
    arcs: Vec<Items<Cell>>,
    used: &[bool],
) -> Result<Vec<Items<Cell>>, Memory>
    requires used { used.now ≡ answers (is_used objects.old) 0 (length arcs.items) }
    requires indexed { AllByRecursion (λ b. AreInRange (length arcs.items) b.1) (objects_lines_and_rings objects.old) }
    requires pruned { objects_pruned as_they_are objects.old ≡ objects.old }
    ensures objects { OnOk result (objects.new ≡ objects_pruned (line_renumbered (is_used objects.old)) objects.old) }
    ensures arcs { IfOk result (λ kept. kept.items ≡ keep_from (is_used objects.old) 0 arcs.items) }
{
    if all_set(used) {
        return Ok(arcs);
    }
    let renumbering = renumbering(alloc, used)?;
    prune_objects(alloc, &Renumbered::by(&renumbering), objects)?;
    kept_arcs(alloc, arcs, used)
}

/// The retained arcs without those that no line or ring of the objects uses, and how many of the positions of the others were not retained,
/// where each arc had so many. The objects have the new indexes.
fn without_unused(
    alloc: Global,
    objects: &mut [(OwnText, TopoObject)],
    retained: Vec<Items<Cell>>,
    counts: &[usize],
) -> Result<(Vec<Items<Cell>>, u64), Memory>
    requires many { length retained.items ≡ length counts.now }
    requires indexed { AllNameArcs (length retained.items) objects.old }
    requires pruned { objects_pruned as_they_are objects.old ≡ objects.old }
    ensures objects { OnOk result (objects.new ≡ objects_pruned (line_renumbered (is_used objects.old)) objects.old) }
    ensures arcs { IfOk result (λ r. r.0.items ≡ keep_from (is_used objects.old) 0 retained.items) }
    ensures removed_count { IfOk result (λ r. r.1
        ≡ saturated (sum (keep_from (is_used objects.old) 0 counts.now) - positions_of (keep_from (is_used objects.old) 0 retained.items))) }
{
    let used = draft_arcs(alloc, objects, retained.len())?;
    let before = used_sum(counts, &used);
    let stay = only_used(alloc, objects, retained, &used)?;
    let after = position_sum(&stay);
    Ok((stay, removed_count(before, after)))
}

/// What is left of objects over arcs of which only these cells stay: without the lines and rings that have no arc index, or are small where
/// they are rebuilt of the first arcs, if there are any, or of what stays, but with the rings to which the ways of features lead, and without
/// the arcs that no other line uses.
pub fn finish(
    alloc: Global,
    objects: Vec<(OwnText, TopoObject)>,
    retained: Retained,
    transform: Option<Transform>,
    first: Option<&Rebuilding<'_>>,
    ring_limit: u128,
) -> Result<Left, Memory>
    requires stands { StandsForTopology objects.items retained.arcs.items retained.counts.items transform (map_some (λ r. r.now) first) ring_limit (map (map_some (λ v. v.items)) retained.ways.items) }
    requires limit { ring_limit ≤ threshold_limit }
    ensures topology { IfOk result (λ r. (protects : Protection) (kept : List (List ℕ)) (of : List (List ℕ × Object)) (arcs : List (List Point))
        → StandsFor protects kept of objects.items arcs retained.arcs.items transform (map_some (λ r. r.now) first.entry) ring_limit (map (map_some (λ v. v.items)) retained.ways.items)
        → r.topology ≡ (left_by protects kept ring_limit (contents of arcs transform)).contents) }
    ensures dropped { IfOk result (λ r. r.dropped.items
        ≡ objects_drops (record { first = map_some (λ r. r.now) first.entry; later = record { arcs = all_placed transform retained.arcs.items; limit = ring_limit } }) 0 (map (map_some (λ v. v.items)) retained.ways.items) objects.items) }
    ensures removed_count { IfOk result (λ r. (protects : Protection) (kept : List (List ℕ)) (of : List (List ℕ × Object)) (arcs : List (List Point))
        → StandsFor protects kept of objects.items arcs retained.arcs.items transform (map_some (λ r. r.now) first.entry) ring_limit (map (map_some (λ v. v.items)) retained.ways.items) → retained.counts.items ≡ map length arcs
        → r.removed_count ≡ saturated (left_by protects kept ring_limit (contents of arcs transform)).removed_count) }
    ensures chosen { IfOk result (λ r. r.chosen ≡ retained.chosen) }
    ensures few { IfOk result (λ r. length r.topology.arcs < 2 ^ 63) }
{
    spared_is_valid();
    let mut objects = objects;
    let dropped = leave_out_dropped(
        alloc,
        objects.as_mut_slice(),
        &retained.arcs,
        transform.as_ref(),
        first,
        ring_limit,
        &retained.ways,
    )?;
    let (arcs, removed_count) = without_unused(
        alloc,
        objects.as_mut_slice(),
        retained.arcs,
        &retained.counts,
    )?;
    let topology = Topology::of(Items::of(objects), Items::of(arcs), transform);
    Ok(Left {
        topology,
        dropped,
        removed_count,
        chosen: retained.chosen,
    })
}

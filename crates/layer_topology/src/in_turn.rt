// What is left of a draft where guards are asked for: what is small as it stands goes first, and holds nothing while the rest is reduced.
ghost use Rattle.std.specs.Prelude.{◌≡◌, ◌<◌, ◌≤◌, ◌^◌, Bool, IfOk, Option, length, map, replicate, true};
ghost use Rattle.std.specs.List.{AllByRecursion};
ghost use Rattle.build_meaning.specs.InTurn as meaning;
ghost use Rattle.build_meaning.specs.Left.{is_at_once as is_at_once_of};
ghost use Rattle.build_meaning.specs.Protected.{protected_rings as all_protected, protection};
ghost use Rattle.geometry.specs.Lists.{map_some};
ghost use Rattle.geometry.specs.Points.{IsPosition};
ghost use Rattle.geometry.specs.Units.{threshold_limit};
ghost use Rattle.build_meaning.specs.Simplified.{retained_arcs};
ghost use Rattle.layer_topology.specs.InTurn.{held_by, indexes_for, IsLeftInTurn, judged_first, threshold_in_turn};
ghost use Rattle.layer_topology.specs.Levels.{chosen_for, is_simplifying_level};
ghost use Rattle.topojson_types.specs.declared.transform.Transform.{Transform as TransformOf};
ghost use Rattle.topo_model.specs.DraftUses.{draft_contents};
ghost use Rattle.topo_model.specs.Uses.{answers};
ghost use Rattle.topo_model.specs.Ways.{ways_under};
ghost use Rattle.topojson_types.specs.Decoding.{placed_arcs as all_placed};
ghost use Rattle.topojson_types.specs.Validity.{IsTopology};

use crate::at_once::kept_at_once;
use crate::reduction::Reduction;
use crate::renumbering::renumbered_rings;
use crate::used::{retained_in_turn, used_lines};
use build_meaning::{
    Guards, in_turn_is_at_once, left_indexes_reach, protected_rings_can_stay, same_rings_stay,
    without_small_is_valid,
};
use json_value::{Items, OwnText};
use owned_values::Memory;
use std::alloc::Global;
use topo_model::{
    ArcRef, Left, Rebuilding, Retained, finish, position_counts, protected_rings, used_at_first,
};
use topojson_types::{Cell, TopoObject, Transform};

/// Whether all arcs are reduced at once.
pub(crate) fn is_at_once(guards: Guards) -> bool
    ensures { result ≡ is_at_once_of guards }
{
    guards.no_crossings || guards.keep_shapes
}

/// Whether lines and rings that are small as they stand go before arcs are reduced: where guards are asked for, and a ring may enclose too little.
fn goes_first(asked: Reduction) -> bool
    ensures { result ≡ meaning.goes_first asked.guards asked.ring_limit }
{
    is_at_once(asked.guards) && asked.ring_limit > 0
}

/// The rings of a topology that have to stay.
#[derive(Drop)]
pub(crate) struct Protected {
    /// For each feature the way to its protected ring, if it has one; none at all where no shape has to stay.
    pub ways: Vec<Option<Vec<usize>>>,
    /// The arc indexes of the protected rings.
    pub rings: Vec<Items<ArcRef>>,
}

/// The protected rings of objects over arcs under guards.
fn protected_under(
    alloc: Global,
    objects: &[(OwnText, TopoObject)],
    placed: &[Items<Cell>],
    guards: Guards,
) -> Result<Protected, Memory>
    requires { AllByRecursion (λ arc. AllByRecursion IsPosition arc) placed.now }
    ensures ways { IfOk result (λ r. map (map_some (λ w. w.items)) r.ways.items ≡ ways_under guards.keep_shapes placed.now objects.now) }
    ensures rings { IfOk result (λ r. r.rings.items ≡ all_protected (protection guards.keep_shapes placed.now) objects.now) }
{
    if guards.keep_shapes {
        let (ways, rings) = protected_rings(alloc, objects, placed)?;
        Ok(Protected { ways, rings })
    } else {
        Ok(Protected {
            ways: Vec::new(alloc),
            rings: Vec::new(alloc),
        })
    }
}

/// So many flags that are set.
fn set_flags(alloc: Global, arcs: usize) -> Result<Vec<bool>, Memory>
    ensures { IfOk result (λ flags. flags.items ≡ replicate arcs true) }
{
    let flags = vec![in alloc; true; arcs]?;
    Ok(flags)
}

/// Which of so many arcs hold anything: where lines and rings are judged first, those that are used by the ones that stay then, and else all.
fn held_arcs(
    alloc: Global,
    objects: &[(OwnText, TopoObject)],
    first: Option<&Rebuilding<'_>>,
    ways: &[Option<Vec<usize>>],
    arcs: usize,
) -> Result<Vec<bool>, Memory>
    ensures { IfOk result (λ held. held.items ≡ answers (held_by (map_some (λ r. r.now) first.entry) (map (map_some (λ w. w.items)) ways.now) objects.now) 0 arcs) }
{
    match first {
        Some(first) => used_at_first(alloc, objects, first, ways, arcs),
        None => set_flags(alloc, arcs),
    }
}

/// What stays of the arcs of a draft, whose positions are given, too: those that no line or ring uses that stays at first hold nothing, take no
/// part in a share, and stay whole.
fn retained_of_used(
    alloc: Global,
    objects: &[(OwnText, TopoObject)],
    arcs: &[Items<Cell>],
    placed: &[Items<Cell>],
    first: Option<&Rebuilding<'_>>,
    asked: Reduction,
) -> Result<Retained, Memory>
    requires at_once { is_at_once_of asked.guards ≡ true }
    requires level { is_simplifying_level asked.level ≡ true }
    requires judged { (b : Bool) × (map_some (λ r. r.now) first ≡ judged_first b asked.ring_limit placed.now) }
    requires valid { (transform : Option TransformOf) × IsTopology (draft_contents objects.now arcs.now transform) × (placed.now ≡ all_placed transform arcs.now) }
    ensures arcs { IfOk result (λ r. (b : Bool) (transform : Option TransformOf) → map_some (λ r. r.now) first.entry ≡ judged_first b asked.ring_limit placed.now
        → IsTopology (draft_contents objects.now arcs.now transform) → placed.now ≡ all_placed transform arcs.now
        → r.arcs.items ≡ retained_arcs (indexes_for b asked.guards asked.level asked.ring_limit (draft_contents objects.now arcs.now transform)) arcs.now) }
    ensures counts { IfOk result (λ r. r.counts.items ≡ map length arcs.now) }
    ensures ways { IfOk result (λ r. map (map_some (λ w. w.items)) r.ways.items ≡ ways_under asked.guards.keep_shapes placed.now objects.now) }
    ensures chosen { IfOk result (λ r. (b : Bool) (transform : Option TransformOf) → map_some (λ r. r.now) first.entry ≡ judged_first b asked.ring_limit placed.now
        → IsTopology (draft_contents objects.now arcs.now transform) → placed.now ≡ all_placed transform arcs.now
        → r.chosen ≡ chosen_for asked.level (threshold_in_turn b asked.guards asked.level asked.ring_limit (draft_contents objects.now arcs.now transform))) }
{
    in_turn_is_at_once();
    same_rings_stay();
    without_small_is_valid();
    left_indexes_reach();
    protected_rings_can_stay();
    let Protected { ways, rings } = protected_under(alloc, objects, placed, asked.guards)?;
    let held = held_arcs(alloc, objects, first, &ways, placed.len())?;
    let rings = renumbered_rings(alloc, &held, rings)?;
    let lines = used_lines(alloc, placed, &held)?;
    let (numbers, chosen) = kept_at_once(
        alloc,
        &lines,
        asked.guards.no_crossings,
        &rings,
        asked.level,
    )?;
    drop(lines);
    let left = retained_in_turn(alloc, &held, numbers, arcs)?;
    let counts = position_counts(alloc, arcs)?;
    Ok(Retained {
        arcs: left,
        counts,
        ways,
        chosen,
    })
}

/// What is left of a draft over these arcs, whose positions are given, too, where guards are asked for. Where lines and rings are judged first, it
/// is by these arcs.
pub(crate) fn left_in_turn(
    alloc: Global,
    objects: Vec<(OwnText, TopoObject)>,
    arcs: &[Items<Cell>],
    placed: &[Items<Cell>],
    transform: Option<Transform>,
    first: Option<&Rebuilding<'_>>,
    asked: Reduction,
) -> Result<Left, Memory>
    requires at_once { is_at_once_of asked.guards ≡ true }
    requires level { is_simplifying_level asked.level ≡ true }
    requires limit { asked.ring_limit ≤ threshold_limit }
    requires judged { (b : Bool) × (map_some (λ r. r.now) first ≡ judged_first b asked.ring_limit placed.now) }
    requires valid { IsTopology (draft_contents objects.items arcs.now transform) }
    requires placed { placed.now ≡ all_placed transform arcs.now }
    ensures left { IfOk result (λ r. (b : Bool) → map_some (λ r. r.now) first.entry ≡ judged_first b asked.ring_limit placed.now
        → IsLeftInTurn b asked.guards asked.level asked.ring_limit objects.items (draft_contents objects.items arcs.now transform) r.topology r.dropped.items r.removed_count r.chosen) }
    ensures few { IfOk result (λ r. length r.topology.arcs < 2 ^ 63) }
{
    in_turn_is_at_once();
    without_small_is_valid();
    left_indexes_reach();
    let retained = retained_of_used(alloc, &objects, arcs, placed, first, asked)?;
    let left = finish(alloc, objects, retained, transform, first, asked.ring_limit)?;
    Ok(left)
}

/// What is left of a draft over these arcs, whose positions are given, too, where guards are asked for. Where a ring may enclose too little, what is
/// small as it stands goes first.
pub(crate) fn left_judged(
    alloc: Global,
    objects: Vec<(OwnText, TopoObject)>,
    arcs: &[Items<Cell>],
    placed: &[Items<Cell>],
    transform: Option<Transform>,
    asked: Reduction,
) -> Result<Left, Memory>
    requires at_once { is_at_once_of asked.guards ≡ true }
    requires level { is_simplifying_level asked.level ≡ true }
    requires limit { asked.ring_limit ≤ threshold_limit }
    requires valid { IsTopology (draft_contents objects.items arcs.now transform) }
    requires placed { placed.now ≡ all_placed transform arcs.now }
    ensures { IfOk result (λ r. IsLeftInTurn (meaning.goes_first asked.guards asked.ring_limit) asked.guards asked.level asked.ring_limit objects.items
        (draft_contents objects.items arcs.now transform) r.topology r.dropped.items r.removed_count r.chosen) }
{
    if goes_first(asked) {
        let first = Rebuilding::of(alloc, placed, asked.ring_limit)?;
        let left = left_in_turn(alloc, objects, arcs, placed, transform, Some(&first), asked)?;
        return Ok(left);
    }
    left_in_turn(alloc, objects, arcs, placed, transform, None, asked)
}

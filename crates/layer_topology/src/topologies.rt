// What is left of a topology that was read.
ghost use Rattle.std.specs.Prelude.{◌≡◌, ◌<◌, ◌≤◌, ◌∷◌, ◌++◌, [], IfOk, None, Some, length, map, true};
ghost use Rattle.std.specs.List.{AllByRecursion};
ghost use Rattle.std.specs.Option.{option_copied};
ghost use Rattle.build_meaning.specs.ArcPositions as spec;
ghost use Rattle.build_meaning.specs.InTurn.{left_in_turn as left_in_turn_of, without_small};
ghost use Rattle.build_meaning.specs.Left.{is_at_once as is_at_once_of, left_of, no_guards};
ghost use Rattle.build_meaning.specs.Simplified.{retained, retained_arcs};
ghost use Rattle.build_meaning.specs.Thresholds.{placed_cells};
ghost use Rattle.effective_area.specs.Calls.{call_at, calls_for};
ghost use Rattle.elimination_meaning.specs.Elimination.{reduce};
ghost use Rattle.geometry.specs.Units.{threshold_limit};
ghost use Rattle.layer_topology.specs.Levels.{calls_at, calls_over, chosen_for, is_simplifying_level, threshold_at, threshold_of};
ghost use Rattle.layer_topology.specs.Topologies.{IsLeft};
ghost use Rattle.layer_topology.specs.declared.level.Level.TheVariants.{Share};
ghost use Rattle.topojson_types.specs.Decoding.{placed_arcs};
ghost use Rattle.topojson_types.specs.Validity.{IsArc};

use crate::choosing::{kept_by_share, reduced_line};
use crate::in_turn::{is_at_once, left_judged};
use crate::level::Level;
use crate::reduction::Reduction;
use build_meaning::{indexes_reach, unguarded_is_simplified};
use effective_area::Reducer;
use elimination_meaning::indexes_rise;
use geojson_types::Position;
use json_value::Items;
use owned_values::Memory;
use std::alloc::Global;
use topo_model::{Left, Reduces, Retained, placed_arcs, position_counts, reassemble, retained_arc};
use topojson_types::{Cell, Topology, Transform, positions};

/// The positions that each of these arcs stands for.
pub fn arc_positions(
    alloc: Global,
    transform: Option<&Transform>,
    arcs: &[Items<Cell>],
) -> Result<Vec<Items<Position>>, Memory>
    requires { AllByRecursion (IsArc (option_copied transform)) arcs.now }
    ensures { IfOk result (λ lines. lines.items ≡ placed_arcs (option_copied transform.entry) arcs.now) }
{
    let mut lines = Vec::with_capacity(alloc, arcs.len())?;
    'arcs: for arc in arcs {
        lines.push(positions(alloc, transform, arc.as_slice())?)?;
    }
    Ok(lines)
}

/// What is left of a topology where each arc is reduced by itself at the greatest threshold that keeps a share.
fn left_by_share(
    alloc: Global,
    topology: Topology,
    p: u64,
    q: u64,
    ring_limit: u128,
) -> Result<Left, Memory>
    requires whole { 0 < q }
    requires part { p ≤ q }
    requires limit { ring_limit ≤ threshold_limit }
    ensures left { IfOk result
        (λ r. IsLeft (left_of no_guards (threshold_at (Share p q) (spec.arc_positions topology)) ring_limit topology)
        r.topology r.dropped.items r.removed_count) }
    ensures chosen { IfOk result (λ r. r.chosen ≡ Some (threshold_at (Share p q) (spec.arc_positions topology))) }
{
    indexes_reach();
    unguarded_is_simplified();
    let lines = arc_positions(alloc, topology.transform(), topology.arcs())?;
    let (numbers, threshold) = kept_by_share(alloc, &lines, p, q)?;
    drop(lines);
    let (topology, dropped, removed_count) = topology.reduce(alloc, &numbers, ring_limit)?;
    Ok(Left {
        topology,
        dropped,
        removed_count,
        chosen: Some(threshold),
    })
}

/// The positions of an arc without a transform, which are its cells. The arc is freed.
#[tactic(auto, using(topo_model::proofs::Picks::places_are))]
fn own_positions(alloc: Global, arc: Items<Cell>) -> Result<Items<Position>, Memory>
    requires { IsArc None arc }
    ensures { IfOk result (λ line. line ≡ arc) }
{
    positions(alloc, None, arc.as_slice())
}

/// The cells of an arc that stay where the positions that they stand for are reduced. Where none goes it is this arc.
#[tactic(auto, using(topo_model::proofs::Picks::places_are))]
fn reduced_cells<Q: Reducer>(
    alloc: Global,
    reducer: &mut Q,
    transform: Option<&Transform>,
    arc: Items<Cell>,
    t: u128,
) -> Result<Items<Cell>, Memory>
    requires { IsArc (option_copied transform) arc }
    ensures retained { IfOk result (λ stay. stay ≡ retained (reduce t (placed_cells (option_copied transform.entry) arc)) arc) }
    ensures called { IfOk result
        (λ _. Q.calls reducer.new ≡ Q.calls reducer.old ++ call_at t (placed_cells (option_copied transform.entry) arc) ∷ []) }
{
    indexes_rise();
    let line = positions(alloc, transform, arc.as_slice())?;
    let kept = reducer.kept(alloc, line.as_slice(), t)?;
    retained_arc(alloc, &kept, arc)
}

/// An arc of more cells without a transform is freed before it is reduced.
const HELD_BESIDE: usize = 1024;

/// The cells of an arc that stay where the positions that they stand for are reduced. A long arc without a transform is copied as positions and
/// freed before it is reduced, so that it isn't held beside them meanwhile.
fn reduced_arc<Q: Reducer>(
    alloc: Global,
    reducer: &mut Q,
    transform: Option<&Transform>,
    arc: Items<Cell>,
    t: u128,
) -> Result<Items<Cell>, Memory>
    requires { IsArc (option_copied transform) arc }
    ensures retained { IfOk result (λ stay. stay ≡ retained (reduce t (placed_cells (option_copied transform.entry) arc)) arc) }
    ensures called { IfOk result
        (λ _. Q.calls reducer.new ≡ Q.calls reducer.old ++ call_at t (placed_cells (option_copied transform.entry) arc) ∷ []) }
{
    if transform.is_some() || arc.len() <= HELD_BESIDE {
        return reduced_cells(alloc, reducer, transform, arc, t);
    }
    let line = own_positions(alloc, arc)?;
    reduced_line(alloc, reducer, line.as_slice(), t)
}

/// Of each arc the cells that stay. No arc is held while the next one is reduced.
#[tactic(auto, using(effective_area::proofs::CallLists::one_called, topo_model::proofs::RetainedArcs::retained_more))]
fn reduced_arcs<Q: Reducer>(
    alloc: Global,
    reducer: &mut Q,
    transform: Option<&Transform>,
    arcs: Vec<Items<Cell>>,
    t: u128,
) -> Result<Vec<Items<Cell>>, Memory>
    requires { AllByRecursion (IsArc (option_copied transform)) arcs.items }
    ensures retained { IfOk result
        (λ left. left.items ≡ retained_arcs (map (λ cells. reduce t (placed_cells (option_copied transform.entry) cells)) arcs.items) arcs.items) }
    ensures called { IfOk result
        (λ _. Q.calls reducer.new ≡ Q.calls reducer.old ++ calls_for t (map (placed_cells (option_copied transform.entry)) arcs.items)) }
{
    let mut left = Vec::with_capacity(alloc, arcs.len())?;
    'arcs: for arc in arcs {
        left.push(reduced_arc(alloc, reducer, transform, arc, t)?)?;
    }
    Ok(left)
}

/// What stays of arcs of which each is reduced by itself.
fn retained_by_itself<Q: Reducer>(
    alloc: Global,
    reducer: &mut Q,
    transform: Option<&Transform>,
    arcs: Vec<Items<Cell>>,
    t: u128,
) -> Result<Retained, Memory>
    requires { AllByRecursion (IsArc (option_copied transform)) arcs.items }
    ensures arcs { IfOk result
        (λ r. r.arcs.items ≡ retained_arcs (map (λ cells. reduce t (placed_cells (option_copied transform.entry) cells)) arcs.items) arcs.items) }
    ensures counts { IfOk result (λ r. r.counts.items ≡ map length arcs.items) }
    ensures ways { IfOk result (λ r. r.ways.items ≡ []) }
    ensures chosen { IfOk result (λ r. r.chosen ≡ None) }
    ensures called { IfOk result
        (λ _. Q.calls reducer.new ≡ Q.calls reducer.old ++ calls_for t (map (placed_cells (option_copied transform.entry)) arcs.items)) }
{
    let counts = position_counts(alloc, &arcs)?;
    let arcs = reduced_arcs(alloc, reducer, transform, arcs, t)?;
    Ok(Retained {
        arcs,
        counts,
        ways: Vec::new(alloc),
        chosen: None,
    })
}

/// What is left of a topology where each arc is reduced by itself at a threshold.
#[tactic(auto, using(topo_model::proofs::Result::parts_are))]
fn left_at<Q: Reducer>(
    alloc: Global,
    reducer: &mut Q,
    topology: Topology,
    t: u128,
    ring_limit: u128,
) -> Result<Left, Memory>
    requires { ring_limit ≤ threshold_limit }
    ensures left { IfOk result (λ r. IsLeft (left_of no_guards t ring_limit topology) r.topology r.dropped.items r.removed_count) }
    ensures chosen { IfOk result (λ r. r.chosen ≡ None) }
    ensures called { IfOk result
        (λ _. Q.calls reducer.new ≡ Q.calls reducer.old ++ calls_for t (map (placed_cells topology.transform) topology.arcs)) }
{
    indexes_reach();
    unguarded_is_simplified();
    let (objects, arcs, transform) = topology.into_parts();
    let retained = retained_by_itself(alloc, reducer, transform.as_ref(), arcs.into_inner(), t)?;
    let left = reassemble(alloc, objects, transform, retained, ring_limit)?;
    Ok(left)
}

/// What is left of a topology where each arc is reduced by itself.
fn left_apart<Q: Reducer>(
    alloc: Global,
    reducer: &mut Q,
    topology: Topology,
    level: Level,
    ring_limit: u128,
) -> Result<Left, Memory>
    requires level { is_simplifying_level level ≡ true }
    requires limit { ring_limit ≤ threshold_limit }
    ensures left { IfOk result
        (λ r. IsLeft (left_of no_guards (threshold_at level (spec.arc_positions topology)) ring_limit topology)
        r.topology r.dropped.items r.removed_count) }
    ensures chosen { IfOk result (λ r. r.chosen ≡ chosen_for level (threshold_at level (spec.arc_positions topology))) }
    ensures called { IfOk result
        (λ _. Q.calls reducer.new ≡ Q.calls reducer.old ++ calls_at level (map (placed_cells topology.transform) topology.arcs)) }
{
    match level {
        Level::Fixed(t) => left_at(alloc, reducer, topology, t, ring_limit),
        Level::Share { p, q } => left_by_share(alloc, topology, p, q, ring_limit),
    }
}

/// What is left of a topology where all arcs are reduced at once.
fn left_at_once(alloc: Global, topology: Topology, asked: Reduction) -> Result<Left, Memory>
    requires at_once { is_at_once_of asked.guards ≡ true }
    requires level { is_simplifying_level asked.level ≡ true }
    requires limit { asked.ring_limit ≤ threshold_limit }
    ensures left { IfOk result
        (λ r. IsLeft (left_in_turn_of asked.guards (threshold_of asked.guards asked.level (without_small asked.guards asked.ring_limit topology)) asked.ring_limit topology)
        r.topology r.dropped.items r.removed_count) }
    ensures chosen { IfOk result (λ r. r.chosen ≡ chosen_for asked.level (threshold_of asked.guards asked.level (without_small asked.guards asked.ring_limit topology))) }
{
    let (objects, arcs, transform) = topology.into_parts();
    let placed = placed_arcs(alloc, arcs.as_slice(), transform.as_ref())?;
    let left = left_judged(
        alloc,
        objects.into_inner(),
        arcs.as_slice(),
        &placed,
        transform,
        asked,
    )?;
    Ok(left)
}

/// What is left of a topology: its arcs are reduced, at once where guards are asked for, and each by itself otherwise, without the lines and rings
/// that are then left with too few positions, rings under the limit, and arcs that no other line uses. Where guards are asked for and there is a
/// limit, those that are small as they stand go before that, and hold nothing. The cells that stay keep their numbers, and the transform stays.
pub fn left_of_topology<Q: Reducer>(
    alloc: Global,
    reducer: &mut Q,
    topology: Topology,
    asked: Reduction,
) -> Result<Left, Memory>
    requires level { is_simplifying_level asked.level ≡ true }
    requires limit { asked.ring_limit ≤ threshold_limit }
    ensures left { IfOk result
        (λ r. IsLeft (left_in_turn_of asked.guards (threshold_of asked.guards asked.level (without_small asked.guards asked.ring_limit topology)) asked.ring_limit topology)
        r.topology r.dropped.items r.removed_count) }
    ensures chosen { IfOk result (λ r. r.chosen ≡ chosen_for asked.level (threshold_of asked.guards asked.level (without_small asked.guards asked.ring_limit topology))) }
    ensures called { IfOk result (λ _. Q.calls reducer.new
        ≡ Q.calls reducer.old ++ calls_over asked.guards asked.level (map (placed_cells topology.transform) topology.arcs)) }
{
    if is_at_once(asked.guards) {
        return left_at_once(alloc, topology, asked);
    }
    left_apart(alloc, reducer, topology, asked.level, asked.ring_limit)
}

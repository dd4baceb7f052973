// Which positions of the arcs stay, and at which threshold.
ghost use Rattle.std.specs.Prelude.{◌≡◌, ◌<◌, ◌≤◌, ◌∷◌, ◌++◌, [], IfOk, Some, length, map, sum_by, true};
ghost use Rattle.std.specs.List.{AllByRecursion};
ghost use Rattle.effective_area.specs.Calls.{call_at, calls_for};
ghost use Rattle.effective_area.specs.Capped.{AreCapped};
ghost use Rattle.effective_area.specs.Shares.{interior_weights, kept_at, share};
ghost use Rattle.effective_area.specs.Weights.{weights_of};
ghost use Rattle.elimination_meaning.specs.Elimination.{reduce};
ghost use Rattle.layer_topology.specs.Levels.{calls_at, chosen_for, is_simplifying_level, threshold_at};
ghost use Rattle.build_meaning.specs.Simplified.{retained, retained_arcs};

use crate::level::Level;
use effective_area::{
    Reducer, Weight, capped_is_enough, kept_at_is_reduced, kept_by_weights, most_weighed,
    share_threshold, weights_until,
};
use geojson_types::Position;
use json_value::Items;
use owned_values::Memory;
use std::alloc::Global;
use topo_model::{Cell, positions_of_all, retained_positions};

/// The positions of a line that stay at a threshold.
pub fn reduced_line<Q: Reducer>(
    alloc: Global,
    reducer: &mut Q,
    line: &[Position],
    threshold: u128,
) -> Result<Items<Cell>, Memory>
    requires { 2 ≤ length line.now }
    ensures retained { IfOk result (λ cells. cells ≡ retained (reduce threshold line.now) line.now) }
    ensures called { IfOk result (λ _. Q.calls reducer.new ≡ Q.calls reducer.old ++ call_at threshold line.now ∷ []) }
{
    let kept = reducer.kept(alloc, line, threshold)?;
    retained_positions(alloc, &kept, line)
}

/// Of each arc the positions that stay at a threshold. An arc is freed before the next one is reduced.
#[tactic(auto, using(effective_area::proofs::CallLists::one_called, topo_model::proofs::RetainedArcs::retained_more))]
fn reduced_arcs<Q: Reducer>(
    alloc: Global,
    reducer: &mut Q,
    arcs: Vec<Items<Position>>,
    threshold: u128,
) -> Result<Vec<Items<Cell>>, Memory>
    requires { AllByRecursion (λ arc. 2 ≤ length arc) arcs.items }
    ensures retained { IfOk result (λ left. left.items ≡ retained_arcs (map (reduce threshold) arcs.items) arcs.items) }
    ensures called { IfOk result (λ _. Q.calls reducer.new ≡ Q.calls reducer.old ++ calls_for threshold arcs.items) }
{
    let mut left = Vec::with_capacity(alloc, arcs.len())?;
    'arcs: for arc in arcs {
        left.push(reduced_line(alloc, reducer, arc.as_slice(), threshold)?)?;
    }
    Ok(left)
}

/// How many positions the arcs have. More than a number counts are more than memory holds.
fn count_positions(arcs: &[Items<Position>]) -> Result<usize, Memory>
    ensures { IfOk result (λ count. count ≡ sum_by length arcs.now) }
{
    let mut count: usize = 0;
    'arcs: for arc in arcs {
        let Some(more) = count.checked_add(arc.len()) else {
            return Err(Memory);
        };
        count = more;
    }
    Ok(count)
}

/// For each arc the weights of its positions, up to a level once so many of them are removed.
#[tactic(auto, using(crate::proofs::Chosen::capped_with))]
fn weighed_arcs(
    alloc: Global,
    arcs: &[Items<Position>],
    most: usize,
) -> Result<Vec<Vec<Weight>>, Memory>
    ensures { IfOk result (λ all. AreCapped most (map weights_of arcs.now) (map (λ w. w.items) all.items)) }
{
    let mut all = Vec::with_capacity(alloc, arcs.len())?;
    'arcs: for arc in arcs {
        all.push(weights_until(alloc, arc.as_slice(), most)?)?;
    }
    Ok(all)
}

/// The weights of the positions of each arc, and the greatest threshold at which at least p of q of the positions between the ends of all
/// arcs stay. Each arc is weighed once, and no further than the threshold can lie, so a long arc costs no more than reducing it. At the
/// threshold the weights say what stays of each arc.
fn weigh_arcs(
    alloc: Global,
    arcs: &[Items<Position>],
    p: u64,
    q: u64,
) -> Result<(Vec<Vec<Weight>>, u128), Memory>
    requires whole { 0 < q }
    requires part { p ≤ q }
    ensures stays { IfOk result (λ r. map (λ w. kept_at r.1 w.items) r.0.items ≡ map (reduce r.1) arcs.now) }
    ensures chosen { IfOk result (λ r. r.1 ≡ share p q (interior_weights (map weights_of arcs.now))) }
{
    kept_at_is_reduced();
    capped_is_enough();
    let count = count_positions(arcs)?;
    let most = most_weighed(count, p, q);
    let all = weighed_arcs(alloc, arcs, most)?;
    let threshold = share_threshold(alloc, &all, p, q)?;
    Ok((all, threshold))
}

/// Of each arc the numbers of the positions that stay at a threshold by its own weights. These are freed before the next arc's are looked at.
fn kept_of_arcs(
    alloc: Global,
    weights: Vec<Vec<Weight>>,
    threshold: u128,
) -> Result<Vec<Vec<usize>>, Memory>
    ensures { IfOk result (λ kept. map (λ k. k.items) kept.items ≡ map (λ w. kept_at threshold w.items) weights.items) }
{
    let mut kept = Vec::with_capacity(alloc, weights.len())?;
    'arcs: for own in weights {
        kept.push(kept_by_weights(alloc, own.as_slice(), threshold)?)?;
    }
    Ok(kept)
}

/// Of each arc the numbers of the positions that stay at the greatest threshold that keeps a share, and this threshold. No reducer is needed.
pub(crate) fn kept_by_share(
    alloc: Global,
    arcs: &[Items<Position>],
    p: u64,
    q: u64,
) -> Result<(Vec<Vec<usize>>, u128), Memory>
    requires whole { 0 < q }
    requires part { p ≤ q }
    ensures kept { IfOk result (λ r. map (λ k. k.items) r.0.items ≡ map (reduce r.1) arcs.now) }
    ensures chosen { IfOk result (λ r. r.1 ≡ share p q (interior_weights (map weights_of arcs.now))) }
{
    let (weights, threshold) = weigh_arcs(alloc, arcs, p, q)?;
    let kept = kept_of_arcs(alloc, weights, threshold)?;
    Ok((kept, threshold))
}

/// Of each arc the positions that stay at the greatest threshold that keeps a share, and this threshold.
fn shared_out_arcs(
    alloc: Global,
    arcs: Vec<Items<Position>>,
    p: u64,
    q: u64,
) -> Result<(Vec<Items<Cell>>, u128), Memory>
    requires whole { 0 < q }
    requires part { p ≤ q }
    ensures retained { IfOk result (λ r. r.0.items ≡ retained_arcs (map (reduce r.1) arcs.items) arcs.items) }
    ensures chosen { IfOk result (λ r. r.1 ≡ share p q (interior_weights (map weights_of arcs.items))) }
{
    let (kept, threshold) = kept_by_share(alloc, &arcs, p, q)?;
    let left = positions_of_all(alloc, &kept, &arcs)?;
    Ok((left, threshold))
}

/// Of each arc the positions that stay, and the threshold, where it was chosen. Each arc is freed before the next one is reduced.
pub(crate) fn left_of_arcs<Q: Reducer>(
    alloc: Global,
    reducer: &mut Q,
    arcs: Vec<Items<Position>>,
    level: Level,
) -> Result<(Vec<Items<Cell>>, Option<u128>), Memory>
    requires level { is_simplifying_level level ≡ true }
    requires long { AllByRecursion (λ arc. 2 ≤ length arc) arcs.items }
    ensures retained { IfOk result (λ r. r.0.items ≡ retained_arcs (map (reduce (threshold_at level arcs.items)) arcs.items) arcs.items) }
    ensures chosen { IfOk result (λ r. r.1 ≡ chosen_for level (threshold_at level arcs.items)) }
    ensures called { IfOk result (λ _. Q.calls reducer.new ≡ Q.calls reducer.old ++ calls_at level arcs.items) }
{
    match level {
        Level::Fixed(threshold) => Ok((reduced_arcs(alloc, reducer, arcs, threshold)?, None)),
        Level::Share { p, q } => {
            let (left, threshold) = shared_out_arcs(alloc, arcs, p, q)?;
            Ok((left, Some(threshold)))
        }
    }
}

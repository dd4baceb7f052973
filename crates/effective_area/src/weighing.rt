ghost use Rattle.std.specs.Prelude.{◌≡◌, ℕ, ◌-◌, ◌≤◌, ◌++◌, All, IfOk, OnOk, List, length, replicate};
ghost use Rattle.std.specs.BinaryHeap.{IsHeap};
ghost use Rattle.std.specs.List.{range_with_len};
ghost use Rattle.std.specs.List.Sorted.{IsSorted};
ghost use Rattle.geometry.specs.Points.{IsPosition};
ghost use Rattle.geometry.specs.Units.{area_limit};
ghost use Rattle.effective_area.specs.declared.weight.Weight.TheVariants as weight;
ghost use Rattle.effective_area.specs.Capped.{AreFilled, IsCapped, IsFoundTo, or_area};
ghost use Rattle.effective_area.specs.Links.{IsState, queue_cmp};
ghost use Rattle.effective_area.specs.Weights as spec;

use crate::caching::cached_links;
use crate::entry::Entry;
use crate::heap_links::sorted_entries;
use crate::links::Link;
use crate::steps::Steps;
use crate::taking::take_first;
use crate::weight::Weight;
use geometry::{AREA_LIMIT, Position};
use owned_values::Memory;
use std::alloc::Global;

/// A position is within the limit of positions: this does nothing but say so.
fn is_within(position: Position)
    ensures { IsPosition position }
{
    let _x = position.x();
    let _y = position.y();
}

/// The weight of an end for each position of a line.
#[tactic(auto, using(crate::proofs::Weighed::more_within))]
fn all_ends(alloc: Global, arc: &[Position]) -> Result<Vec<Weight>, Memory>
    ensures ends { IfOk result (λ all. all.items ≡ replicate (length arc.now) weight.End) }
    ensures within { OnOk result (All IsPosition arc.now) }
{
    let mut all = Vec::with_capacity(alloc, arc.len())?;
    'positions: for position in arc {
        is_within(*position);
        all.push(Weight::End)?;
    }
    Ok(all)
}

/// Takes out positions between the ends, the first of all each time, until so many are out, and sets the weight of each. It answers
/// the greatest of them.
fn weigh(
    sorted: &mut Vec<Entry>,
    heap: &mut Vec<Entry>,
    arc: &[Position],
    links: &mut [Link],
    weights: &mut [Weight],
    most: usize,
) -> Result<u128, Memory>
    requires two { 2 ≤ length arc.now }
    requires sorted { IsSorted (queue_cmp arc.now) sorted.old.items }
    requires order { IsHeap (queue_cmp arc.now) heap.old.items }
    requires state { IsState area_limit arc.now links.old (sorted.old.items ++ heap.old.items) (length arc.now - 2) (range_with_len 1 (length arc.now - 1)) }
    requires within { All IsPosition arc.now }
    requires ends { weights.old ≡ replicate (length arc.now) weight.End }
    ensures { IfOk result (λ level. IsFoundTo most level (spec.weights_of arc.now) weights.new) }
{
    let mut steps = Steps::none();
    let mut level: u128 = 0;
    let mut left = arc.len() - 2;
    let stop = left.saturating_sub(most);
    'corners: while left > stop {
        let Some(corner) = take_first(sorted, heap, &mut steps, arc, links, AREA_LIMIT)? else {
            return Ok(level);
        };
        level = level.max(corner.area.number());
        weights[corner.index as usize] = Weight::Area(level);
        left -= 1;
    }
    Ok(level)
}

/// This weight, or the level for that of an end.
fn or_level(weight: Weight, level: u128) -> Weight
    ensures { result ≡ or_area level weight }
{
    match weight {
        Weight::End => Weight::Area(level),
        known => known,
    }
}

/// Gives the positions between the ends of a line that have no weight yet the level.
fn fill(weights: &mut [Weight], level: u128)
    requires two { 2 ≤ length weights.old }
    ensures { AreFilled level weights.old weights.new }
{
    'positions: for i in 1..weights.len() - 1 {
        weights[i] = or_level(weights[i], level);
    }
}

/// The weight of each position of a line as `weights` has it, up to a level: once so many positions are removed, the greatest weight
/// of these stands for the weights of all others between the ends, which are no less. In time n log n.
#[tactic(auto, using(crate::proofs::Stopped::filled))]
pub fn weights_until(alloc: Global, arc: &[Position], most: usize) -> Result<Vec<Weight>, Memory>
    ensures { IfOk result (λ weights. IsCapped most (spec.weights_of arc.now) weights.items) }
{
    let mut weights = all_ends(alloc, arc)?;
    if arc.len() < 2 {
        return Ok(weights);
    }
    let mut steps = Steps::none();
    let mut links = Vec::new(alloc);
    cached_links(&mut links, &mut steps, arc, AREA_LIMIT)?;
    let mut sorted = Vec::new(alloc);
    sorted_entries(&mut sorted, &mut steps, arc, &links, AREA_LIMIT)?;
    let mut heap = Vec::new(alloc);
    let level = weigh(&mut sorted, &mut heap, arc, &mut links, &mut weights, most)?;
    fill(&mut weights, level);
    Ok(weights)
}

/// The weight of each position of a line (Visvalingam and Whyatt 1993), in time n log n: a reducer keeps at a threshold the ends
/// and the positions whose weight isn't under it. Of fewer than two positions each is an end.
#[tactic(auto, using(crate::proofs::Stopped::all_reported, crate::proofs::Turns::ok_also))]
pub fn weights(alloc: Global, arc: &[Position]) -> Result<Vec<Weight>, Memory>
    ensures { IfOk result (λ weights. weights.items ≡ spec.weights_of arc.now) }
{
    weights_until(alloc, arc, arc.len() + 1)
}

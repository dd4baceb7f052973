ghost use Rattle.std.specs.Prelude.{◌≡◌, ℕ, ◌*◌, ◌^◌, ◌-◌, ◌<◌, ◌≤◌, ◌++◌, IfOk, List, OnOk, count_by, length, map, min};
ghost use Rattle.std.specs.List.{filter_map};
ghost use Rattle.std.specs.List.Sorted.{IsNonDecreasing};
ghost use Rattle.geometry.specs.Points.{Point};
ghost use Rattle.elimination_meaning.specs.Elimination.{reduce};
ghost use Rattle.effective_area.specs.Capped.{IsEnough};
ghost use Rattle.effective_area.specs.Shares.{interior_weights, kept_at, share};
ghost use Rattle.effective_area.specs.Shares as spec;
ghost use Rattle.effective_area.specs.Weights.{weights_of};

use crate::weight::Weight;
use owned_values::Memory;
use std::alloc::Global;

/// The area of a weight, unless it is that of an end.
fn area_of(weight: Weight) -> Option<u128>
    ensures { result ≡ spec.area_of weight }
{
    match weight {
        Weight::End => None,
        Weight::Area(area) => Some(area),
    }
}

/// How many weights of a line aren't those of ends.
fn count_areas(weights: &[Weight]) -> usize
    ensures { result ≡ length (filter_map spec.area_of weights.now) }
{
    weights.iter().filter_map(|weight| area_of(*weight)).count()
}

/// How many weights of lines aren't those of ends: the greatest number, where there are more than that, which no memory holds.
fn count_all(arcs: &[Vec<Weight>]) -> usize
    ensures { result ≡ min (length (interior_weights (map (λ w. w.items) arcs.now))) (2 ^ 64 - 1) }
{
    let mut count: usize = 0;
    'arcs: for weights in arcs {
        count = count.saturating_add(count_areas(weights.as_slice()));
    }
    count
}

/// The areas of a line's weights, after others.
fn push_areas(areas: &mut Vec<u128>, weights: &[Weight]) -> Result<(), Memory>
    ensures { OnOk result (areas.new.items ≡ areas.old.items ++ filter_map spec.area_of weights.now) }
{
    'weights: for weight in weights {
        if let Some(area) = area_of(*weight) {
            areas.push(area)?;
        }
    }
    Ok(())
}

/// The areas of the weights of lines, in order.
fn all_areas(alloc: Global, arcs: &[Vec<Weight>]) -> Result<Vec<u128>, Memory>
    ensures { IfOk result (λ areas. areas.items ≡ interior_weights (map (λ w. w.items) arcs.now)) }
{
    let mut areas = Vec::with_capacity(alloc, count_all(arcs))?;
    'arcs: for weights in arcs {
        push_areas(&mut areas, weights.as_slice())?;
    }
    Ok(areas)
}

/// The least number of so many that is at least p / q of them.
fn least_part(count: usize, p: u64, q: u64) -> usize
    requires positive { 0 < q }
    requires part { p ≤ q }
    ensures enough { p * count ≤ q * result }
    ensures least { (n : ℕ) → p * count ≤ q * n → result ≤ n }
{
    (p as u128 * count as u128).div_ceil(q as u128) as usize
}

/// How many positions of an arc have to be weighed at most, where p / q of so many positions between the ends of arcs are to stay.
pub fn most_weighed(count: usize, p: u64, q: u64) -> usize
    requires positive { 0 < q }
    requires part { p ≤ q }
    ensures enough { IsEnough p q count result }
    ensures least { (most : ℕ) → IsEnough p q count most → result ≤ most }
{
    count.saturating_sub(least_part(count, p, q).max(1) - 1)
}

/// The threshold of a share of rising weights.
fn rising_threshold(weights: &[u128], p: u64, q: u64) -> u128
    requires positive { 0 < q }
    requires part { p ≤ q }
    requires rising { IsNonDecreasing weights.now }
    ensures { result ≡ share p q weights.now }
{
    if weights.is_empty() {
        return 0;
    }
    let kept = least_part(weights.len(), p, q).max(1);
    weights[weights.len() - kept]
}

/// Of zero and the weights of the positions between the ends of lines the greatest one, as a threshold in square units, at which
/// at least p / q of these positions stay. It is given the weights of each line. More of them may stay, since those of equal weight
/// stay together. It reckons in whole numbers, and takes time n log n. The only error is want of memory.
#[tactic(auto, using(crate::proofs::ShareLaws::share_moved))]
pub fn share_threshold(alloc: Global, arcs: &[Vec<Weight>], p: u64, q: u64) -> Result<u128, Memory>
    requires positive { 0 < q }
    requires part { p ≤ q }
    ensures { IfOk result (λ threshold. threshold ≡ share p q (interior_weights (map (λ w. w.items) arcs.now))) }
{
    let mut areas = all_areas(alloc, arcs)?;
    areas.sort_unstable();
    Ok(rising_threshold(areas.as_slice(), p, q))
}

/// Whether the position of a weight stays at a threshold.
fn stays(weight: Weight, threshold: u128) -> bool
    ensures { result ≡ spec.stays_at threshold weight }
{
    match weight {
        Weight::End => true,
        Weight::Area(area) => area >= threshold,
    }
}

/// How many positions of a line stay at a threshold.
fn count_staying(weights: &[Weight], threshold: u128) -> usize
    ensures { result ≡ count_by (spec.stays_at threshold) weights.now }
{
    weights
        .iter()
        .filter(|weight| stays(**weight, threshold))
        .count()
}

/// The rising indexes of the positions of a line that stay at a threshold in square units: those of the ends, and of the
/// positions whose weight isn't under it. Given the weights of a line, they are those that a reducer keeps of it. The only error
/// is want of memory.
#[tactic(auto, using(crate::proofs::Gathered::indexes_kept_more, crate::proofs::Gathered::indexes_kept_all, crate::proofs::KeptWeights::kept_at_is_reduced))]
pub fn kept_by_weights(
    alloc: Global,
    weights: &[Weight],
    threshold: u128,
) -> Result<Vec<usize>, Memory>
    ensures kept { IfOk result (λ kept. kept.items ≡ kept_at threshold weights.now) }
    ensures reduced { IfOk result (λ kept. (ps : List Point) → weights.now ≡ weights_of ps → kept.items ≡ reduce threshold ps) }
{
    let mut kept = Vec::with_capacity(alloc, count_staying(weights, threshold))?;
    'weights: for (i, weight) in weights.iter().enumerate() {
        if stays(*weight, threshold) {
            kept.push(i)?;
        }
    }
    Ok(kept)
}

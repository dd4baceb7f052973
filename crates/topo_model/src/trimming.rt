// The arcs that are used, and their new numbers.
ghost use Rattle.std.specs.Prelude.{◌≡◌, ℕ, Bool, IfOk, length, map, negsuc, pos, sum, ◌-ℤ◌, ◌-◌};
ghost use Rattle.topo_model.specs.Renumbering.{renumbered_by};
ghost use Rattle.topo_model.specs.Uses.{answers, chosen};
ghost use Rattle.build_meaning.specs.Trimming.{new_index_from};
ghost use Rattle.byte_ends.specs.Ends.{saturated};

use json_value::Items;
use owned_values::Memory;
use std::alloc::Global;
use topojson_types::{ArcRef, Cell};

/// For each arc the index that it has, forwards, where only the arcs with a set flag are left: how many of these stand before it.
pub fn renumbering(alloc: Global, used: &[bool]) -> Result<Vec<ArcRef>, Memory>
    ensures many { IfOk result (λ renumbering. length renumbering.items ≡ length used.now) }
    ensures renumbering { IfOk result (λ renumbering. (u : ℕ → Bool) → used.now ≡ answers u 0 (length used.now)
        → renumbering.items ≡ answers (λ i. pos (new_index_from u 0 i)) 0 (length used.now)) }
{
    let mut renumbering = Vec::with_capacity(alloc, used.len())?;
    let mut new_index: usize = 0;
    'arcs: for flag in used {
        renumbering.push(ArcRef::forward(new_index))?;
        if *flag {
            new_index += 1;
        }
    }
    Ok(renumbering)
}

/// The ones' complement of an index: the same arc in the other direction.
fn complement(index: ArcRef) -> ArcRef
    ensures { result ≡ negsuc 0 -ℤ index }
{
    ArcRef::of(-1 - index.written())
}

/// The index of the same arc in the same direction by the new indexes. An index that names no arc stays.
fn renumber(index: ArcRef, renumbering: &[ArcRef]) -> ArcRef
    ensures { result ≡ renumbered_by renumbering.now index }
{
    let Some(new_index) = renumbering.get(index.index()) else {
        return index;
    };
    if index.reversed() {
        complement(*new_index)
    } else {
        *new_index
    }
}

/// Each index of a line or ring is replaced by that of its arc among the arcs that stay. An index that names no arc stays.
pub fn renumber_all(refs: &mut [ArcRef], renumbering: &[ArcRef])
    ensures { refs.new ≡ map (renumbered_by renumbering.now) refs.old }
{
    'refs: for index in refs.iter_mut() {
        *index = renumber(*index, renumbering);
    }
}

/// The arcs with a set flag, in order. They are moved.
pub fn kept_arcs(
    alloc: Global,
    arcs: Vec<Items<Cell>>,
    used: &[bool],
) -> Result<Vec<Items<Cell>>, Memory>
    ensures { IfOk result (λ kept. kept.items ≡ chosen used.now arcs.items) }
{
    let mut kept = Vec::with_capacity(alloc, arcs.len())?;
    let mut flags = used;
    'arcs: for arc in arcs {
        let Some((flag, rest)) = flags.split_first() else {
            continue;
        };
        flags = rest;
        if !*flag {
            continue;
        }
        kept.push(arc)?;
    }
    Ok(kept)
}

/// The sum of the counts with a set flag.
pub fn used_sum(counts: &[usize], used: &[bool]) -> u128
    ensures { result ≡ sum (chosen used.now counts.now) }
{
    let mut total: u128 = 0;
    let mut flags = used;
    'counts: for count in counts {
        let Some((flag, rest)) = flags.split_first() else {
            continue;
        };
        flags = rest;
        if !*flag {
            continue;
        }
        total += *count as u128;
    }
    total
}

/// How many of so many positions are removed where so many stay: a count that stays at `u64::MAX` where it would pass it.
pub fn removed_count(before: u128, after: u128) -> u64
    ensures { result ≡ saturated (before - after) }
{
    let taken = before.saturating_sub(after);
    if taken > u64::MAX as u128 {
        u64::MAX
    } else {
        taken as u64
    }
}

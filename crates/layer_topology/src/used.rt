// The arcs that are used, which flags tell, and what stays of all where numbers are given for these.
ghost use Rattle.std.specs.Prelude.{◌≡◌, ℕ, Bool, IfOk, length, map};
ghost use Rattle.std.specs.List.{AllByRecursion};
ghost use Rattle.std.specs.Vec.Iter.{into_iter_items};
ghost use Rattle.build_meaning.specs.InTurn.{spread};
ghost use Rattle.build_meaning.specs.Simplified.{retained_arcs};
ghost use Rattle.geometry.specs.Joins.{first_of, or_empty};
ghost use Rattle.geometry.specs.Lists.{tail};
ghost use Rattle.layer_topology.specs.Used.{cells_left, numbers_left};
ghost use Rattle.topo_model.specs.Uses.{answers, chosen};
ghost use Rattle.topojson_types.specs.Validity.{IsArc};

use extraction::cells;
use geojson_types::Position;
use json_value::Items;
use owned_values::Memory;
use std::alloc::Global;
use std::vec::IntoIter;
use topo_model::retained_cells;
use topojson_types::{Cell, positions};

/// The positions of the arcs with a set flag.
#[tactic(auto, using(topo_model::proofs::Chosen::begins))]
pub(crate) fn used_lines(
    alloc: Global,
    arcs: &[Items<Cell>],
    used: &[bool],
) -> Result<Vec<Items<Position>>, Memory>
    requires { AllByRecursion (IsArc None) arcs.now }
    ensures { IfOk result (λ lines. lines.items ≡ chosen used.now arcs.now) }
{
    let mut lines = Vec::new(alloc);
    let mut later = used;
    'arcs: for arc in arcs {
        let Some((flag, rest)) = later.split_first() else {
            continue;
        };
        later = rest;
        if !*flag {
            continue;
        }
        lines.push(positions(alloc, None, arc.as_slice())?)?;
    }
    Ok(lines)
}

/// The cells of all positions of arcs.
pub(crate) fn whole_arcs(
    alloc: Global,
    arcs: &[Items<Position>],
) -> Result<Vec<Items<Cell>>, Memory>
    ensures { IfOk result (λ whole. whole.items ≡ arcs.now) }
{
    let mut whole = Vec::with_capacity(alloc, arcs.len())?;
    'arcs: for arc in arcs {
        whole.push(cells(alloc, arc.as_slice())?)?;
    }
    Ok(whole)
}

/// The next list of numbers, or none where there is no more list.
fn next_numbers(alloc: Global, given: &mut IntoIter<Vec<usize>, Global>) -> Vec<usize>
    ensures next { result.items ≡ or_empty (first_of (map (λ k. k.items) (into_iter_items given.old))) }
    ensures rest { map (λ k. k.items) (into_iter_items given.new) ≡ tail (map (λ k. k.items) (into_iter_items given.old)) }
{
    match given.next() {
        Some(numbers) => numbers,
        None => Vec::new(alloc),
    }
}

/// What stays of an arc: of one that is used the cells with the next numbers, and else all.
fn cells_in_turn(
    alloc: Global,
    used: bool,
    given: &mut IntoIter<Vec<usize>, Global>,
    arc: &[Cell],
) -> Result<Items<Cell>, Memory>
    ensures cells { IfOk result (λ cells. cells ≡ cells_left used (map (λ k. k.items) (into_iter_items given.old)) arc.now) }
    ensures rest { map (λ k. k.items) (into_iter_items given.new) ≡ numbers_left used (map (λ k. k.items) (into_iter_items given.old)) }
{
    if !used {
        return Ok(Items::of(arc.to_vec(alloc)?));
    }
    let numbers = next_numbers(alloc, given);
    retained_cells(alloc, numbers.as_slice(), arc)
}

/// Of each arc the cells that stay: of those with a set flag the ones with the numbers that are given for them in turn, and all of the others.
pub(crate) fn retained_in_turn(
    alloc: Global,
    used: &[bool],
    numbers: Vec<Vec<usize>>,
    arcs: &[Items<Cell>],
) -> Result<Vec<Items<Cell>>, Memory>
    requires { length used.now ≡ length arcs.now }
    ensures { IfOk result (λ left. (passes : ℕ → Bool) → used.now ≡ answers passes 0 (length arcs.now)
        → left.items ≡ retained_arcs (spread passes 0 (map (λ k. k.items) numbers.items) arcs.now) arcs.now) }
{
    let mut left = Vec::with_capacity(alloc, arcs.len())?;
    let mut given = numbers.into_iter();
    for i in 0..arcs.len() {
        left.push(cells_in_turn(alloc, used[i], &mut given, arcs[i].as_slice())?)?;
    }
    Ok(left)
}

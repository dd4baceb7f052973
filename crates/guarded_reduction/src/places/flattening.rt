// The positions of arcs, one arc after another, and the neighbours of each.
ghost use Rattle.std.specs.Prelude.{◌≡◌, ◌++◌, ◌<◌, ◌^◌, IfOk, OnOk, length};
ghost use Rattle.geometry.specs.Lists.{joined};
ghost use Rattle.guarded_reduction.specs.First.{after_index, arc_links, before_index, links_of};
ghost use Rattle.guarded_reduction.specs.SideBySide.{afters_in, befores_in};

use crate::places::neighbours::Neighbours;
use geometry::Position;
use owned_values::{Items, Memory};
use std::alloc::Global;

/// As many places as have numbers of 32 bits. For more there is no memory.
const MOST_PLACES: usize = 1 << 32;

/// The positions of all arcs.
#[tactic(auto, using(crate::proofs::Flattened::positions_all, crate::proofs::Flattened::positions_more))]
pub fn all_positions(alloc: Global, arcs: &[Items<Position>]) -> Result<Vec<Position>, Memory>
    ensures positions { IfOk result (λ all. all.items ≡ joined arcs.now) }
    ensures few { IfOk result (λ all. length all.items < 2 ^ 32) }
{
    let mut all = Vec::new(alloc);
    'arcs: for arc in arcs {
        all.extend_from_slice(arc.as_slice())?;
    }
    if all.len() >= MOST_PLACES {
        return Err(Memory);
    }
    Ok(all)
}

/// A place in short. For more there is no memory.
fn short(place: usize) -> Result<u32, Memory>
    ensures { IfOk result (λ n. n ≡ place) }
{
    match u32::try_from(place) {
        Ok(place) => Ok(place),
        Err(_) => Err(Memory),
    }
}

/// Puts the neighbours of each of an arc's places after the others.
#[tactic(auto, using(crate::proofs::Flattened::one_more_link, crate::proofs::Flattened::so_many))]
fn put_neighbours(all: &mut Vec<Neighbours>, n: usize) -> Result<(), Memory>
    ensures befores { OnOk result (befores_in all.new.items ≡ befores_in all.old.items ++ arc_links before_index (length all.old.items) n) }
    ensures afters { OnOk result (afters_in all.new.items ≡ afters_in all.old.items ++ arc_links after_index (length all.old.items) n) }
{
    for i in 0..n {
        let place = all.len();
        let before = short(if i == 0 { place } else { place - 1 })?;
        let after = short(if n - i == 1 { place } else { place + 1 })?;
        all.push(Neighbours { before, after })?;
    }
    Ok(())
}

/// The neighbours of each place.
#[tactic(auto, using(crate::proofs::Flattened::all_linked, crate::proofs::Flattened::links_more))]
pub fn all_neighbours(alloc: Global, arcs: &[Items<Position>]) -> Result<Vec<Neighbours>, Memory>
    ensures befores { IfOk result (λ all. befores_in all.items ≡ links_of before_index 0 arcs.now) }
    ensures afters { IfOk result (λ all. afters_in all.items ≡ links_of after_index 0 arcs.now) }
{
    let mut all = Vec::new(alloc);
    'arcs: for arc in arcs {
        put_neighbours(&mut all, arc.len())?;
    }
    Ok(all)
}

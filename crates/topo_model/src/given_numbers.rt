// Arcs of which the positions stay whose numbers are given for all arcs at once.
ghost use Rattle.std.specs.Prelude.{◌≡◌, IfOk, length, map};
ghost use Rattle.build_meaning.specs.Simplified.{retained_arcs};

use crate::retaining::{retained_cells, retained_positions};
use geojson_types::Position;
use json_value::Items;
use owned_values::Memory;
use std::alloc::Global;
use topojson_types::Cell;

/// Of each arc the cells of the positions with the numbers of its own list.
pub fn positions_of_all(
    alloc: Global,
    kept: &[Vec<usize>],
    arcs: &[Items<Position>],
) -> Result<Vec<Items<Cell>>, Memory>
    requires { length kept.now ≡ length arcs.now }
    ensures { IfOk result (λ retained. retained.items ≡ retained_arcs (map (λ k. k.items) kept.now) arcs.now) }
{
    let mut retained = Vec::with_capacity(alloc, arcs.len())?;
    for (i, numbers) in kept.iter().enumerate() {
        retained.push(retained_positions(alloc, numbers.as_slice(), arcs[i].as_slice())?)?;
    }
    Ok(retained)
}

/// Of each arc the cells with the numbers of its own list.
pub fn cells_of_all(
    alloc: Global,
    kept: &[Vec<usize>],
    arcs: &[Items<Cell>],
) -> Result<Vec<Items<Cell>>, Memory>
    requires { length kept.now ≡ length arcs.now }
    ensures { IfOk result (λ retained. retained.items ≡ retained_arcs (map (λ k. k.items) kept.now) arcs.now) }
{
    let mut retained = Vec::with_capacity(alloc, arcs.len())?;
    for (i, numbers) in kept.iter().enumerate() {
        retained.push(retained_cells(alloc, numbers.as_slice(), arcs[i].as_slice())?)?;
    }
    Ok(retained)
}

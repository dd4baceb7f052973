// Arcs of which only some positions stay.
ghost use Rattle.std.specs.Prelude.{◌≡◌, IfOk, length};
ghost use Rattle.build_meaning.specs.Simplified.{retained};
ghost use Rattle.elimination_meaning.specs.Rising.{RisesOver};

use geojson_types::Position;
use json_value::Items;
use owned_values::Memory;
use std::alloc::Global;
use topojson_types::Cell;

/// The cells of the positions with these numbers. They take no more room than they need.
pub fn retained_positions(
    alloc: Global,
    numbers: &[usize],
    positions: &[Position],
) -> Result<Items<Cell>, Memory>
    ensures { IfOk result (λ cells. cells ≡ retained numbers.now positions.now) }
{
    let mut cells = Vec::with_capacity(alloc, numbers.len())?;
    'numbers: for number in numbers {
        let Some(position) = positions.get(*number) else {
            continue;
        };
        cells.push(Cell::of(*position))?;
    }
    Ok(Items::of(cells))
}

/// The cells with these numbers. They take no more room than they need.
pub fn retained_cells(
    alloc: Global,
    numbers: &[usize],
    cells: &[Cell],
) -> Result<Items<Cell>, Memory>
    ensures { IfOk result (λ stay. stay ≡ retained numbers.now cells.now) }
{
    let mut stay = Vec::with_capacity(alloc, numbers.len())?;
    'numbers: for number in numbers {
        let Some(cell) = cells.get(*number) else {
            continue;
        };
        stay.push(*cell)?;
    }
    Ok(Items::of(stay))
}

/// The cells of an arc with these numbers, which rise from its first to its last. Where none goes the arc itself is given back.
pub fn retained_arc(
    alloc: Global,
    numbers: &[usize],
    arc: Items<Cell>,
) -> Result<Items<Cell>, Memory>
    requires { RisesOver (length arc) numbers.now }
    ensures { IfOk result (λ stay. stay ≡ retained numbers.now arc) }
{
    if numbers.len() == arc.len() {
        return Ok(arc);
    }
    retained_cells(alloc, numbers, arc.as_slice())
}

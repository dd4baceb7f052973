// Where the cells of arcs lie.
ghost use Rattle.std.specs.Prelude.{◌≡◌, IfOk};
ghost use Rattle.std.specs.List.{AllByRecursion};
ghost use Rattle.std.specs.Option.{option_copied};
ghost use Rattle.build_meaning.specs.Thresholds.{placed_cells as all_cells};
ghost use Rattle.topojson_types.specs.Decoding.{placed_arcs as all_placed};
ghost use Rattle.topojson_types.specs.Validity.{IsPlace};

use json_value::Items;
use owned_values::Memory;
use std::alloc::Global;
use topojson_types::{Cell, Transform, position_at};

/// The positions that cells stand for, as cells.
fn placed_cells(
    alloc: Global,
    cells: &[Cell],
    transform: Option<&Transform>,
) -> Result<Items<Cell>, Memory>
    requires { AllByRecursion (IsPlace (option_copied transform)) cells.now }
    ensures { IfOk result (λ placed. placed ≡ all_cells (option_copied transform.entry) cells.now) }
{
    let mut placed = Vec::with_capacity(alloc, cells.len())?;
    'cells: for cell in cells {
        let position = position_at(transform, *cell);
        placed.push(Cell::of(position))?;
    }
    Ok(Items::of(placed))
}

/// Of each arc the positions that its cells stand for.
pub fn placed_arcs(
    alloc: Global,
    arcs: &[Items<Cell>],
    transform: Option<&Transform>,
) -> Result<Vec<Items<Cell>>, Memory>
    requires { AllByRecursion (λ arc. AllByRecursion (IsPlace (option_copied transform)) arc) arcs.now }
    ensures { IfOk result (λ placed. placed.items ≡ all_placed (option_copied transform.entry) arcs.now) }
{
    let mut placed = Vec::with_capacity(alloc, arcs.len())?;
    'arcs: for arc in arcs {
        placed.push(placed_cells(alloc, arc.as_slice(), transform)?)?;
    }
    Ok(placed)
}

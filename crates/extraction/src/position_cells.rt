// Cells that hold positions.
ghost use Rattle.std.specs.Prelude.{◌≡◌, IfOk};

use geojson_types::Position;
use json_value::Items;
use owned_values::Memory;
use std::alloc::Global;
use topojson_types::Cell;

/// The cells of positions.
pub fn cells(alloc: Global, positions: &[Position]) -> Result<Items<Cell>, Memory>
    ensures { IfOk result (λ cs. cs ≡ positions.now) }
{
    let mut read = Vec::with_capacity(alloc, positions.len())?;
    'positions: for position in positions {
        read.push(Cell::of(*position))?;
    }
    Ok(Items::of(read))
}

// Cells as they are written (TopoJSON 1.0, section 2.1.1).
ghost use Rattle.geometry.specs.Units.{unit_places};
ghost use Rattle.topojson_types.specs.Values.{position_value};

use geojson_types::PLACES;
use json_writer::{Out, PutValue, put_pair};
use topojson_types::Cell;

/// The way to write the cells of a topology without a transform: positions, x first.
pub struct Positions;

impl PutValue<Cell> for Positions {
    ghost value = { position_value unit_places };

    fn put<O: Out>(cell: &Cell, out: &mut O) {
        put_pair(cell.x(), cell.y(), PLACES, out);
    }
}

/// The way to write cells of a grid: two whole numbers, x first.
pub struct GridCells;

impl PutValue<Cell> for GridCells {
    ghost value = { position_value 0 };

    fn put<O: Out>(cell: &Cell, out: &mut O) {
        put_pair(cell.x(), cell.y(), 0, out);
    }
}

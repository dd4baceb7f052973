// Arcs on a grid as they are written (TopoJSON 1.0, section 2.1.3).
ghost use Rattle.std.specs.Prelude.{◌≡◌, ◌++◌, map};
ghost use Rattle.json_value.specs.Text.{json_text};
ghost use Rattle.json_value.specs.declared.json.Json.TheVariants as j;
ghost use Rattle.json_writer.specs.Standing.{Start};
ghost use Rattle.topojson_types.specs.Differences.{difference, deltas};
ghost use Rattle.topojson_types.specs.Values.{position_value};

use json_value::Items;
use json_writer::{Out, PutValue, put_comma, put_pair};
use topojson_types::Cell;

/// Puts how far a cell lies from the one before.
fn put_difference<O: Out>(before: Cell, cell: Cell, out: &mut O)
    ensures text { O.text out.new ≡ O.text out.old ++ json_text (position_value 0 (difference before cell)) }
    ensures kept { (start : Start) → O.good out.old start → O.good out.new start }
{
    let x = cell.x() - before.x();
    let y = cell.y() - before.y();
    put_pair(x, y, 0, out);
}

/// Puts an arc: the first cell, and then how far each lies from the one before.
fn put_differences<O: Out>(cells: &[Cell], out: &mut O)
    ensures text { O.text out.new ≡ O.text out.old ++ json_text (j.Array (map (position_value 0) (deltas cells.now))) }
    ensures kept { (start : Start) → O.good out.old start → O.good out.new start }
{
    out.put(b"[");
    let mut is_first = true;
    let mut before = Cell::at(0, 0);
    'cells: for cell in cells {
        put_comma(is_first, out);
        is_first = false;
        put_difference(before, *cell, out);
        before = *cell;
    }
    out.put(b"]");
}

/// The way to write an arc of a topology with a transform.
pub struct Differences;

impl PutValue<Items<Cell>> for Differences {
    ghost value = { λ cells. j.Array (map (position_value 0) (deltas cells)) };

    fn put<O: Out>(cells: &Items<Cell>, out: &mut O) {
        put_differences(cells.as_slice(), out);
    }
}

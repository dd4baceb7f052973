// Positions and linear rings as they are written.
ghost use Rattle.std.specs.Prelude.{◌≡◌, ◌++◌};
ghost use Rattle.json_writer.specs.Standing.{Start};
ghost use Rattle.json_value.specs.Text.{json_text};
ghost use Rattle.topojson_writer.specs.FeatureValues.{position_value, positions_value};

use geojson_types::{PLACES, Position, Ring};
use json_writer::{Out, PutValue, put_array, put_pair};

/// Puts a position, x first.
pub fn put_position<O: Out>(position: Position, out: &mut O)
    ensures text { O.text out.new ≡ O.text out.old ++ json_text (position_value position) }
    ensures kept { (start : Start) → O.good out.old start → O.good out.new start }
{
    put_pair(position.x(), position.y(), PLACES, out);
}

/// The way to write positions.
pub struct Positions;

impl PutValue<Position> for Positions {
    ghost value = { position_value };

    fn put<O: Out>(position: &Position, out: &mut O) {
        put_position(*position, out);
    }
}

/// The way to write linear rings.
pub struct Rings;

impl PutValue<Ring> for Rings {
    ghost value = { positions_value };

    fn put<O: Out>(ring: &Ring, out: &mut O) {
        put_array::<Positions, Position, O>(ring.as_slice(), out);
    }
}

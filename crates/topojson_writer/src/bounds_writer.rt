// Bounding boxes as they are written (TopoJSON 1.0, section 3).
ghost use Rattle.std.specs.Prelude.{◌≡◌, ◌++◌, Some};
ghost use Rattle.json_writer.specs.Standing.{Start};
ghost use Rattle.geometry.specs.Units.{unit_places};
ghost use Rattle.topojson_types.specs.Values.{number_value, members_of_bounds};
ghost use Rattle.topojson_writer.specs.Texts.{members_text};

use geojson_types::{PLACES, Position};
use json_writer::{Out, PutValue, put_array, put_decimal};

/// The way to write coordinates: least decimals.
struct Coordinates;

impl PutValue<i64> for Coordinates {
    ghost value = { number_value unit_places };

    fn put<O: Out>(units: &i64, out: &mut O) {
        put_decimal(*units, PLACES, out);
    }
}

/// Puts the member `bbox` after a comma: the least coordinates and then the greatest, x first.
fn put_bounds_member<O: Out>(least: Position, greatest: Position, out: &mut O)
    ensures text { O.text out.new ≡ O.text out.old ++ members_text (members_of_bounds (Some (least, greatest))) }
    ensures kept { (start : Start) → O.good out.old start → O.good out.new start }
{
    let coordinates = [least.x(), least.y(), greatest.x(), greatest.y()];
    out.put(b",\"bbox\":");
    put_array::<Coordinates, i64, O>(&coordinates, out);
}

/// Puts the member `bbox` after a comma, if there is a position.
#[tactic(auto, using(crate::proofs::GeometryObjects::none))]
pub fn put_bounds<O: Out>(bounds: Option<(Position, Position)>, out: &mut O)
    ensures text { O.text out.new ≡ O.text out.old ++ members_text (members_of_bounds bounds) }
    ensures kept { (start : Start) → O.good out.old start → O.good out.new start }
{
    if let Some((least, greatest)) = bounds {
        put_bounds_member(least, greatest, out);
    }
}

// Geometries as they are written (RFC 7946, section 3.1).
ghost use Rattle.std.specs.Prelude.{◌≡◌, ◌++◌, map};
ghost use Rattle.json_writer.specs.Standing.{Start};
ghost use Rattle.json_value.specs.Text.{json_text};
ghost use Rattle.json_value.specs.declared.json.Json.TheVariants as j;
ghost use Rattle.topojson_writer.specs.FeatureTexts.{head_text, contents_value};
ghost use Rattle.topojson_writer.specs.FeatureValues.{shape_value};

use crate::position_writer::{Positions, Rings, put_position};
use geojson_types::{Geometry, Position, Ring, Shape};
use json_writer::{ArrayOf, Out, put_array, put_comma};
use owned_values::Items;

/// What stands in front of the coordinates or the geometries: the type, and the member's name.
#[tactic(auto, using(crate::proofs::Rules::outs), unfolding(crate::specs::FeatureTexts::head_text))]
pub fn head<P, L, R>(shape: &Geometry<P, L, R>) -> &'static [u8]
    ensures { result.now ≡ head_text shape.now }
{
    match shape {
        Geometry::Point(_) => b"{\"type\":\"Point\",\"coordinates\":",
        Geometry::MultiPoint(_) => b"{\"type\":\"MultiPoint\",\"coordinates\":",
        Geometry::Line(_) => b"{\"type\":\"LineString\",\"coordinates\":",
        Geometry::Lines(_) => b"{\"type\":\"MultiLineString\",\"coordinates\":",
        Geometry::Area(_) => b"{\"type\":\"Polygon\",\"coordinates\":",
        Geometry::Areas(_) => b"{\"type\":\"MultiPolygon\",\"coordinates\":",
        Geometry::Group(_) => b"{\"type\":\"GeometryCollection\",\"geometries\":",
    }
}

/// Puts the coordinates, or the geometries of a GeometryCollection.
#[cycle(shapes)]
#[tactic(auto, using(crate::proofs::Rules::shapes))]
fn put_contents<O: Out>(shape: &Shape, out: &mut O)
    ensures text { O.text out.new ≡ O.text out.old ++ json_text (contents_value shape.now) }
    ensures kept { (start : Start) → O.good out.old start → O.good out.new start }
{
    match shape {
        Geometry::Point(position) => put_position(*position, out),
        Geometry::MultiPoint(positions) => {
            put_array::<Positions, Position, O>(positions.as_slice(), out);
        }
        Geometry::Line(line) => put_array::<Positions, Position, O>(line.as_slice(), out),
        Geometry::Lines(lines) => {
            put_array::<ArrayOf<Positions>, Items<Position>, O>(lines.as_slice(), out);
        }
        Geometry::Area(rings) => put_array::<Rings, Ring, O>(rings.as_slice(), out),
        Geometry::Areas(polygons) => {
            put_array::<ArrayOf<Rings>, Items<Ring>, O>(polygons.as_slice(), out);
        }
        Geometry::Group(shapes) => put_shapes(shapes.as_slice(), out),
    }
}

/// Puts the geometries of a GeometryCollection.
#[cycle(shapes)]
fn put_shapes<O: Out>(shapes: &[Shape], out: &mut O)
    ensures text { O.text out.new ≡ O.text out.old ++ json_text (j.Array (map shape_value shapes.now)) }
    ensures kept { (start : Start) → O.good out.old start → O.good out.new start }
{
    out.put(b"[");
    let mut is_first = true;
    'shapes: for shape in shapes {
        put_comma(is_first, out);
        is_first = false;
        put_shape(shape, out);
    }
    out.put(b"]");
}

/// Puts a geometry: its type, and its coordinates or its geometries.
#[cycle(shapes)]
#[tactic(auto, using(crate::proofs::Rules::shapes))]
pub fn put_shape<O: Out>(shape: &Shape, out: &mut O)
    ensures text { O.text out.new ≡ O.text out.old ++ json_text (shape_value shape.now) }
    ensures kept { (start : Start) → O.good out.old start → O.good out.new start }
{
    out.put(head(shape));
    put_contents(shape, out);
    out.put(b"}");
}

// Geometries as they are written (TopoJSON 1.0, section 2.2), over a way to write cells.
ghost use Rattle.std.specs.Prelude.{◌≡◌, ◌++◌};
ghost use Rattle.json_value.specs.Text.{json_text};
ghost use Rattle.json_writer.specs.Standing.{Start};
ghost use Rattle.topojson_types.specs.Values.{geometrical};
ghost use Rattle.topojson_writer.specs.Texts.{shape_value, shapes_value, type_text, members_text, parts_name, parts_value};

use crate::index_writer::ArcRefs;
use geojson_types::Geometry;
use json_value::Items;
use json_writer::{ArrayOf, Out, PutValue, put_array, put_comma};
use topojson_types::{ArcRef, Cell, TopoShape};

/// The opening brace of a geometry object, and its type.
pub fn type_start<C: PutValue<Cell>>(shape: &TopoShape) -> &'static [u8]
    ensures { result.now ≡ type_text (geometrical C.value shape.now) }
{
    match shape {
        Geometry::Point(_) => b"{\"type\":\"Point\"",
        Geometry::MultiPoint(_) => b"{\"type\":\"MultiPoint\"",
        Geometry::Line(_) => b"{\"type\":\"LineString\"",
        Geometry::Lines(_) => b"{\"type\":\"MultiLineString\"",
        Geometry::Area(_) => b"{\"type\":\"Polygon\"",
        Geometry::Areas(_) => b"{\"type\":\"MultiPolygon\"",
        Geometry::Group(_) => b"{\"type\":\"GeometryCollection\"",
    }
}

/// A comma, the name of what a geometry of this type has, and the colon.
fn name_of_parts<C: PutValue<Cell>>(shape: &TopoShape) -> &'static [u8]
    ensures { result.now ≡ parts_name (geometrical C.value shape.now) }
{
    match shape {
        Geometry::Point(_) => b",\"coordinates\":",
        Geometry::MultiPoint(_) => b",\"coordinates\":",
        Geometry::Line(_) => b",\"arcs\":",
        Geometry::Lines(_) => b",\"arcs\":",
        Geometry::Area(_) => b",\"arcs\":",
        Geometry::Areas(_) => b",\"arcs\":",
        Geometry::Group(_) => b",\"geometries\":",
    }
}

/// Puts the coordinates, the arc indexes or the geometries.
#[cycle(shapes)]
fn put_parts_value<C: PutValue<Cell>, O: Out>(shape: &TopoShape, out: &mut O)
    ensures text { O.text out.new ≡ O.text out.old ++ json_text (parts_value (geometrical C.value shape.now)) }
    ensures kept { (start : Start) → O.good out.old start → O.good out.new start }
{
    match shape {
        Geometry::Point(cell) => C::put(cell, out),
        Geometry::MultiPoint(cells) => put_array::<C, Cell, O>(cells.as_slice(), out),
        Geometry::Line(references) => put_array::<ArcRefs, ArcRef, O>(references.as_slice(), out),
        Geometry::Lines(lines) => {
            put_array::<ArrayOf<ArcRefs>, Items<ArcRef>, O>(lines.as_slice(), out);
        }
        Geometry::Area(rings) => {
            put_array::<ArrayOf<ArcRefs>, Items<ArcRef>, O>(rings.as_slice(), out);
        }
        Geometry::Areas(areas) => {
            put_array::<ArrayOf<ArrayOf<ArcRefs>>, Items<Items<ArcRef>>, O>(areas.as_slice(), out);
        }
        Geometry::Group(shapes) => put_shapes::<C, O>(shapes.as_slice(), out),
    }
}

/// Puts what a geometry has after its type, identifier and properties.
#[cycle(shapes)]
pub fn put_parts<C: PutValue<Cell>, O: Out>(shape: &TopoShape, out: &mut O)
    ensures text { O.text out.new ≡ O.text out.old ++ members_text (geometrical C.value shape.now).parts }
    ensures kept { (start : Start) → O.good out.old start → O.good out.new start }
{
    out.put(name_of_parts::<C>(shape));
    put_parts_value::<C, O>(shape, out);
}

/// Puts the geometries of a GeometryCollection.
#[cycle(shapes)]
fn put_shapes<C: PutValue<Cell>, O: Out>(shapes: &[TopoShape], out: &mut O)
    ensures text { O.text out.new ≡ O.text out.old ++ json_text (shapes_value C.value shapes.now) }
    ensures kept { (start : Start) → O.good out.old start → O.good out.new start }
{
    out.put(b"[");
    let mut is_first = true;
    'shapes: for shape in shapes {
        put_comma(is_first, out);
        is_first = false;
        put_shape::<C, O>(shape, out);
    }
    out.put(b"]");
}

/// Puts a geometry inside a GeometryCollection, which has no identifier and no properties.
#[cycle(shapes)]
fn put_shape<C: PutValue<Cell>, O: Out>(shape: &TopoShape, out: &mut O)
    ensures text { O.text out.new ≡ O.text out.old ++ json_text (shape_value C.value shape.now) }
    ensures kept { (start : Start) → O.good out.old start → O.good out.new start }
{
    out.put(type_start::<C>(shape));
    put_parts::<C, O>(shape, out);
    out.put(b"}");
}

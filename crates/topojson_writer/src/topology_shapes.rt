// Geometries of a topology, written as those that they are decoded to (RFC 7946, section 3.1).
ghost use Rattle.std.specs.Prelude.{◌≡◌, ◌++◌, Some, map};
ghost use Rattle.std.specs.List.{AllByRecursion};
ghost use Rattle.json_value.specs.Text.{json_text};
ghost use Rattle.json_value.specs.declared.json.Json.TheVariants as j;
ghost use Rattle.json_writer.specs.Standing.{Start};
ghost use Rattle.geojson_types.specs.Features.{Shape as Decoded};
ghost use Rattle.topojson_writer.specs.FeatureTexts.{contents_value};
ghost use Rattle.topojson_writer.specs.FeatureValues.{geometry_value};
ghost use Rattle.topojson_writer.specs.Decoded.{shape_in};
ghost use Rattle.topojson_types.specs.LinesAndRings.{IsShape};

use crate::line_source::LineSource;
use crate::position_writer::put_position;
use crate::shape_writer::head;
use crate::topology_lines::{put_areas, put_cells, put_line, put_lines};
use geojson_types::Geometry;
use json_writer::{Out, put_comma};
use topojson_types::{TopoShape, position_at};

/// Puts the coordinates, or the geometries of a GeometryCollection.
#[cycle(shapes)]
fn put_contents<O: Out>(topology: &LineSource<'_>, shape: &TopoShape, out: &mut O)
    requires { IsShape topology.now shape.now }
    ensures text { (decoded : Decoded) → shape_in topology.now shape.now ≡ Some decoded → O.text out.new ≡ O.text out.old ++ json_text (contents_value decoded) }
    ensures kept { (start : Start) → O.good out.old start → O.good out.new start }
{
    match shape {
        Geometry::Point(cell) => {
            let position = position_at(topology.transform(), *cell);
            put_position(position, out);
        }
        Geometry::MultiPoint(cells) => put_cells(topology.transform(), cells.as_slice(), out),
        Geometry::Line(line) => put_line(topology, line.as_slice(), false, out),
        Geometry::Lines(lines) => put_lines(topology, lines.as_slice(), false, out),
        Geometry::Area(rings) => put_lines(topology, rings.as_slice(), true, out),
        Geometry::Areas(areas) => put_areas(topology, areas.as_slice(), out),
        Geometry::Group(shapes) => put_shapes(topology, shapes.as_slice(), out),
    }
}

/// Puts the geometries of a GeometryCollection.
#[cycle(shapes)]
fn put_shapes<O: Out>(topology: &LineSource<'_>, shapes: &[TopoShape], out: &mut O)
    requires { AllByRecursion (IsShape topology.now) shapes.now }
    ensures text { O.text out.new ≡ O.text out.old ++ json_text (j.Array (map (λ s. geometry_value (shape_in topology.now s)) shapes.now)) }
    ensures kept { (start : Start) → O.good out.old start → O.good out.new start }
{
    out.put(b"[");
    let mut is_first = true;
    'shapes: for shape in shapes {
        put_comma(is_first, out);
        is_first = false;
        put_shape(topology, shape, out);
    }
    out.put(b"]");
}

/// Puts the geometry that a geometry of the topology is decoded to.
#[cycle(shapes)]
pub fn put_shape<O: Out>(topology: &LineSource<'_>, shape: &TopoShape, out: &mut O)
    requires { IsShape topology.now shape.now }
    ensures text { O.text out.new ≡ O.text out.old ++ json_text (geometry_value (shape_in topology.now shape.now)) }
    ensures kept { (start : Start) → O.good out.old start → O.good out.new start }
{
    out.put(head(shape));
    put_contents(topology, shape, out);
    out.put(b"}");
}

// The shapes of features.
ghost use Rattle.std.specs.Prelude.{◌≡◌, IfOk, Some, true};
ghost use Rattle.geojson_types.specs.Features.{is_proper, is_proper_option};
ghost use Rattle.geometry.specs.Lists.{then_some};
ghost use Rattle.topojson_types.specs.Decoding.{decoded_shape, placed_arcs};
ghost use Rattle.topojson_types.specs.Transforms.{place};
ghost use Rattle.topojson_types.specs.LinesAndRings.{IsShape, IsShapeOption};

use crate::feature::TopoShape;
use crate::lines::{areas, line, lines, positions, rings};
use crate::placing::position_at;
use crate::topology::Topology;
use geojson_types::{Geometry, Shape};
use json_value::Items;
use owned_values::Memory;
use std::alloc::Global;

/// The shape over positions.
pub fn decoded(alloc: Global, topology: &Topology, shape: &TopoShape) -> Result<Shape, Memory>
    requires { IsShape topology.now shape.now }
    ensures decoded { IfOk result (λ s. decoded_shape (place topology.now.transform) (placed_arcs topology.now.transform topology.now.arcs) shape.now ≡ Some s) }
    ensures proper { IfOk result (λ s. is_proper s ≡ true) }
{
    match shape {
        Geometry::Point(cell) => Ok(Geometry::Point(position_at(topology.transform(), *cell))),
        Geometry::MultiPoint(cells) => Ok(Geometry::MultiPoint(positions(
            alloc,
            topology.transform(),
            cells.as_slice(),
        )?)),
        Geometry::Line(refs) => Ok(Geometry::Line(line(alloc, topology, refs.as_slice())?)),
        Geometry::Lines(refs) => Ok(Geometry::Lines(lines(alloc, topology, refs.as_slice())?)),
        Geometry::Area(refs) => Ok(Geometry::Area(rings(alloc, topology, refs.as_slice())?)),
        Geometry::Areas(refs) => Ok(Geometry::Areas(areas(alloc, topology, refs.as_slice())?)),
        Geometry::Group(members) => {
            let mut shapes = Vec::with_capacity(alloc, members.len())?;
            'members: for member in members.as_slice() {
                shapes.push(decoded(alloc, topology, member)?)?;
            }
            Ok(Geometry::Group(Items::of(shapes)))
        }
    }
}

/// The shape of positions that a shape of a topology stands for, if there is one.
pub fn decoded_option(
    alloc: Global,
    topology: &Topology,
    shape: &Option<TopoShape>,
) -> Result<Option<Shape>, Memory>
    requires { IsShapeOption topology.now shape.now }
    ensures decoded { IfOk result (λ o. o ≡ then_some (decoded_shape (place topology.now.transform) (placed_arcs topology.now.transform topology.now.arcs)) shape.now) }
    ensures proper { IfOk result (λ o. is_proper_option o ≡ true) }
{
    match shape {
        None => Ok(None),
        Some(shape) => Ok(Some(decoded(alloc, topology, shape)?)),
    }
}

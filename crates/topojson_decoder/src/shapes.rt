// The shapes that places and arcs make (TopoJSON 1.0, sections 2.2.1 to 2.2.6).
ghost use Rattle.std.specs.Prelude.{◌≡◌, List, MatchOption, None};
ghost use Rattle.std.specs.Option.{option_copied};
ghost use Rattle.geometry.specs.declared.shape.Geometry.TheVariants as kinds;
ghost use Rattle.geometry.specs.Lists.{map_some};
ghost use Rattle.json_cursor.specs.Answers.{Answers};
ghost use Rattle.json_cursor.specs.Arrays.{prefix_value};
ghost use Rattle.json_cursor.specs.Folds.{one};
ghost use Rattle.topojson_types.specs.Topologies.{TopoShape as Shape};
ghost use Rattle.topojson_meaning.specs.Arcs as spec;
ghost use Rattle.topojson_meaning.specs.Shapes as shapes;
ghost use Rattle.topojson_meaning.specs.declared.geometry_type.PlacesType.TheVariants as of_places;
ghost use Rattle.topojson_decoder.specs.Shapes.{unless_none};

use crate::areas::{Areas, polygon_at};
use crate::cells::place_at;
use crate::lines_and_rings::{LinesAndRings, line_or_ring_at};
use geojson_types::Counts;
use json_cursor::{Element, Opening, Stop, opening_at, some_array_at};
use json_value::Items;
use std::alloc::Global;
use topojson_meaning::{ArcsType, PlacesType, TopoFault};
use topojson_types::{ArcRef, Cell, TopoShape, Transform};

/// How places are read as the elements of an array.
#[derive(Clone, Copy)]
struct Places<'t> {
    transform: Option<&'t Transform>,
}

impl<'t> Element for Places<'t> {
    type Read = Cell;

    type Fault = TopoFault;

    ghost reads = { λ s. one (spec.place (option_copied s.transform)) };

    #[inline(always)]
    #[tactic(auto, using(crate::proofs::Then::one_stops))]
    fn read<'a>(
        self,
        alloc: Global,
        depth_left: u32,
        bytes: &'a [u8],
        counts: &mut Counts,
    ) -> Result<(Option<Cell>, &'a [u8]), Stop<TopoFault>> {
        match place_at(alloc, depth_left, self.transform, bytes, counts) {
            Err(stop) => Err(stop),
            Ok((place, rest)) => Ok((Some(place), rest)),
        }
    }
}

/// The shape of a Point, whose place is the value itself. An empty array is counted, and gives none.
fn point_at<'a>(
    alloc: Global,
    depth_left: u32,
    transform: Option<&Transform>,
    bytes: &'a [u8],
    counts: &mut Counts,
) -> Result<(Option<TopoShape>, &'a [u8]), Stop<TopoFault>>
    ensures { Answers (λ x. x) (shapes.places_shape (option_copied transform.entry) of_places.Point) (prefix_value depth_left bytes.now) counts.old counts.new result }
{
    let (opening, inside) = opening_at(depth_left, bytes);
    match opening {
        Opening::Empty => {
            counts.count_empty();
            Ok((None, inside))
        }
        Opening::NoArray => Err(Stop::Fault(TopoFault::WrongKind)),
        Opening::TooDeep => Err(Stop::NoValue),
        Opening::Filled(_) => match place_at(alloc, depth_left, transform, bytes, counts) {
            Err(stop) => Err(stop),
            Ok(found) => Ok((Some(TopoShape::Point(found.0)), found.1)),
        },
    }
}

/// The parts of a shape, if there are any.
fn unless_empty<V: Drop>(parts: Option<Items<V>>) -> Option<Items<V>>
    ensures { (shape : List V → Shape) → map_some shape result ≡ unless_none shape parts }
{
    let parts = parts?;
    if parts.is_empty() {
        return None;
    }
    Some(parts)
}

/// The shape of this type that the value of `coordinates` at the front is, and what follows it; or why reading stops.
pub fn places_shape_at<'a>(
    alloc: Global,
    depth_left: u32,
    transform: Option<&Transform>,
    kind: PlacesType,
    bytes: &'a [u8],
    counts: &mut Counts,
) -> Result<(Option<TopoShape>, &'a [u8]), Stop<TopoFault>>
    ensures { Answers (λ x. x) (shapes.places_shape (option_copied transform.entry) kind) (prefix_value depth_left bytes.now) counts.old counts.new result }
{
    match kind {
        PlacesType::Point => point_at(alloc, depth_left, transform, bytes, counts),
        PlacesType::MultiPoint => {
            let places = Places { transform };
            match some_array_at::<Places>(
                alloc,
                depth_left,
                bytes,
                TopoFault::WrongKind,
                places,
                counts,
            ) {
                Err(stop) => Err(stop),
                Ok((read, rest)) => Ok((unless_empty(read).map(TopoShape::MultiPoint), rest)),
            }
        }
    }
}

/// The shape of this type that the value of `arcs` at the front is, and what follows it; or why reading stops.
pub fn arcs_shape_at<'a>(
    alloc: Global,
    depth_left: u32,
    arcs: &[Items<Cell>],
    kind: ArcsType,
    bytes: &'a [u8],
    counts: &mut Counts,
) -> Result<(Option<TopoShape>, &'a [u8]), Stop<TopoFault>>
    ensures { Answers (λ x. x) (shapes.arcs_shape arcs.now kind) (prefix_value depth_left bytes.now) counts.old counts.new result }
{
    match kind {
        ArcsType::LineString => match line_or_ring_at(
            alloc, depth_left, arcs, false, bytes, counts,
        ) {
            Err(stop) => Err(stop),
            Ok((line, rest)) => Ok((line.map(TopoShape::Line), rest)),
        },
        ArcsType::MultiLineString => {
            let lines = LinesAndRings {
                arcs,
                closed: false,
            };
            match some_array_at::<LinesAndRings>(
                alloc,
                depth_left,
                bytes,
                TopoFault::WrongKind,
                lines,
                counts,
            ) {
                Err(stop) => Err(stop),
                Ok((read, rest)) => Ok((unless_empty(read).map(TopoShape::Lines), rest)),
            }
        }
        ArcsType::Polygon => match polygon_at(alloc, depth_left, arcs, bytes, counts) {
            Err(stop) => Err(stop),
            Ok((rings, rest)) => Ok((rings.map(TopoShape::Area), rest)),
        },
        ArcsType::MultiPolygon => {
            let areas = Areas { arcs };
            match some_array_at::<Areas>(
                alloc,
                depth_left,
                bytes,
                TopoFault::WrongKind,
                areas,
                counts,
            ) {
                Err(stop) => Err(stop),
                Ok((read, rest)) => Ok((unless_empty(read).map(TopoShape::Areas), rest)),
            }
        }
    }
}

// The coordinates of geometries, by their types.
ghost use Rattle.std.specs.Prelude.{◌≡◌};
ghost use Rattle.geometry.specs.Lists.{map_some, then_some, unless_empty};
ghost use Rattle.geometry.specs.declared.shape.Geometry.TheVariants as g;
ghost use Rattle.geojson_meaning.specs.Geometries.{coordinates_shape};
ghost use Rattle.geojson_meaning.specs.declared.types.CoordinatesType.TheVariants as type;
ghost use Rattle.json_cursor.specs.Answers.{Answers};
ghost use Rattle.json_cursor.specs.Arrays.{prefix_value};

use crate::lines::{Lines, Polygons, line_at, polygon_at};
use crate::positions::{numbers_at, positions_at};
use geojson_meaning::{CoordinatesType, GeoFaultKind};
use geojson_types::{Counts, Position, Ring, Shape};
use json_cursor::{Opening, Stop, opening_at, some_array_at};
use json_value::Items;
use std::alloc::Global;

/// The items, if there are any.
fn left<T: Drop>(read: Option<Items<T>>) -> Option<Items<T>>
    ensures { result ≡ then_some (unless_empty (λ xs. xs)) read }
{
    match read {
        None => None,
        Some(items) => {
            if items.is_empty() {
                return None;
            }
            Some(items)
        }
    }
}

/// The MultiPoint of these positions, if there are any.
fn points_of(read: Option<Items<Position>>) -> Option<Shape>
    ensures { result ≡ map_some g.MultiPoint read }
{
    match read {
        None => None,
        Some(items) => Some(Shape::MultiPoint(items)),
    }
}

/// The LineString of these positions, if there is one.
fn line_of(read: Option<Items<Position>>) -> Option<Shape>
    ensures { result ≡ map_some g.Line read }
{
    match read {
        None => None,
        Some(items) => Some(Shape::Line(items)),
    }
}

/// The MultiLineString of these lines, if there are any.
fn lines_of(read: Option<Items<Items<Position>>>) -> Option<Shape>
    ensures { result ≡ map_some g.Lines read }
{
    match read {
        None => None,
        Some(items) => Some(Shape::Lines(items)),
    }
}

/// The Polygon of these rings, if there is one.
fn area_of(read: Option<Items<Ring>>) -> Option<Shape>
    ensures { result ≡ map_some g.Area read }
{
    match read {
        None => None,
        Some(items) => Some(Shape::Area(items)),
    }
}

/// The MultiPolygon of these polygons, if there are any.
fn areas_of(read: Option<Items<Items<Ring>>>) -> Option<Shape>
    ensures { result ≡ map_some g.Areas read }
{
    match read {
        None => None,
        Some(items) => Some(Shape::Areas(items)),
    }
}

/// The Point whose coordinates stand at the front, if their array isn't empty, and what follows them; or why reading stops.
fn point_at<'a>(
    alloc: Global,
    depth_left: u32,
    bytes: &'a [u8],
    exact: bool,
    counts: &mut Counts,
) -> Result<(Option<Shape>, &'a [u8]), Stop<GeoFaultKind>>
    ensures { Answers (λ x. x) (coordinates_shape exact type.Point) (prefix_value depth_left bytes.now) counts.old counts.new result }
{
    let (opening, inside) = opening_at(depth_left, bytes);
    match opening {
        Opening::NoArray => Err(Stop::Fault(GeoFaultKind::WrongKind)),
        Opening::TooDeep => Err(Stop::NoValue),
        Opening::Empty => {
            counts.count_empty();
            Ok((None, inside))
        }
        Opening::Filled(below) => {
            match numbers_at(alloc, below, inside.len(), inside, exact, counts) {
                Err(stop) => Err(stop),
                Ok(found) => Ok((Some(Shape::Point(found.0)), found.1)),
            }
        }
    }
}

/// The shape that the coordinates at the front are by this type, if something is left of it, and what follows them; or why reading stops.
pub fn coordinates_at<'a>(
    alloc: Global,
    depth_left: u32,
    bytes: &'a [u8],
    exact: bool,
    kind: CoordinatesType,
    counts: &mut Counts,
) -> Result<(Option<Shape>, &'a [u8]), Stop<GeoFaultKind>>
    ensures { Answers (λ x. x) (coordinates_shape exact kind) (prefix_value depth_left bytes.now) counts.old counts.new result }
{
    let wrong = GeoFaultKind::WrongKind;
    match kind {
        CoordinatesType::Point => point_at(alloc, depth_left, bytes, exact, counts),
        CoordinatesType::MultiPoint => {
            match positions_at(alloc, depth_left, bytes, exact, counts) {
                Err(stop) => Err(stop),
                Ok((read, rest)) => Ok((points_of(left(read)), rest)),
            }
        }
        CoordinatesType::LineString => match line_at(alloc, depth_left, bytes, exact, counts) {
            Err(stop) => Err(stop),
            Ok((read, rest)) => Ok((line_of(read), rest)),
        },
        CoordinatesType::MultiLineString => {
            match some_array_at::<Lines>(alloc, depth_left, bytes, wrong, Lines { exact }, counts) {
                Err(stop) => Err(stop),
                Ok((read, rest)) => Ok((lines_of(left(read)), rest)),
            }
        }
        CoordinatesType::Polygon => match polygon_at(alloc, depth_left, bytes, exact, counts) {
            Err(stop) => Err(stop),
            Ok((read, rest)) => Ok((area_of(read), rest)),
        },
        CoordinatesType::MultiPolygon => {
            let by = Polygons { exact };
            match some_array_at::<Polygons>(alloc, depth_left, bytes, wrong, by, counts) {
                Err(stop) => Err(stop),
                Ok((read, rest)) => Ok((areas_of(left(read)), rest)),
            }
        }
    }
}

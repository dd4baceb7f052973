// The member `coordinates` of a geometry.
ghost use Rattle.std.specs.Prelude.{◌≡◌, codes, true};
ghost use Rattle.json_value.specs.declared.json.Json.{Json as Value};
ghost use Rattle.json_cursor.specs.Held.{FindsValue};
ghost use Rattle.json_cursor.specs.Members.{Members as Listed};
ghost use Rattle.geojson_meaning.specs.Geometries.{coordinates_shape, typed_geometry};
ghost use Rattle.geojson_meaning.specs.Members.{named};
ghost use Rattle.geojson_meaning.specs.declared.types.GeometryType.TheVariants as types;
ghost use Rattle.geojson_model.specs.Members.{IsCoordinates, IsOccurrence, IsRead, IsTaken, Judges};
ghost use Rattle.geojson_model.specs.declared.geometries.Start.{Start as Begun};

use crate::geometries::Start;
use crate::shapes::coordinates_at;
use geojson_meaning::{CoordinatesType, GeoFaultKind, GeoJsonType, GeometryType};
use geojson_types::{Counts, Shape};
use json_cursor::{Occurrence, Stop};
use json_reading::{Fault, Why, after_value};
use std::alloc::Global;

/// What the member `coordinates` is read as by this type, or its fault, and what was counted then.
#[derive(Drop)]
pub struct Read {
    kind: CoordinatesType,
    shape: Result<Option<Shape>, GeoFaultKind>,
    counts: Counts,
}

/// Where the value of the member `coordinates` begins, and what it was read as, if its type was known then.
#[derive(Drop)]
pub struct Coordinates<'a> {
    prefix: &'a [u8],
    read: Option<Read>,
}

/// The value of `coordinates` at the front, which is passed over, and what follows it.
fn passed_at<'a>(
    alloc: Global,
    depth_left: u32,
    start: Start,
    bytes: &'a [u8],
) -> Result<(Coordinates<'a>, &'a [u8]), Fault>
    ensures { FindsValue (IsCoordinates start depth_left) depth_left bytes.now result }
{
    let rest = after_value(alloc, depth_left, bytes)?;
    Ok((
        Coordinates {
            prefix: bytes,
            read: None,
        },
        rest,
    ))
}

/// The value of `coordinates` at the front, which is read by this type, and what follows it.
fn read_at<'a>(
    alloc: Global,
    depth_left: u32,
    start: Start,
    kind: CoordinatesType,
    bytes: &'a [u8],
) -> Result<(Coordinates<'a>, &'a [u8]), Fault>
    ensures { FindsValue (IsCoordinates start depth_left) depth_left bytes.now result }
{
    let mut counts = start.counts;
    match coordinates_at(alloc, depth_left, bytes, start.exact, kind, &mut counts) {
        Ok((shape, rest)) => {
            let read = Read {
                kind,
                shape: Ok(shape),
                counts,
            };
            Ok((
                Coordinates {
                    prefix: bytes,
                    read: Some(read),
                },
                rest,
            ))
        }
        Err(Stop::Fault(fault)) => {
            let rest = after_value(alloc, depth_left, bytes)?;
            let read = Read {
                kind,
                shape: Err(fault),
                counts,
            };
            Ok((
                Coordinates {
                    prefix: bytes,
                    read: Some(read),
                },
                rest,
            ))
        }
        Err(Stop::NoValue) => Err(Fault::Malformed {
            why: Why::Syntax,
            left: bytes.len(),
        }),
        Err(Stop::Memory) => Err(Fault::Memory),
    }
}

/// The value of `coordinates` at the front, which is read where its type is known by now, and what follows it.
pub(crate) fn coordinates_member<'a>(
    alloc: Global,
    depth_left: u32,
    start: Start,
    kind: &Occurrence<Result<GeoJsonType, GeoFaultKind>>,
    bytes: &'a [u8],
) -> Result<(Coordinates<'a>, &'a [u8]), Fault>
    ensures { FindsValue (IsCoordinates start depth_left) depth_left bytes.now result }
{
    match kind {
        Occurrence::Once(Ok(GeoJsonType::Geometry(GeometryType::Coordinates(kind)))) => read_at(
            alloc, depth_left, start, *kind, bytes,
        ),
        _ => passed_at(alloc, depth_left, start, bytes),
    }
}

/// Whether the types are one.
fn is_same(one: CoordinatesType, other: CoordinatesType) -> bool
    ensures { result ≡ true → one ≡ other }
{
    match one {
        CoordinatesType::Point => matches!(other, CoordinatesType::Point),
        CoordinatesType::MultiPoint => matches!(other, CoordinatesType::MultiPoint),
        CoordinatesType::LineString => matches!(other, CoordinatesType::LineString),
        CoordinatesType::MultiLineString => matches!(other, CoordinatesType::MultiLineString),
        CoordinatesType::Polygon => matches!(other, CoordinatesType::Polygon),
        CoordinatesType::MultiPolygon => matches!(other, CoordinatesType::MultiPolygon),
    }
}

/// What was read of the value by this very type, and what was counted then.
fn taken(
    read: Option<Read>,
    kind: CoordinatesType,
) -> Option<(Result<Option<Shape>, GeoFaultKind>, Counts)>
    ensures { (start : Begun) (v : Value) → IsRead start v read → IsTaken start kind v result }
{
    let Some(
        Read {
            kind: by,
            shape,
            counts,
        },
    ) = read
    else {
        return None;
    };
    if !is_same(by, kind) {
        return None;
    }
    Some((shape, counts))
}

/// What the value of `coordinates` is by this type, which is read where its member came before its type.
fn shape_by(
    alloc: Global,
    depth_left: u32,
    kind: CoordinatesType,
    found: Coordinates<'_>,
    start: Start,
    counts: &mut Counts,
) -> Result<Option<Shape>, Stop<GeoFaultKind>>
    ensures { (v : Value) → IsCoordinates start depth_left v found.entry → Judges (coordinates_shape start.exact kind v) start.counts counts.new result }
{
    let Coordinates { prefix, read } = found;
    match taken(read, kind) {
        Some((shape, counted)) => {
            *counts = counted;
            match shape {
                Ok(shape) => Ok(shape),
                Err(fault) => Err(Stop::Fault(fault)),
            }
        }
        None => {
            *counts = start.counts;
            match coordinates_at(alloc, depth_left, prefix, start.exact, kind, counts) {
                Err(stop) => Err(stop),
                Ok((shape, _)) => Ok(shape),
            }
        }
    }
}

/// What the member `coordinates` is by this type.
pub(crate) fn coordinates_of(
    alloc: Global,
    depth_left: u32,
    kind: CoordinatesType,
    coordinates: Occurrence<Coordinates<'_>>,
    start: Start,
    counts: &mut Counts,
) -> Result<Option<Shape>, Stop<GeoFaultKind>>
    ensures { (ms : Listed) → IsOccurrence (IsCoordinates start depth_left) (named (codes "coordinates") ms) coordinates.entry
        → Judges (typed_geometry start.exact (types.Coordinates kind) ms) start.counts counts.new result }
{
    match coordinates {
        Occurrence::Never => Err(Stop::Fault(GeoFaultKind::Missing)),
        Occurrence::Again => Err(Stop::Fault(GeoFaultKind::Duplicate)),
        Occurrence::Once(found) => shape_by(alloc, depth_left, kind, found, start, counts),
    }
}

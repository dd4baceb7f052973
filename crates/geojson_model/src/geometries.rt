// Geometries by their members.
ghost use Rattle.std.specs.Prelude.{◌≡◌, ◌++◌, [], ℕ, OnOk, bytes_eq, codes, false, length, option_to_list};
ghost use Rattle.json_cursor.specs.Members.{GoesOn, GoesThrough, Members as Listed, TakesAll, prefix_members};
ghost use Rattle.geojson_meaning.specs.Geometries.{geometry, shape, shapes, typed_geometry};
ghost use Rattle.geojson_meaning.specs.Reader.{kept};
ghost use Rattle.json_cursor.specs.Answers.{Answers};
ghost use Rattle.json_cursor.specs.Arrays.{prefix_elements, prefix_value};
ghost use Rattle.geojson_meaning.specs.Members.{named};
ghost use Rattle.geojson_meaning.specs.declared.types.GeometryType.TheVariants as types;
ghost use Rattle.json_cursor.specs.Held.{Finds, FindsValue, IsHeld};
ghost use Rattle.json_cursor.specs.Names.{name_of};
ghost use Rattle.geojson_model.specs.Members.{IsGroup, IsParts, IsOccurrence, IsType, Judges, Sees};
ghost use Rattle.geojson_model.specs.Members as spec;
ghost use Rattle.geojson_model.specs.declared.geometries.Start.{Start as Begun};

use crate::coordinate_members::{Coordinates, coordinates_member, coordinates_of};
use crate::leading::{led_at, led_geometry_at};
use crate::type_names::type_name_at;
use geojson_meaning::{GeoFaultKind, GeoJsonType, GeometryType, geojson_type};
use geojson_types::{Counts, Shape};
use json_cursor::{
    Mark, Name, Occurrence, Stop, after_byte, after_others, broken, mark_at, name_at,
};
use json_reading::{Fault, after_value, skip};
use json_value::Items;
use std::alloc::{AllocFailed, Global};

/// By what a geometry is read: whether coordinates may not be rounded, and what was counted before it.
#[derive(Clone, Copy)]
pub struct Start {
    pub exact: bool,
    pub counts: Counts,
}

/// What the value of `geometries` is read as, or its fault, and what was counted then. It is read whatever the type is: where the type comes
/// after it, geometries in geometries would else be passed over once more at each of their levels.
#[derive(Drop)]
pub struct Group {
    shapes: Result<Items<Shape>, GeoFaultKind>,
    counts: Counts,
}

/// What was seen of the members of a geometry.
#[derive(Drop)]
pub struct Parts<'a> {
    pub kind: Occurrence<Result<GeoJsonType, GeoFaultKind>>,
    coordinates: Occurrence<Coordinates<'a>>,
    geometries: Occurrence<Group>,
}

/// The type that the value at the front names, or its fault, and what follows it.
pub(crate) fn type_at<'a>(
    alloc: Global,
    depth_left: u32,
    bytes: &'a [u8],
) -> Result<(Result<GeoJsonType, GeoFaultKind>, &'a [u8]), Fault>
    ensures { FindsValue IsType depth_left bytes.now result }
{
    let Some((name, rest)) = type_name_at(alloc, bytes)? else {
        let rest = after_value(alloc, depth_left, bytes)?;
        return Ok((Err(GeoFaultKind::WrongKind), rest));
    };
    match geojson_type(name.as_str()) {
        None => Ok((Err(GeoFaultKind::UnknownType), rest)),
        Some(kind) => Ok((Ok(kind), rest)),
    }
}

impl<'a> Parts<'a> {
    /// Of no members.
    pub(crate) fn none() -> Parts<'a>
        ensures { (start : Begun) (depth_left : ℕ) → IsParts start depth_left [] result }
    {
        Parts {
            kind: Occurrence::Never,
            coordinates: Occurrence::Never,
            geometries: Occurrence::Never,
        }
    }

    /// Goes on with one of this name, which isn't `geometries`, and whose value is at the front.
    fn see(
        &mut self,
        alloc: Global,
        depth_left: u32,
        name: &Name<'a>,
        value: &'a [u8],
        start: Start,
    ) -> Result<&'a [u8], Fault>
        requires { bytes_eq (name_of name.now) (codes "geometries") ≡ false }
        ensures { Sees (IsParts start depth_left) depth_left (name_of name.now) value.now self.old self.new result }
    {
        if name.is("type") {
            let (kind, rest) = type_at(alloc, depth_left, value)?;
            self.kind.see(kind);
            return Ok(rest);
        }
        if name.is("coordinates") {
            let (found, rest) = coordinates_member(alloc, depth_left, start, &self.kind, value)?;
            self.coordinates.see(found);
            return Ok(rest);
        }
        after_value(alloc, depth_left, value)
    }
}

/// The type of a geometry whose member `type` was seen so.
#[inline(always)]
fn kind_of(
    occurrence: Occurrence<Result<GeoJsonType, GeoFaultKind>>,
) -> Result<GeometryType, GeoFaultKind>
    ensures { result ≡ spec.kind_of occurrence }
{
    match occurrence {
        Occurrence::Never => Err(GeoFaultKind::Missing),
        Occurrence::Again => Err(GeoFaultKind::Duplicate),
        Occurrence::Once(named) => match named {
            Err(fault) => Err(fault),
            Ok(GeoJsonType::Geometry(kind)) => Ok(kind),
            Ok(_) => Err(GeoFaultKind::UnknownType),
        },
    }
}

/// What the member `geometries` is.
fn group_of(
    geometries: Occurrence<Group>,
    counts: &mut Counts,
) -> Result<Option<Shape>, Stop<GeoFaultKind>>
    ensures { (start : Begun) (ms : Listed) → IsOccurrence (IsGroup start) (named (codes "geometries") ms) geometries
        → Judges (typed_geometry start.exact types.Collection ms) start.counts counts.new result }
{
    match geometries {
        Occurrence::Never => Err(Stop::Fault(GeoFaultKind::Missing)),
        Occurrence::Again => Err(Stop::Fault(GeoFaultKind::Duplicate)),
        Occurrence::Once(group) => {
            let Group {
                shapes,
                counts: counted,
            } = group;
            *counts = counted;
            match shapes {
                Err(fault) => Err(Stop::Fault(fault)),
                Ok(shapes) => Ok(Some(Shape::Group(shapes))),
            }
        }
    }
}

/// The geometry of these members.
pub(crate) fn shape_of(
    alloc: Global,
    depth_left: u32,
    parts: Parts<'_>,
    start: Start,
    counts: &mut Counts,
) -> Result<Option<Shape>, Stop<GeoFaultKind>>
    ensures { (ms : Listed) → IsParts start depth_left ms parts.entry → Judges (geometry start.exact ms) start.counts counts.new result }
{
    let Parts {
        kind,
        coordinates,
        geometries,
    } = parts;
    match kind_of(kind) {
        Err(fault) => {
            drop(coordinates);
            drop(geometries);
            Err(Stop::Fault(fault))
        }
        Ok(kind) => match kind {
            GeometryType::Collection => {
                drop(coordinates);
                group_of(geometries, counts)
            }
            GeometryType::Coordinates(kind) => {
                drop(geometries);
                coordinates_of(alloc, depth_left, kind, coordinates, start, counts)
            }
        },
    }
}

/// Goes on with a member of this name, whose value is at the front, and gives what follows it.
#[cycle(geometries)]
pub(crate) fn member_value<'a>(
    alloc: Global,
    depth_left: u32,
    parts: &mut Parts<'a>,
    name: &Name<'a>,
    value: &'a [u8],
    start: Start,
) -> Result<&'a [u8], Fault>
    ensures { Sees (IsParts start depth_left) depth_left (name_of name.now) value.now parts.old parts.new result }
{
    if name.is("geometries") {
        let mut counts = start.counts;
        let (shapes, rest) = geometries_at(alloc, depth_left, value, start.exact, &mut counts)?;
        parts.geometries.see(Group { shapes, counts });
        return Ok(rest);
    }
    parts.see(alloc, depth_left, name, value, start)
}

/// Goes on with the member of a geometry at the front, and gives what follows it.
#[cycle(geometries)]
fn member_at<'a>(
    alloc: Global,
    depth_left: u32,
    parts: &mut Parts<'a>,
    bytes: &'a [u8],
    start: Start,
) -> Result<&'a [u8], Fault>
    ensures { GoesOn (IsParts start depth_left) depth_left parts.old parts.new bytes.now result }
{
    let (name, value) = name_at(alloc, bytes)?;
    member_value(alloc, depth_left, parts, &name, value, start)
}

/// Goes on with the members of a geometry after its brace, one or more, and gives what follows them. (The loop of `json_cursor` goes over
/// members that don't lead back to it.)
#[cycle(geometries)]
fn members_after<'a>(
    alloc: Global,
    depth_left: u32,
    parts: &mut Parts<'a>,
    inside: &'a [u8],
    start: Start,
) -> Result<&'a [u8], Fault>
    ensures { TakesAll (IsParts start depth_left) (prefix_members depth_left (length inside.now) inside.now) parts.old parts.new result }
{
    let mut rest = inside;
    'members: for _ in 0..inside.len() {
        let following = member_at(alloc, depth_left, parts, skip(rest), start)?;
        let mark = skip(following);
        if let Some(end) = after_byte(b'}', mark) {
            return Ok(end);
        }
        let Some(more) = after_byte(b',', mark) else {
            return Err(broken(mark));
        };
        rest = more;
    }
    Err(broken(rest))
}

/// Goes on with the members of the object at the front, and gives what follows it; none of what is no object, of which nothing is read.
#[cycle(geometries)]
fn members_at<'a>(
    alloc: Global,
    depth_left: u32,
    parts: &mut Parts<'a>,
    bytes: &'a [u8],
    start: Start,
) -> Result<Option<&'a [u8]>, Fault>
    ensures { GoesThrough (IsParts start) depth_left bytes.now parts.old parts.new result }
{
    let Some(inside) = after_byte(b'{', bytes) else {
        return Ok(None);
    };
    if depth_left == 0 {
        return Err(broken(inside));
    }
    if let Some(end) = after_byte(b'}', skip(inside)) {
        return Ok(Some(end));
    }
    let rest = members_after(alloc, depth_left - 1, parts, inside, start)?;
    Ok(Some(rest))
}

/// The geometry at the front or its first fault, by its members one after another, and what follows it.
#[cycle(geometries)]
fn any_geometry_at<'a>(
    alloc: Global,
    depth_left: u32,
    bytes: &'a [u8],
    exact: bool,
    counts: &mut Counts,
) -> Result<(Result<Option<Shape>, GeoFaultKind>, &'a [u8]), Fault>
    ensures { FindsValue (IsHeld (shape exact) counts.old counts.new) depth_left bytes.now result }
{
    let start = Start {
        exact,
        counts: *counts,
    };
    let mut parts = Parts::none();
    match members_at(alloc, depth_left, &mut parts, bytes, start) {
        Err(fault) => {
            drop(parts);
            Err(fault)
        }
        Ok(None) => {
            drop(parts);
            let rest = after_value(alloc, depth_left, bytes)?;
            Ok((Err(GeoFaultKind::WrongKind), rest))
        }
        Ok(Some(rest)) => match shape_of(alloc, depth_left - 1, parts, start, counts) {
            Ok(shape) => Ok((Ok(shape), rest)),
            Err(Stop::Fault(fault)) => Ok((Err(fault), rest)),
            Err(Stop::NoValue) => Err(broken(rest)),
            Err(Stop::Memory) => Err(Fault::Memory),
        },
    }
}

/// The geometry at the front (RFC 7946, section 3.1), which is none where nothing is left of it, or its first fault, and what follows it. Its
/// members may stand in any order.
#[cycle(geometries)]
fn held_geometry_at<'a>(
    alloc: Global,
    depth_left: u32,
    bytes: &'a [u8],
    exact: bool,
    counts: &mut Counts,
) -> Result<(Result<Option<Shape>, GeoFaultKind>, &'a [u8]), Fault>
    ensures { FindsValue (IsHeld (shape exact) counts.old counts.new) depth_left bytes.now result }
{
    match led_at(alloc, depth_left, bytes)? {
        None => any_geometry_at(alloc, depth_left, bytes, exact, counts),
        Some((kind, prefix)) => match led_geometry_at(
            alloc, depth_left, kind, prefix, bytes, exact, counts,
        ) {
            Ok((shape, rest)) => Ok((Ok(shape), rest)),
            Err(Stop::Fault(fault)) => {
                let rest = after_value(alloc, depth_left, bytes)?;
                Ok((Err(fault), rest))
            }
            Err(Stop::NoValue) => Err(broken(bytes)),
            Err(Stop::Memory) => Err(Fault::Memory),
        },
    }
}

/// Puts one after the others, if there is one.
fn push_some(read: &mut Vec<Shape>, one: Option<Shape>) -> Result<(), AllocFailed<Shape>>
    ensures { OnOk result (read.new.items ≡ read.old.items ++ option_to_list one) }
{
    match one {
        None => Ok(()),
        Some(one) => {
            read.push(one)?;
            Ok(())
        }
    }
}

/// The geometries after the bracket of an array, one or more, without those of which nothing is left, or their first fault, and what follows
/// them. Those after a faulty one are passed over.
#[cycle(geometries)]
fn geometries_after<'a>(
    alloc: Global,
    depth_left: u32,
    inside: &'a [u8],
    exact: bool,
    counts: &mut Counts,
) -> Result<(Result<Items<Shape>, GeoFaultKind>, &'a [u8]), Fault>
    ensures { Finds (IsHeld (kept (shape exact)) counts.old counts.new) (prefix_elements depth_left (length inside.now) inside.now) result }
{
    let mut read = Vec::new(alloc);
    let mut rest = inside;
    'geometries: for turn in 0..inside.len() {
        let (one, following) = held_geometry_at(alloc, depth_left, skip(rest), exact, counts)?;
        match one {
            Err(fault) => {
                let end = after_others(alloc, depth_left, inside.len() - turn, following)?;
                return Ok((Err(fault), end));
            }
            Ok(one) => {
                push_some(&mut read, one)?;
                let (mark, more) = mark_at(following);
                match mark {
                    Mark::Neither => return Err(broken(more)),
                    Mark::Close => return Ok((Ok(Items::of(read)), more)),
                    Mark::Comma => {}
                }
                rest = more;
            }
        }
    }
    Err(broken(rest))
}

/// The geometries of the array at the front, without those of which nothing is left, or their first fault, and what follows it.
#[cycle(geometries)]
fn geometries_at<'a>(
    alloc: Global,
    depth_left: u32,
    bytes: &'a [u8],
    exact: bool,
    counts: &mut Counts,
) -> Result<(Result<Items<Shape>, GeoFaultKind>, &'a [u8]), Fault>
    ensures { FindsValue (IsHeld (shapes exact) counts.old counts.new) depth_left bytes.now result }
{
    let Some(inside) = after_byte(b'[', bytes) else {
        let rest = after_value(alloc, depth_left, bytes)?;
        return Ok((Err(GeoFaultKind::WrongKind), rest));
    };
    if depth_left == 0 {
        return Err(broken(inside));
    }
    if let Some(rest) = after_byte(b']', skip(inside)) {
        return Ok((Ok(Items::of(Vec::new(alloc))), rest));
    }
    geometries_after(alloc, depth_left - 1, inside, exact, counts)
}

/// The geometry at the front (RFC 7946, section 3.1), which is none where nothing is left of it, and what follows it; or why reading
/// stops. Its members may stand in any order.
#[tactic(auto, using(json_cursor::proofs::Steps::found_stops))]
pub fn geometry_at<'a>(
    alloc: Global,
    depth_left: u32,
    bytes: &'a [u8],
    exact: bool,
    counts: &mut Counts,
) -> Result<(Option<Shape>, &'a [u8]), Stop<GeoFaultKind>>
    ensures { Answers (λ x. x) (shape exact) (prefix_value depth_left bytes.now) counts.old counts.new result }
{
    let (held, rest) = held_geometry_at(alloc, depth_left, bytes, exact, counts)?;
    match held {
        Ok(shape) => Ok((shape, rest)),
        Err(fault) => Err(Stop::Fault(fault)),
    }
}

// Geometries whose type and coordinates stand first, as most programs write them.
ghost use Rattle.std.specs.Prelude.{◌≡◌, ◌<◌, IfErr, IfOk, IfSome, Some};
ghost use Rattle.json_reading.specs.Gives.{Fails};
ghost use Rattle.json_cursor.specs.Answers.{Answers};
ghost use Rattle.json_cursor.specs.Arrays.{prefix_value};
ghost use Rattle.geojson_meaning.specs.Geometries.{shape};
ghost use Rattle.geojson_meaning.specs.Types.{geometry_type};
ghost use Rattle.geojson_meaning.specs.declared.types.GeometryType.TheVariants as kinds;
ghost use Rattle.geojson_model.specs.Members.{BeginsGeometry, IsSeen, LeadsGeometry, Repeats};
ghost use Rattle.geojson_model.specs.Members as spec;

use crate::shapes::coordinates_at;
use crate::type_names::type_name_at;
use geojson_meaning::{CoordinatesType, GeoFaultKind, GeometryType, geometry_type};
use geojson_types::{Counts, Shape};
use json_cursor::{Members, Occurrence, Stop, after_byte, name_at, named_at, object_into};
use json_reading::{Fault, after_value, skip};
use std::alloc::Global;

/// How often the members stood that a geometry of coordinates has.
#[derive(Drop)]
pub struct Seen {
    kind: Occurrence<()>,
    coordinates: Occurrence<()>,
}

impl Seen {
    /// Whether the type stands twice, or the coordinates.
    fn stand_twice(&self) -> bool
        ensures { result ≡ spec.twice self.now }
    {
        self.kind.is_again() || self.coordinates.is_again()
    }
}

impl<'a> Members<'a> for Seen {
    type With = ();

    ghost holds = { λ _ _. IsSeen };

    fn member(
        &mut self,
        alloc: Global,
        depth_left: u32,
        bytes: &'a [u8],
        _with: (),
    ) -> Result<&'a [u8], Fault> {
        let (name, value) = name_at(alloc, bytes)?;
        if name.is("type") {
            self.kind.see(());
            return after_value(alloc, depth_left, value);
        }
        if name.is("coordinates") {
            self.coordinates.see(());
            return after_value(alloc, depth_left, value);
        }
        after_value(alloc, depth_left, value)
    }
}

/// The type of this name, if it is one of geometries of coordinates.
fn coordinates_named(name: &str) -> Option<CoordinatesType>
    ensures { IfSome result (λ kind. geometry_type name.now ≡ Some (kinds.Coordinates kind)) }
{
    match geometry_type(name) {
        Some(GeometryType::Coordinates(kind)) => Some(kind),
        _ => None,
    }
}

/// The type of the geometry of coordinates at the front, and where these begin, where the two stand first in it.
pub(crate) fn led_at<'a>(
    alloc: Global,
    depth_left: u32,
    bytes: &'a [u8],
) -> Result<Option<(CoordinatesType, &'a [u8])>, Fault>
    ensures begins { IfOk result (λ o. IfSome o (λ x. BeginsGeometry x.0 depth_left bytes.now x.1.now)) }
    ensures leads { IfOk result (λ o. IfSome o (λ x. LeadsGeometry x.0 depth_left bytes.now x.1.now)) }
    ensures depth_left { IfOk result (λ o. IfSome o (λ _. 0 < depth_left)) }
    ensures fails { IfErr result (λ fault. Fails fault (prefix_value depth_left bytes.now)) }
{
    let Some(inside) = after_byte(b'{', bytes) else {
        return Ok(None);
    };
    if depth_left == 0 || inside.len() < 2 {
        return Ok(None);
    }
    if let Some(_) = after_byte(b'}', skip(inside)) {
        return Ok(None);
    }
    let Some((word, value)) = named_at("type", skip(inside)) else {
        return Ok(None);
    };
    drop(word);
    let Some((name, rest)) = type_name_at(alloc, value)? else {
        return Ok(None);
    };
    let named = coordinates_named(name.as_str());
    drop(name);
    let Some(kind) = named else {
        return Ok(None);
    };
    let Some(more) = after_byte(b',', skip(rest)) else {
        return Ok(None);
    };
    let Some((part, prefix)) = named_at("coordinates", skip(more)) else {
        return Ok(None);
    };
    drop(part);
    Ok(Some((kind, prefix)))
}

/// Whether in the object at the front the type stands twice, or `coordinates`, and what follows it; none of what is no object. Its members are
/// passed over.
fn twice_at<'a>(
    alloc: Global,
    depth_left: u32,
    bytes: &'a [u8],
) -> Result<Option<(bool, &'a [u8])>, Fault>
    ensures { Repeats depth_left bytes.now result }
{
    let mut seen = Seen {
        kind: Occurrence::Never,
        coordinates: Occurrence::Never,
    };
    match object_into::<Seen>(alloc, depth_left, &mut seen, bytes, ()) {
        Err(fault) => Err(fault),
        Ok(None) => Ok(None),
        Ok(Some(rest)) => Ok(Some((seen.stand_twice(), rest))),
    }
}

/// The first fault of a geometry whose member has this one: a name that stands twice comes before it.
fn first_fault(twice: bool, fault: GeoFaultKind) -> GeoFaultKind
    ensures { result ≡ spec.first_fault twice fault }
{
    if twice {
        GeoFaultKind::Duplicate
    } else {
        fault
    }
}

/// The geometry at the front, whose type and coordinates stand first: they are read once, and members after them are passed over.
pub(crate) fn led_geometry_at<'a>(
    alloc: Global,
    depth_left: u32,
    kind: CoordinatesType,
    prefix: &'a [u8],
    bytes: &'a [u8],
    exact: bool,
    counts: &mut Counts,
) -> Result<(Option<Shape>, &'a [u8]), Stop<GeoFaultKind>>
    requires depth_left { 0 < depth_left }
    requires begins { BeginsGeometry kind depth_left bytes.now prefix.now }
    requires leads { LeadsGeometry kind depth_left bytes.now prefix.now }
    ensures { Answers (λ x. x) (shape exact) (prefix_value depth_left bytes.now) counts.old counts.new result }
{
    match coordinates_at(alloc, depth_left - 1, prefix, exact, kind, counts) {
        Err(Stop::Memory) => Err(Stop::Memory),
        Err(Stop::NoValue) => Err(Stop::NoValue),
        Err(Stop::Fault(fault)) => {
            let found = twice_at(alloc, depth_left, bytes)?;
            match found {
                None => Err(Stop::Fault(GeoFaultKind::WrongKind)),
                Some((twice, _)) => Err(Stop::Fault(first_fault(twice, fault))),
            }
        }
        Ok((shape, after)) => {
            if let Some(rest) = after_byte(b'}', skip(after)) {
                return Ok((shape, rest));
            }
            match twice_at(alloc, depth_left, bytes) {
                Err(fault) => {
                    drop(shape);
                    Err(Stop::from(fault))
                }
                Ok(None) => {
                    drop(shape);
                    Err(Stop::Fault(GeoFaultKind::WrongKind))
                }
                Ok(Some((twice, rest))) => {
                    if twice {
                        drop(shape);
                        return Err(Stop::Fault(GeoFaultKind::Duplicate));
                    }
                    Ok((shape, rest))
                }
            }
        }
    }
}

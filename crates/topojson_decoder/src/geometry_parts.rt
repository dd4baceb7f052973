// What is seen of the members of a geometry (TopoJSON 1.0, section 2.2).
ghost use Rattle.std.specs.Prelude.{◌≡◌, [], ℕ, IfSome, List, Some, bytes_eq, codes, false, true};
ghost use Rattle.json_value.specs.declared.json.Json.{Json as Value};
ghost use Rattle.json_value.specs.Members.{Members as Listed, named};
ghost use Rattle.json_cursor.specs.Answers.{Answers};
ghost use Rattle.json_cursor.specs.Arrays.{prefix_value};
ghost use Rattle.json_cursor.specs.Held.{FindsValue};
ghost use Rattle.topojson_meaning.specs.GeometryTypes.{object_type, part_name};
ghost use Rattle.topojson_decoder.specs.Geometries.{IsParts, IsRead, IsTaken, IsType, ReadsPart, of_part, part, typed_shape};
ghost use Rattle.topojson_decoder.specs.Geometries as spec;
ghost use Rattle.topojson_decoder.specs.Members.{BeginsAt, GoesOnWith, IsOccurrence, Judges};
ghost use Rattle.topojson_decoder.specs.declared.geometry_parts.Start.{Start as Begun};

use crate::held::held_stop;
use crate::index::is_name;
use crate::keeping::Keeping;
use crate::shapes::{arcs_shape_at, places_shape_at};
use crate::types::{geometry_type, plain_type_at};
use geojson_types::Counts;
use json_cursor::{Kind, Occurrence, Stop, kind_at, string_at};
use json_reading::{Fault, after_value};
use json_value::Items;
use std::alloc::Global;
use std::mem;
use topojson_meaning::{ArcsType, GeometryType, PlacesType, TopoFault};
use topojson_types::{Cell, TopoShape, Transform};

/// By what the members of an object are read: the transform and the arcs of the topology, what was counted before the object, and what is
/// kept of a feature.
#[derive(Clone, Copy)]
pub struct Start<'a> {
    pub transform: Option<&'a Transform>,
    pub arcs: &'a [Items<Cell>],
    pub counts: Counts,
    pub keeping: Keeping,
}

/// The types of geometries that are made of no others.
#[derive(Clone, Copy)]
pub enum PartType {
    Places(PlacesType),
    Arcs(ArcsType),
}

/// What the value of `coordinates` or `arcs` that was read last is by its type, or its fault, and what was counted then.
#[derive(Drop)]
pub struct Read {
    /// The type that it was read by. A value that comes before its type is not read.
    pub by: Option<PartType>,
    pub shape: Result<Option<TopoShape>, TopoFault>,
    pub counts: Counts,
}

/// What the value of `geometries` is read as, or its fault, and what was counted then. It is read whatever the type is: where the type comes
/// after it, geometries in geometries would else be passed over once more at each of their levels.
#[derive(Drop)]
pub struct Group {
    pub shapes: Result<Items<TopoShape>, TopoFault>,
    pub counts: Counts,
}

/// What was seen of the members of a geometry: where the values of `coordinates` and `arcs` begin, and what was read.
#[derive(Drop)]
pub struct GeometryParts<'a> {
    pub kind: Occurrence<Result<Option<GeometryType>, TopoFault>>,
    pub coordinates: Occurrence<&'a [u8]>,
    pub arcs: Occurrence<&'a [u8]>,
    pub geometries: Occurrence<Group>,
    pub read: Read,
}

impl<'a> Start<'a> {
    /// The same where this was counted.
    #[inline(always)]
    pub(crate) fn after(self, counts: Counts) -> Start<'a>
        ensures { result ≡ record { transform = self.entry.transform; arcs = self.entry.arcs; counts = counts; keeping = self.entry.keeping } }
    {
        Start {
            transform: self.transform,
            arcs: self.arcs,
            counts,
            keeping: self.keeping,
        }
    }
}

/// The type that a value of this kind names, which is no text.
fn textless_type(kind: Kind) -> Result<Option<GeometryType>, TopoFault>
    ensures { result ≡ spec.textless_type kind }
{
    match kind {
        Kind::Null => Ok(None),
        _ => Err(TopoFault::WrongKind),
    }
}

/// The type that the value at the front names, however it stands there, which is none where it is null, or its fault, and what follows it.
#[inline(never)]
fn any_type_at<'a>(
    alloc: Global,
    depth_left: u32,
    bytes: &'a [u8],
) -> Result<(Result<Option<GeometryType>, TopoFault>, &'a [u8]), Fault>
    ensures { FindsValue IsType depth_left bytes.now result }
{
    let Some((name, rest)) = string_at(alloc, bytes)? else {
        let rest = after_value(alloc, depth_left, bytes)?;
        return Ok((textless_type(kind_at(bytes)), rest));
    };
    match geometry_type(name.as_str()) {
        None => Ok((Err(TopoFault::UnknownType), rest)),
        Some(kind) => Ok((Ok(Some(kind)), rest)),
    }
}

/// The type that the value at the front names, which is none where it is null, or its fault, and what follows it.
#[inline(always)]
fn type_at<'a>(
    alloc: Global,
    depth_left: u32,
    bytes: &'a [u8],
) -> Result<(Result<Option<GeometryType>, TopoFault>, &'a [u8]), Fault>
    ensures { FindsValue IsType depth_left bytes.now result }
{
    match plain_type_at(bytes) {
        Some((kind, rest)) => Ok((Ok(Some(kind)), rest)),
        None => any_type_at(alloc, depth_left, bytes),
    }
}

/// What the value at the front is read as by this type, and what follows it; or why reading stops.
#[inline(always)]
fn typed_at<'a>(
    alloc: Global,
    depth_left: u32,
    start: Start<'_>,
    kind: PartType,
    bytes: &'a [u8],
    counts: &mut Counts,
) -> Result<(Option<TopoShape>, &'a [u8]), Stop<TopoFault>>
    ensures { Answers (λ x. x) (part start.entry kind) (prefix_value depth_left bytes.now) counts.old counts.new result }
{
    match kind {
        PartType::Places(kind) => {
            places_shape_at(alloc, depth_left, start.transform, kind, bytes, counts)
        }
        PartType::Arcs(kind) => arcs_shape_at(alloc, depth_left, start.arcs, kind, bytes, counts),
    }
}

/// Whether the types are one.
#[inline(always)]
fn is_same(one: PartType, other: PartType) -> bool
    ensures { result ≡ true → one ≡ other }
{
    use ArcsType::{LineString, MultiLineString, MultiPolygon, Polygon};
    use PartType::{Arcs, Places};
    use PlacesType::{MultiPoint, Point};
    matches!(
        (one, other),
        (Places(Point), Places(Point))
            | (Places(MultiPoint), Places(MultiPoint))
            | (Arcs(LineString), Arcs(LineString))
            | (Arcs(MultiLineString), Arcs(MultiLineString))
            | (Arcs(Polygon), Arcs(Polygon))
            | (Arcs(MultiPolygon), Arcs(MultiPolygon))
    )
}

impl Read {
    /// Goes on with the value at the front, which is read by this type, and gives what follows it.
    #[inline(always)]
    fn read_at<'a>(
        &mut self,
        alloc: Global,
        depth_left: u32,
        start: Start<'_>,
        kind: PartType,
        bytes: &'a [u8],
    ) -> Result<&'a [u8], Fault>
        ensures { ReadsPart start.entry (Some kind) depth_left self.old self.new bytes.now result }
    {
        self.counts = start.counts;
        match typed_at(alloc, depth_left, start, kind, bytes, &mut self.counts) {
            Ok((shape, rest)) => {
                self.by = Some(kind);
                self.shape = Ok(shape);
                Ok(rest)
            }
            Err(stop) => {
                let (shape, rest) = held_stop::<Option<TopoShape>>(alloc, depth_left, bytes, stop)?;
                self.by = Some(kind);
                self.shape = shape;
                Ok(rest)
            }
        }
    }

    /// Goes on with the value at the front, which is read by this type, if it is known, and gives what follows it.
    #[inline(always)]
    #[tactic(auto, using(crate::proofs::GeometryParts::passed_over))]
    fn part_at<'a>(
        &mut self,
        alloc: Global,
        depth_left: u32,
        start: Start<'_>,
        kind: Option<PartType>,
        bytes: &'a [u8],
    ) -> Result<&'a [u8], Fault>
        ensures { ReadsPart start.entry kind depth_left self.old self.new bytes.now result }
    {
        match kind {
            None => after_value(alloc, depth_left, bytes),
            Some(kind) => self.read_at(alloc, depth_left, start, kind, bytes),
        }
    }

    /// Whether it was read by this very type.
    #[inline(always)]
    fn is_by(&self, kind: PartType) -> bool
        ensures { result ≡ true → self.now.by ≡ Some kind }
    {
        match self.by {
            None => false,
            Some(by) => is_same(by, kind),
        }
    }
}

impl<'a> GeometryParts<'a> {
    /// Of no members.
    #[inline(always)]
    pub(crate) fn none() -> GeometryParts<'a>
        ensures { (start : Begun) (depth_left : ℕ) → IsParts start depth_left [] result }
    {
        GeometryParts {
            kind: Occurrence::Never,
            coordinates: Occurrence::Never,
            arcs: Occurrence::Never,
            geometries: Occurrence::Never,
            read: Read {
                by: None,
                shape: Ok(None),
                counts: Counts::none(),
            },
        }
    }

    /// The type of those that have `coordinates`, if it was seen.
    #[inline(always)]
    fn places_type(&self) -> Option<PartType>
        ensures { IfSome result (λ kind. part_name (of_part kind) ≡ codes "coordinates") }
    {
        match self.kind {
            Occurrence::Once(Ok(Some(GeometryType::Places(kind)))) => Some(PartType::Places(kind)),
            _ => None,
        }
    }

    /// The type of those that have `arcs`, if it was seen.
    #[inline(always)]
    fn arcs_type(&self) -> Option<PartType>
        ensures { IfSome result (λ kind. part_name (of_part kind) ≡ codes "arcs") }
    {
        match self.kind {
            Occurrence::Once(Ok(Some(GeometryType::Arcs(kind)))) => Some(PartType::Arcs(kind)),
            _ => None,
        }
    }

    /// Goes on with the value at the front of a member `type`, and gives what follows it.
    #[inline(always)]
    pub(crate) fn type_value(
        &mut self,
        alloc: Global,
        depth_left: u32,
        bytes: &'a [u8],
    ) -> Result<&'a [u8], Fault>
        ensures { (start : Begun) → GoesOnWith (IsParts start depth_left) depth_left (codes "type") self.old self.new bytes.now result }
    {
        let (kind, rest) = type_at(alloc, depth_left, bytes)?;
        self.kind.see(kind);
        Ok(rest)
    }

    /// Goes on with the value at the front of a member `coordinates`, and gives what follows it.
    #[inline(always)]
    pub(crate) fn coordinates_value(
        &mut self,
        alloc: Global,
        depth_left: u32,
        bytes: &'a [u8],
        start: Start<'a>,
    ) -> Result<&'a [u8], Fault>
        ensures { GoesOnWith (IsParts start.entry depth_left) depth_left (codes "coordinates") self.old self.new bytes.now result }
    {
        let kind = self.places_type();
        let rest = self.read.part_at(alloc, depth_left, start, kind, bytes)?;
        self.coordinates.see(bytes);
        Ok(rest)
    }

    /// Goes on with the value at the front of a member `arcs`, and gives what follows it.
    #[inline(always)]
    pub(crate) fn arcs_value(
        &mut self,
        alloc: Global,
        depth_left: u32,
        bytes: &'a [u8],
        start: Start<'a>,
    ) -> Result<&'a [u8], Fault>
        ensures { GoesOnWith (IsParts start.entry depth_left) depth_left (codes "arcs") self.old self.new bytes.now result }
    {
        let kind = self.arcs_type();
        let rest = self.read.part_at(alloc, depth_left, start, kind, bytes)?;
        self.arcs.see(bytes);
        Ok(rest)
    }

    /// Goes on with the value at the front of a member of this name, which isn't `geometries`, and gives what follows it.
    pub(crate) fn value(
        &mut self,
        alloc: Global,
        depth_left: u32,
        name: &str,
        bytes: &'a [u8],
        start: Start<'a>,
    ) -> Result<&'a [u8], Fault>
        requires { bytes_eq name.now (codes "geometries") ≡ false }
        ensures { GoesOnWith (IsParts start.entry depth_left) depth_left name.now self.old self.new bytes.now result }
    {
        if is_name(name, "type") {
            return self.type_value(alloc, depth_left, bytes);
        }
        if is_name(name, "coordinates") {
            return self.coordinates_value(alloc, depth_left, bytes, start);
        }
        if is_name(name, "arcs") {
            return self.arcs_value(alloc, depth_left, bytes, start);
        }
        after_value(alloc, depth_left, bytes)
    }
}

/// The type of the geometry whose members were seen so.
#[inline(always)]
pub(crate) fn kind_of(
    kind: &Occurrence<Result<Option<GeometryType>, TopoFault>>,
) -> Result<Option<GeometryType>, TopoFault>
    ensures { (ms : Listed) → IsOccurrence IsType (named (codes "type") ms) kind.now → result ≡ object_type ms }
{
    match kind {
        Occurrence::Never => Err(TopoFault::Missing),
        Occurrence::Again => Err(TopoFault::Duplicate),
        Occurrence::Once(named) => *named,
    }
}

/// What the value at the front is by this type, which is read where its member came before its type.
#[inline(always)]
#[tactic(auto, using(crate::proofs::MemberOccurrences::judged))]
fn shape_by(
    alloc: Global,
    depth_left: u32,
    kind: PartType,
    prefix: &[u8],
    read: &mut Read,
    start: Start<'_>,
    counts: &mut Counts,
) -> Result<Option<TopoShape>, Stop<TopoFault>>
    ensures { (v : Value) (rest : List ℕ) → prefix_value depth_left prefix.now ≡ Some (v, rest) → IsTaken start.entry kind v read.old
        → Judges (part start.entry kind v) start.entry.counts counts.new result }
{
    if read.is_by(kind) {
        *counts = read.counts;
        return match mem::replace(&mut read.shape, Ok(None)) {
            Ok(shape) => Ok(shape),
            Err(fault) => Err(Stop::Fault(fault)),
        };
    }
    *counts = start.counts;
    match typed_at(alloc, depth_left, start, kind, prefix, counts) {
        Err(stop) => Err(stop),
        Ok((shape, _)) => Ok(shape),
    }
}

/// What the member that a geometry of this type is made of is by it.
#[inline(always)]
pub(crate) fn part_of(
    alloc: Global,
    depth_left: u32,
    kind: PartType,
    occurrence: &Occurrence<&[u8]>,
    read: &mut Read,
    start: Start<'_>,
    counts: &mut Counts,
) -> Result<Option<TopoShape>, Stop<TopoFault>>
    ensures { (ms : Listed) → IsOccurrence (BeginsAt depth_left) (named (part_name (of_part kind)) ms) occurrence.now → IsRead start.entry ms read.old
        → Judges (typed_shape start.entry (Some (of_part kind)) ms) start.entry.counts counts.new result }
{
    match occurrence {
        Occurrence::Never => Err(Stop::Fault(TopoFault::Missing)),
        Occurrence::Again => Err(Stop::Fault(TopoFault::Duplicate)),
        Occurrence::Once(prefix) => {
            shape_by(alloc, depth_left, kind, *prefix, read, start, counts)
        }
    }
}

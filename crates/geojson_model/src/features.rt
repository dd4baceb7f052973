// Features (RFC 7946, section 3.2).
ghost use Rattle.std.specs.Prelude.{◌≡◌, [], ℕ, OnOk, codes};
ghost use Rattle.std.specs.Option.{option_copied};
ghost use Rattle.json_value.specs.declared.json.Json.TheVariants.{Object};
ghost use Rattle.json_cursor.specs.Answers.{Answers};
ghost use Rattle.json_cursor.specs.Arrays.{prefix_value};
ghost use Rattle.json_cursor.specs.Held.{FindsValue};
ghost use Rattle.json_cursor.specs.Members.{Members as Listed, Names};
ghost use Rattle.json_cursor.specs.Names.{name_of};
ghost use Rattle.geojson_meaning.specs.Features.{feature, feature_element};
ghost use Rattle.geojson_meaning.specs.Members.{named};
ghost use Rattle.geojson_model.specs.Features.{IsDrawn, IsFeatureParts, IsFields, IsId, IsProperties};
ghost use Rattle.geojson_model.specs.Features as spec;
ghost use Rattle.geojson_model.specs.Members.{IsOccurrence, Judges, Sees};
ghost use Rattle.geojson_model.specs.declared.geometries.Start.{Start as Begun};

use crate::geometries::{Start, geometry_at, type_at};
use geojson_meaning::{GeoFaultKind, GeoJsonType, identifier};
use geojson_types::{Counts, Feature, Id, Properties, Shape};
use json_cursor::{
    Kind, Members, Name, Occurrence, Stop, kind_at, name_at, named_at, object_into, read_properties,
};
use json_reading::{Fault, Why, after_value, value_at};
use std::alloc::Global;

/// What the value of `geometry` is read as, or its fault, and what was counted then.
#[derive(Drop)]
pub struct Drawn {
    shape: Result<Option<Shape>, GeoFaultKind>,
    counts: Counts,
}

/// What was seen of the members of a feature, but for its type.
#[derive(Drop)]
pub struct Fields {
    id: Occurrence<Result<Option<Id>, GeoFaultKind>>,
    properties: Occurrence<Result<Option<Properties>, GeoFaultKind>>,
    geometry: Occurrence<Drawn>,
}

/// What was seen of the members of a feature.
#[derive(Drop)]
pub struct FeatureParts {
    kind: Occurrence<Result<GeoJsonType, GeoFaultKind>>,
    fields: Fields,
}

/// The identifier that the value at the front is, or its fault, and what follows it.
fn id_at<'a>(
    alloc: Global,
    depth_left: u32,
    bytes: &'a [u8],
) -> Result<(Result<Option<Id>, GeoFaultKind>, &'a [u8]), Fault>
    ensures { FindsValue IsId depth_left bytes.now result }
{
    match kind_at(bytes) {
        Kind::Array => {
            let rest = after_value(alloc, depth_left, bytes)?;
            Ok((Err(GeoFaultKind::WrongKind), rest))
        }
        Kind::Object => {
            let rest = after_value(alloc, depth_left, bytes)?;
            Ok((Err(GeoFaultKind::WrongKind), rest))
        }
        _ => {
            let (value, rest) = value_at(alloc, depth_left, bytes)?;
            Ok((identifier(Some(value)), rest))
        }
    }
}

/// The properties that the value at the front gives, or its fault, and what follows it.
fn properties_at<'a>(
    alloc: Global,
    depth_left: u32,
    bytes: &'a [u8],
) -> Result<(Result<Option<Properties>, GeoFaultKind>, &'a [u8]), Fault>
    ensures { FindsValue IsProperties depth_left bytes.now result }
{
    let (read, rest) = read_properties(alloc, depth_left, bytes, None)?;
    match read {
        None => Ok((Err(GeoFaultKind::WrongKind), rest)),
        Some(properties) => Ok((Ok(properties), rest)),
    }
}

/// The shape that the value at the front gives as a geometry, or its fault, and what follows it: null gives none.
#[tactic(auto, using(crate::proofs::FeatureParts::is_drawn))]
fn drawn_at<'a>(
    alloc: Global,
    depth_left: u32,
    bytes: &'a [u8],
    start: Start,
) -> Result<(Drawn, &'a [u8]), Fault>
    ensures { FindsValue (IsDrawn start) depth_left bytes.now result }
{
    let mut counts = start.counts;
    if let Kind::Null = kind_at(bytes) {
        let rest = after_value(alloc, depth_left, bytes)?;
        let shape = Ok(None);
        return Ok((Drawn { shape, counts }, rest));
    }
    match geometry_at(alloc, depth_left, bytes, start.exact, &mut counts) {
        Ok((shape, rest)) => {
            let shape = Ok(shape);
            Ok((Drawn { shape, counts }, rest))
        }
        Err(Stop::Fault(fault)) => {
            let rest = after_value(alloc, depth_left, bytes)?;
            let shape = Err(fault);
            Ok((Drawn { shape, counts }, rest))
        }
        Err(Stop::NoValue) => Err(Fault::Malformed {
            why: Why::Syntax,
            left: bytes.len(),
        }),
        Err(Stop::Memory) => Err(Fault::Memory),
    }
}

/// Whether a member of this name is one of a feature, but for its type.
#[inline(always)]
pub(crate) fn is_field(name: &Name<'_>) -> bool
    ensures { result ≡ spec.is_field (name_of name.now) }
{
    name.is("geometry") || name.is("properties") || name.is("id")
}

impl Fields {
    /// Of no members.
    #[inline(always)]
    pub(crate) fn none() -> Fields
        ensures { (start : Begun) → IsFields start [] result }
    {
        Fields {
            id: Occurrence::Never,
            properties: Occurrence::Never,
            geometry: Occurrence::Never,
        }
    }

    /// Goes on with one of this name, whose value is at the front.
    #[inline(always)]
    pub(crate) fn see<'a>(
        &mut self,
        alloc: Global,
        depth_left: u32,
        name: &Name<'_>,
        value: &'a [u8],
        start: Start,
    ) -> Result<&'a [u8], Fault>
        ensures { Sees (IsFields start) depth_left (name_of name.now) value.now self.old self.new result }
    {
        if name.is("geometry") {
            let (drawn, rest) = drawn_at(alloc, depth_left, value, start)?;
            self.geometry.see(drawn);
            return Ok(rest);
        }
        if name.is("properties") {
            let (properties, rest) = properties_at(alloc, depth_left, value)?;
            self.properties.see(properties);
            return Ok(rest);
        }
        if name.is("id") {
            let (id, rest) = id_at(alloc, depth_left, value)?;
            self.id.see(id);
            return Ok(rest);
        }
        after_value(alloc, depth_left, value)
    }
}

/// What the member gives that was seen so: none where it isn't there.
#[inline(always)]
fn given<T: Drop>(
    occurrence: Occurrence<Result<Option<T>, GeoFaultKind>>,
) -> Result<Option<T>, GeoFaultKind>
    ensures { result ≡ spec.given occurrence }
{
    match occurrence {
        Occurrence::Never => Ok(None),
        Occurrence::Again => Err(GeoFaultKind::Duplicate),
        Occurrence::Once(value) => value,
    }
}

/// The shape that the member `geometry` gives, and what was counted then.
#[inline(always)]
fn shape_given(
    occurrence: Occurrence<Drawn>,
    before: Counts,
) -> Result<(Option<Shape>, Counts), GeoFaultKind>
    ensures { result ≡ spec.drawn occurrence before }
{
    match occurrence {
        Occurrence::Never => Ok((None, before)),
        Occurrence::Again => Err(GeoFaultKind::Duplicate),
        Occurrence::Once(drawn) => {
            let Drawn { shape, counts } = drawn;
            match shape {
                Err(fault) => Err(fault),
                Ok(shape) => Ok((shape, counts)),
            }
        }
    }
}

/// The feature of these members.
#[inline(always)]
pub(crate) fn feature_of(
    fields: Fields,
    start: Start,
    counts: &mut Counts,
) -> Result<Feature, GeoFaultKind>
    requires { (ms : Listed) × IsFields start ms fields }
    ensures { (ms : Listed) → IsFields start ms fields → Judges (feature start.exact ms) start.counts counts.new (spec.stopped result) }
{
    let Fields {
        id,
        properties,
        geometry,
    } = fields;
    let id = given(id)?;
    let properties = given(properties)?;
    let (shape, counted) = shape_given(geometry, start.counts)?;
    *counts = counted;
    Ok(Feature::of(id, properties, shape))
}

impl FeatureParts {
    /// Of no members.
    #[inline(always)]
    fn none() -> FeatureParts
        ensures { (start : Begun) (depth_left : ℕ) → IsFeatureParts start depth_left [] result }
    {
        FeatureParts {
            kind: Occurrence::Never,
            fields: Fields::none(),
        }
    }

    /// The feature of these members, or the fault of the first that has one, its type before the others.
    #[inline(always)]
    #[tactic(auto, using(crate::proofs::GeometryParts::judges_same))]
    fn feature(self, start: Start, counts: &mut Counts) -> Result<Feature, GeoFaultKind>
        requires { (depth_left : ℕ) × (ms : Listed) × IsFeatureParts start depth_left ms self }
        ensures { (depth_left : ℕ) (ms : Listed) → IsFeatureParts start depth_left ms self → Judges (feature_element start.exact (Object ms)) start.counts counts.new (spec.stopped result) }
    {
        let FeatureParts { kind, fields } = self;
        if let Some(fault) = type_fault(&kind) {
            drop(fields);
            return Err(fault);
        }
        feature_of(fields, start, counts)
    }
}

/// The name of the member at the front, and where its value begins: those of a feature are looked for first.
#[inline(always)]
fn feature_name_at<'a>(alloc: Global, bytes: &'a [u8]) -> Result<(Name<'a>, &'a [u8]), Fault>
    ensures { Names bytes.now result }
{
    if let Some(found) = named_at("type", bytes) {
        return Ok(found);
    }
    if let Some(found) = named_at("id", bytes) {
        return Ok(found);
    }
    if let Some(found) = named_at("geometry", bytes) {
        return Ok(found);
    }
    if let Some(found) = named_at("properties", bytes) {
        return Ok(found);
    }
    name_at(alloc, bytes)
}

impl<'a> Members<'a> for FeatureParts {
    type With = Start;

    ghost holds = { IsFeatureParts };

    fn member(
        &mut self,
        alloc: Global,
        depth_left: u32,
        bytes: &'a [u8],
        with: Start,
    ) -> Result<&'a [u8], Fault> {
        let (name, value) = feature_name_at(alloc, bytes)?;
        if name.is("type") {
            let (kind, rest) = type_at(alloc, depth_left, value)?;
            self.kind.see(kind);
            return Ok(rest);
        }
        self.fields.see(alloc, depth_left, &name, value, with)
    }
}

/// The fault of an object whose type was seen so where a feature is to stand, if it has one.
fn type_fault(occurrence: &Occurrence<Result<GeoJsonType, GeoFaultKind>>) -> Option<GeoFaultKind>
    ensures { result ≡ spec.type_fault occurrence.now }
{
    match occurrence {
        Occurrence::Never => Some(GeoFaultKind::Missing),
        Occurrence::Again => Some(GeoFaultKind::Duplicate),
        Occurrence::Once(Err(fault)) => Some(*fault),
        Occurrence::Once(Ok(kind)) => match kind {
            GeoJsonType::Feature => None,
            _ => Some(GeoFaultKind::UnknownType),
        },
    }
}

/// The feature at the front (RFC 7946, section 3.2), and what follows it; or why reading stops. Its members may stand in any order.
pub fn feature_at<'a>(
    alloc: Global,
    depth_left: u32,
    bytes: &'a [u8],
    exact: bool,
    counts: &mut Counts,
) -> Result<(Feature, &'a [u8]), Stop<GeoFaultKind>>
    ensures { Answers (λ x. x) (feature_element exact) (prefix_value depth_left bytes.now) counts.old counts.new result }
{
    let start = Start {
        exact,
        counts: *counts,
    };
    let mut parts = FeatureParts::none();
    match object_into::<FeatureParts>(alloc, depth_left, &mut parts, bytes, start) {
        Err(fault) => {
            drop(parts);
            Err(Stop::from(fault))
        }
        Ok(None) => {
            drop(parts);
            Err(Stop::Fault(GeoFaultKind::NotObject))
        }
        Ok(Some(rest)) => match parts.feature(start, counts) {
            Err(fault) => Err(Stop::Fault(fault)),
            Ok(feature) => Ok((feature, rest)),
        },
    }
}

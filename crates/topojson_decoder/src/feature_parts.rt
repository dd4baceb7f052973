// What is seen of the members of a feature (TopoJSON 1.0, section 2.2).
ghost use Rattle.std.specs.Prelude.{◌≡◌, [], ℕ, IfSome, List, None, Ok, Option, Result, codes, true};
ghost use Rattle.json_value.specs.declared.json.Json.{Json as Value};
ghost use Rattle.json_value.specs.Members.{Members as Listed};
ghost use Rattle.json_cursor.specs.Held.{FindsValue};
ghost use Rattle.json_cursor.specs.Members.{GoesOn};
ghost use Rattle.json_reading.specs.Strings.{simple};
ghost use Rattle.topojson_meaning.specs.Answers.{Finds};
ghost use Rattle.topojson_meaning.specs.Features.{identifier as identifier_in, members_if};
ghost use Rattle.topojson_meaning.specs.declared.fault.TopoFault.{TopoFault as Refusal};
ghost use Rattle.topojson_decoder.specs.Features.{IsFeature, IsFound, IsMemberAt, blank_identifier, blank_members, feature, found_in as found_among, member_name};
ghost use Rattle.topojson_decoder.specs.Members.{GoesOnWith, IsOccurrence, Judges};
ghost use Rattle.topojson_decoder.specs.declared.geometry_parts.Start.{Start as Begun};

use crate::geometries::{member_value, typed_of};
use crate::geometry_parts::{GeometryParts, Start};
use crate::index::is_name;
use crate::keeping::Keeping;
use geojson_types::{Counts, Id, Properties};
use json_cursor::{Kind, Members, Occurrence, Stop, kind_at, name_at, named_at, read_properties};
use json_reading::{Fault, after_value, next, number_at, value_at};
use json_value::Json;
use std::alloc::Global;
use std::mem;
use topojson_meaning::{GeometryType, TopoFault};
use topojson_types::TopoFeature;

/// What was seen of the members of a feature: those of its geometry, and what is kept of its identifier and its properties, or their faults.
#[derive(Drop)]
pub struct FeatureParts<'a> {
    pub parts: GeometryParts<'a>,
    pub id: Occurrence<Result<Option<Id>, TopoFault>>,
    pub properties: Occurrence<Result<Option<Properties>, TopoFault>>,
}

/// The members of a feature that are looked for first. `Kind` is the member `type`.
#[derive(Clone, Copy)]
pub enum FeatureMember {
    Kind,
    Properties,
    Arcs,
    Id,
    Coordinates,
}

/// The identifier that the member `id` gives. Absent and null are none.
#[inline(always)]
fn identifier(value: Option<Json>) -> Result<Option<Id>, TopoFault>
    ensures { Finds (λ id. id) result (identifier_in value) }
{
    match value {
        None => Ok(None),
        Some(Json::Null) => Ok(None),
        Some(Json::Text(text)) => Ok(Some(Id::Text(text))),
        Some(Json::Number(number)) => Ok(Some(Id::Number(number))),
        Some(_) => Err(TopoFault::WrongKind),
    }
}

/// The identifier that a value of this kind gives where none is kept.
fn blank_id(kind: Kind) -> Result<Option<Id>, TopoFault>
    ensures { result ≡ blank_identifier kind }
{
    match kind {
        Kind::Null => Ok(None),
        Kind::Text => Ok(None),
        Kind::Number => Ok(None),
        _ => Err(TopoFault::WrongKind),
    }
}

/// The properties that a value of this kind gives where none are kept.
fn blank_properties(kind: Kind) -> Result<Option<Properties>, TopoFault>
    ensures { result ≡ blank_members kind }
{
    match kind {
        Kind::Null => Ok(None),
        Kind::Object => Ok(None),
        _ => Err(TopoFault::WrongKind),
    }
}

/// The identifier that the value at the front is, whatever it is, or its fault, and what follows it.
#[inline(never)]
fn any_id_at<'a>(
    alloc: Global,
    depth_left: u32,
    bytes: &'a [u8],
) -> Result<(Result<Option<Id>, TopoFault>, &'a [u8]), Fault>
    ensures { FindsValue (IsFound identifier_in) depth_left bytes.now result }
{
    match kind_at(bytes) {
        Kind::Array => {
            let rest = after_value(alloc, depth_left, bytes)?;
            Ok((Err(TopoFault::WrongKind), rest))
        }
        Kind::Object => {
            let rest = after_value(alloc, depth_left, bytes)?;
            Ok((Err(TopoFault::WrongKind), rest))
        }
        _ => {
            let (value, rest) = value_at(alloc, depth_left, bytes)?;
            Ok((identifier(Some(value)), rest))
        }
    }
}

/// The identifier that the value at the front is, or its fault, and what follows it: a number is read with no value around it. Between the
/// minus sign and the digits two bytes stand with which no value begins.
#[inline(always)]
fn whole_id_at<'a>(
    alloc: Global,
    depth_left: u32,
    bytes: &'a [u8],
) -> Result<(Result<Option<Id>, TopoFault>, &'a [u8]), Fault>
    ensures { FindsValue (IsFound identifier_in) depth_left bytes.now result }
{
    let Some((first, _)) = next(bytes) else {
        return any_id_at(alloc, depth_left, bytes);
    };
    if first < b'-' || first > b'9' {
        return any_id_at(alloc, depth_left, bytes);
    }
    let (number, rest) = number_at(alloc, bytes)?;
    Ok((Ok(Some(Id::Number(number))), rest))
}

/// The properties that the value at the front is, or their fault, and what follows it.
#[inline(always)]
fn whole_properties_at<'a>(
    alloc: Global,
    depth_left: u32,
    bytes: &'a [u8],
    lasting: Option<&'static [u8]>,
) -> Result<(Result<Option<Properties>, TopoFault>, &'a [u8]), Fault>
    ensures { FindsValue (IsFound members_if) depth_left bytes.now result }
{
    let (read, rest) = read_properties(alloc, depth_left, bytes, lasting)?;
    match read {
        None => Ok((Err(TopoFault::WrongKind), rest)),
        Some(properties) => Ok((Ok(properties), rest)),
    }
}

impl<'a> FeatureParts<'a> {
    /// Of no members.
    #[inline(always)]
    pub(crate) fn none() -> FeatureParts<'a>
        ensures { (start : Begun) (depth_left : ℕ) → IsFeature start depth_left [] result }
    {
        FeatureParts {
            parts: GeometryParts::none(),
            id: Occurrence::Never,
            properties: Occurrence::Never,
        }
    }

    /// Goes on with the value at the front of a member `id`, and gives what follows it.
    #[inline(always)]
    fn id_value(
        &mut self,
        alloc: Global,
        depth_left: u32,
        bytes: &'a [u8],
        start: Start<'a>,
    ) -> Result<&'a [u8], Fault>
        ensures { GoesOnWith (IsFeature start.entry depth_left) depth_left (codes "id") self.old self.new bytes.now result }
    {
        match start.keeping {
            Keeping::Whole(_) => {
                let (id, rest) = whole_id_at(alloc, depth_left, bytes)?;
                self.id.see(id);
                Ok(rest)
            }
            Keeping::Shapes | Keeping::Counted => {
                let rest = after_value(alloc, depth_left, bytes)?;
                self.id.see(blank_id(kind_at(bytes)));
                Ok(rest)
            }
        }
    }

    /// Goes on with the value at the front of a member `properties`, and gives what follows it.
    #[inline(always)]
    fn properties_value(
        &mut self,
        alloc: Global,
        depth_left: u32,
        bytes: &'a [u8],
        start: Start<'a>,
    ) -> Result<&'a [u8], Fault>
        ensures { GoesOnWith (IsFeature start.entry depth_left) depth_left (codes "properties") self.old self.new bytes.now result }
    {
        match start.keeping {
            Keeping::Whole(lasting) => {
                let (properties, rest) = whole_properties_at(alloc, depth_left, bytes, lasting)?;
                self.properties.see(properties);
                Ok(rest)
            }
            Keeping::Shapes | Keeping::Counted => {
                let rest = after_value(alloc, depth_left, bytes)?;
                self.properties.see(blank_properties(kind_at(bytes)));
                Ok(rest)
            }
        }
    }

    /// Goes on with the value at the front of a member of this name, and gives what follows it.
    #[inline(always)]
    #[tactic(auto, using(crate::proofs::FeatureParts::part_goes_on, crate::proofs::MemberOccurrences::by_word))]
    pub(crate) fn value(
        &mut self,
        alloc: Global,
        depth_left: u32,
        name: &str,
        bytes: &'a [u8],
        start: Start<'a>,
    ) -> Result<&'a [u8], Fault>
        ensures { GoesOnWith (IsFeature start.entry depth_left) depth_left name.now self.old self.new bytes.now result }
    {
        if is_name(name, "id") {
            return self.id_value(alloc, depth_left, bytes, start);
        }
        if is_name(name, "properties") {
            return self.properties_value(alloc, depth_left, bytes, start);
        }
        member_value(alloc, depth_left, &mut self.parts, name, bytes, start)
    }

    /// Goes on with the value at the front of this member, and gives what follows it.
    #[inline(always)]
    #[tactic(auto, using(crate::proofs::FeatureParts::part_goes_on))]
    fn member_value(
        &mut self,
        alloc: Global,
        depth_left: u32,
        member: FeatureMember,
        bytes: &'a [u8],
        start: Start<'a>,
    ) -> Result<&'a [u8], Fault>
        ensures { GoesOnWith (IsFeature start.entry depth_left) depth_left (member_name member) self.old self.new bytes.now result }
    {
        match member {
            FeatureMember::Kind => self.parts.type_value(alloc, depth_left, bytes),
            FeatureMember::Properties => self.properties_value(alloc, depth_left, bytes, start),
            FeatureMember::Arcs => self.parts.arcs_value(alloc, depth_left, bytes, start),
            FeatureMember::Id => self.id_value(alloc, depth_left, bytes, start),
            FeatureMember::Coordinates => {
                self.parts
                    .coordinates_value(alloc, depth_left, bytes, start)
            }
        }
    }

    /// Goes on with the member at the front, whatever its name is, and gives what follows it.
    #[inline(never)]
    fn any_member(
        &mut self,
        alloc: Global,
        depth_left: u32,
        bytes: &'a [u8],
        start: Start<'a>,
    ) -> Result<&'a [u8], Fault>
        ensures { GoesOn (IsFeature start.entry depth_left) depth_left self.old self.new bytes.now result }
    {
        let (name, value) = name_at(alloc, bytes)?;
        self.value(alloc, depth_left, name.as_str(), value, start)
    }
}

/// The first letter of the string at the front.
#[inline(always)]
pub(crate) fn first_letter(bytes: &[u8]) -> u8 {
    match bytes {
        [_, letter, ..] => *letter,
        _ => 0,
    }
}

/// This member at the front, and where its value begins, if its name stands there as it is.
#[inline(always)]
fn named_member<'a>(
    member: FeatureMember,
    name: &'static str,
    bytes: &'a [u8],
) -> Option<(FeatureMember, &'a [u8])>
    requires plain { simple name.now ≡ true }
    requires own { name.now ≡ member_name member }
    ensures { IfSome result (λ x. IsMemberAt bytes.now x.0 x.1) }
{
    let Some((_found, value)) = named_at(name, bytes) else {
        return None;
    };
    Some((member, value))
}

/// The member at the front, and where its value begins, if it is one of those that are looked for first, by the first letter of its name.
#[inline(always)]
fn feature_member_at<'a>(bytes: &'a [u8]) -> Option<(FeatureMember, &'a [u8])>
    ensures { IfSome result (λ x. IsMemberAt bytes.now x.0 x.1) }
{
    match first_letter(bytes) {
        b't' => named_member(FeatureMember::Kind, "type", bytes),
        b'p' => named_member(FeatureMember::Properties, "properties", bytes),
        b'a' => named_member(FeatureMember::Arcs, "arcs", bytes),
        b'i' => named_member(FeatureMember::Id, "id", bytes),
        b'c' => named_member(FeatureMember::Coordinates, "coordinates", bytes),
        _ => None,
    }
}

impl<'a> Members<'a> for FeatureParts<'a> {
    type With = Start<'a>;

    ghost holds = { IsFeature };

    #[tactic(auto, using(crate::proofs::FeatureParts::member_at_goes_on))]
    fn member(
        &mut self,
        alloc: Global,
        depth_left: u32,
        bytes: &'a [u8],
        with: Start<'a>,
    ) -> Result<&'a [u8], Fault> {
        match feature_member_at(bytes) {
            Some((member, value)) => self.member_value(alloc, depth_left, member, value, with),
            None => self.any_member(alloc, depth_left, bytes, with),
        }
    }
}

/// What a member is that was seen so, and that may be absent. It is moved out of there.
#[inline(always)]
fn found_in<T: Drop>(
    occurrence: &mut Occurrence<Result<Option<T>, TopoFault>>,
) -> Result<Option<T>, TopoFault>
    ensures { (read : Option Value → Result (Option T) Refusal) (vs : List Value) → read None ≡ Ok None → IsOccurrence (IsFound read) vs occurrence.old → result ≡ found_among read vs }
{
    match occurrence {
        Occurrence::Never => Ok(None),
        Occurrence::Again => Err(TopoFault::Duplicate),
        Occurrence::Once(found) => mem::replace(found, Ok(None)),
    }
}

/// The feature of this type whose members were seen so. What was kept of them is moved out of there.
#[inline(always)]
pub(crate) fn feature_of(
    alloc: Global,
    depth_left: u32,
    kind: Option<GeometryType>,
    occurrence: &mut FeatureParts<'_>,
    start: Start<'_>,
    counts: &mut Counts,
) -> Result<TopoFeature, Stop<TopoFault>>
    ensures { (ms : Listed) → IsFeature start.entry depth_left ms occurrence.old → Judges (feature start.entry kind ms) start.entry.counts counts.new result }
{
    let id = match found_in(&mut occurrence.id) {
        Err(fault) => return Err(Stop::Fault(fault)),
        Ok(id) => id,
    };
    let properties = match found_in(&mut occurrence.properties) {
        Err(fault) => return Err(Stop::Fault(fault)),
        Ok(properties) => properties,
    };
    match typed_of(
        alloc,
        depth_left,
        kind,
        &mut occurrence.parts,
        start,
        counts,
    ) {
        Err(stop) => Err(stop),
        Ok(shape) => {
            Ok(TopoFeature {
                id,
                properties,
                shape: start.keeping.shape(shape),
            })
        }
    }
}

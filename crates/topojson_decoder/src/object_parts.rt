// One object of a topology (TopoJSON 1.0, sections 2.1.5 and 2.2).
ghost use Rattle.std.specs.Prelude.{◌≡◌, [], ℕ, codes};
ghost use Rattle.std.specs.Option.{option_copied};
ghost use Rattle.json_value.specs.declared.json.Json.{Json as Value};
ghost use Rattle.json_value.specs.Members.{Members as Listed, named};
ghost use Rattle.json_cursor.specs.Answers.{Answers};
ghost use Rattle.json_cursor.specs.Arrays.{prefix_value};
ghost use Rattle.json_cursor.specs.Held.{FindsValue};
ghost use Rattle.topojson_meaning.specs.Objects.{object};
ghost use Rattle.topojson_decoder.specs.Kept.{kept_object};
ghost use Rattle.topojson_decoder.specs.Members.{GoesOnWith, IsOccurrence, Judges};
ghost use Rattle.topojson_decoder.specs.ObjectParts.{AreFeatures, IsObject, collection, features, kept_typed_object};
ghost use Rattle.topojson_decoder.specs.declared.geometry_parts.Start.{Start as Begun};

use crate::collected_features::{KeptFeatures, features_at};
use crate::feature_parts::{FeatureParts, feature_of};
use crate::geometry_parts::{Start, kind_of};
use crate::held::held;
use crate::index::is_name;
use crate::keeping::Keeping;
use crate::types::is_collection;
use geojson_types::Counts;
use json_cursor::{Members, Occurrence, Stop, name_at, object_into as parts_into};
use json_reading::{Fault, after_value};
use json_value::Items;
use std::alloc::Global;
use std::mem;
use topojson_meaning::{GeometryType, TopoFault};
use topojson_types::{Cell, TopoObject, Transform};

/// What is kept of an object, and how many features it has.
#[derive(Drop)]
pub struct KeptObject {
    pub object: TopoObject,
    pub features: u64,
}

/// The features that the value of `geometries` is read as, or their fault, and what was counted then.
#[derive(Drop)]
pub struct ReadFeatures {
    pub features: Result<KeptFeatures, TopoFault>,
    pub counts: Counts,
}

/// Where the value of `geometries` begins, and what it was read as, if its object was known to be a collection then.
#[derive(Drop)]
pub struct Features<'a> {
    pub prefix: &'a [u8],
    pub read: Option<ReadFeatures>,
}

/// What was seen of the members of an object: those of a feature but for `geometries`, and the features of a collection.
#[derive(Drop)]
pub struct ObjectParts<'a> {
    pub feature: FeatureParts<'a>,
    pub features: Occurrence<Features<'a>>,
}

/// The value of `geometries` at the front, which is passed over, and what follows it.
fn passed_at<'a>(
    alloc: Global,
    depth_left: u32,
    start: Start<'a>,
    bytes: &'a [u8],
) -> Result<(Features<'a>, &'a [u8]), Fault>
    ensures { FindsValue (AreFeatures start.entry depth_left) depth_left bytes.now result }
{
    let rest = after_value(alloc, depth_left, bytes)?;
    Ok((
        Features {
            prefix: bytes,
            read: None,
        },
        rest,
    ))
}

/// The value of `geometries` at the front, which is read as features, and what follows it.
fn read_at<'a>(
    alloc: Global,
    depth_left: u32,
    start: Start<'a>,
    bytes: &'a [u8],
) -> Result<(Features<'a>, &'a [u8]), Fault>
    ensures { FindsValue (AreFeatures start.entry depth_left) depth_left bytes.now result }
{
    let mut counts = start.counts;
    let answer = features_at(alloc, depth_left, start, bytes, &mut counts);
    let (features, rest) = held(alloc, depth_left, bytes, answer)?;
    let read = ReadFeatures { features, counts };
    Ok((
        Features {
            prefix: bytes,
            read: Some(read),
        },
        rest,
    ))
}

/// The value of `geometries` at the front, which is read as features where its object is known to be a collection, and what follows it.
fn features_member<'a>(
    alloc: Global,
    depth_left: u32,
    start: Start<'a>,
    known: bool,
    bytes: &'a [u8],
) -> Result<(Features<'a>, &'a [u8]), Fault>
    ensures { FindsValue (AreFeatures start.entry depth_left) depth_left bytes.now result }
{
    if known {
        return read_at(alloc, depth_left, start, bytes);
    }
    passed_at(alloc, depth_left, start, bytes)
}

impl<'a> ObjectParts<'a> {
    /// Of no members.
    pub(crate) fn none() -> ObjectParts<'a>
        ensures { (start : Begun) (depth_left : ℕ) → IsObject start depth_left [] result }
    {
        ObjectParts {
            feature: FeatureParts::none(),
            features: Occurrence::Never,
        }
    }

    /// Whether the type of a collection was seen.
    fn is_known(&self) -> bool {
        matches!(
            self.feature.parts.kind,
            Occurrence::Once(Ok(Some(GeometryType::Collection)))
        )
    }

    /// Goes on with the value at the front of a member of this name, and gives what follows it.
    fn value(
        &mut self,
        alloc: Global,
        depth_left: u32,
        name: &str,
        bytes: &'a [u8],
        start: Start<'a>,
    ) -> Result<&'a [u8], Fault>
        ensures { GoesOnWith (IsObject start.entry depth_left) depth_left name.now self.old self.new bytes.now result }
    {
        if is_name(name, "geometries") {
            let known = self.is_known();
            let (found, rest) = features_member(alloc, depth_left, start, known, bytes)?;
            self.features.see(found);
            return Ok(rest);
        }
        self.feature.value(alloc, depth_left, name, bytes, start)
    }
}

impl<'a> Members<'a> for ObjectParts<'a> {
    type With = Start<'a>;

    ghost holds = { IsObject };

    fn member(
        &mut self,
        alloc: Global,
        depth_left: u32,
        bytes: &'a [u8],
        with: Start<'a>,
    ) -> Result<&'a [u8], Fault> {
        let (name, value) = name_at(alloc, bytes)?;
        self.value(alloc, depth_left, name.as_str(), value, with)
    }
}

/// The features that the value of `geometries` is, which are read where the member came before the type.
#[tactic(auto, using(crate::proofs::MemberOccurrences::judged))]
fn features_by(
    alloc: Global,
    depth_left: u32,
    found: Features<'_>,
    start: Start<'_>,
    counts: &mut Counts,
) -> Result<KeptFeatures, Stop<TopoFault>>
    ensures { (v : Value) → AreFeatures start.entry depth_left v found.entry → Judges (features start.entry v) start.entry.counts counts.new result }
{
    let Features { prefix, read } = found;
    match read {
        Some(read) => {
            let ReadFeatures {
                features,
                counts: counted,
            } = read;
            *counts = counted;
            match features {
                Ok(features) => Ok(features),
                Err(fault) => Err(Stop::Fault(fault)),
            }
        }
        None => {
            *counts = start.counts;
            match features_at(alloc, depth_left, start, prefix, counts) {
                Err(stop) => Err(stop),
                Ok((features, _)) => Ok(features),
            }
        }
    }
}

/// The collection whose features were seen so.
fn collection_of(
    alloc: Global,
    depth_left: u32,
    occurrence: Occurrence<Features<'_>>,
    start: Start<'_>,
    counts: &mut Counts,
) -> Result<KeptObject, Stop<TopoFault>>
    ensures { (ms : Listed) → IsOccurrence (AreFeatures start.entry depth_left) (named (codes "geometries") ms) occurrence.entry → Judges (collection start.entry ms) start.entry.counts counts.new result }
{
    match occurrence {
        Occurrence::Never => Err(Stop::Fault(TopoFault::Missing)),
        Occurrence::Again => Err(Stop::Fault(TopoFault::Duplicate)),
        Occurrence::Once(found) => match features_by(alloc, depth_left, found, start, counts) {
            Err(stop) => Err(stop),
            Ok(features) => {
                let KeptFeatures { list, count } = features;
                Ok(KeptObject {
                    object: TopoObject::Many(list),
                    features: count,
                })
            }
        },
    }
}

/// The object whose members were seen so. What was kept of them is moved out of there.
fn object_of(
    alloc: Global,
    depth_left: u32,
    occurrence: &mut ObjectParts<'_>,
    start: Start<'_>,
    counts: &mut Counts,
) -> Result<KeptObject, Stop<TopoFault>>
    ensures { (ms : Listed) → IsObject start.entry depth_left ms occurrence.old → Judges (kept_typed_object start.entry ms) start.entry.counts counts.new result }
{
    let kind = match kind_of(&occurrence.feature.parts.kind) {
        Err(fault) => return Err(Stop::Fault(fault)),
        Ok(kind) => kind,
    };
    if is_collection(kind) {
        let features = mem::replace(&mut occurrence.features, Occurrence::Never);
        return collection_of(alloc, depth_left, features, start, counts);
    }
    let read = feature_of(
        alloc,
        depth_left,
        kind,
        &mut occurrence.feature,
        start,
        counts,
    );
    match read {
        Err(stop) => Err(stop),
        Ok(feature) => Ok(KeptObject {
            object: TopoObject::One(feature),
            features: 1,
        }),
    }
}

/// What is kept of the object at the front, and what follows it; or why reading stops. What is seen of its members goes into `occurrence`,
/// which holds none yet, and what is kept of them is moved out of there.
fn object_into<'a>(
    alloc: Global,
    depth_left: u32,
    occurrence: &mut ObjectParts<'a>,
    bytes: &'a [u8],
    start: Start<'a>,
    counts: &mut Counts,
) -> Result<(KeptObject, &'a [u8]), Stop<TopoFault>>
    ensures { ((d : ℕ) → IsObject start.entry d [] occurrence.old) → counts.old ≡ start.entry.counts → Answers (λ x. x) (kept_object start.entry.keeping (option_copied start.entry.transform) start.entry.arcs.now) (prefix_value depth_left bytes.now) start.entry.counts counts.new result }
{
    let Some(rest) = parts_into::<ObjectParts<'a>>(alloc, depth_left, occurrence, bytes, start)?
    else {
        return Err(Stop::Fault(TopoFault::WrongKind));
    };
    match object_of(alloc, depth_left - 1, occurrence, start, counts) {
        Err(stop) => Err(stop),
        Ok(object) => Ok((object, rest)),
    }
}

/// What is kept of the object of a topology at the front, and what follows it; or why reading stops. Its members may stand in any order.
pub(crate) fn kept_object_at<'a>(
    alloc: Global,
    depth_left: u32,
    by: Start<'a>,
    bytes: &'a [u8],
    counts: &mut Counts,
) -> Result<(KeptObject, &'a [u8]), Stop<TopoFault>>
    ensures { Answers (λ x. x) (kept_object by.entry.keeping (option_copied by.entry.transform) by.entry.arcs.now) (prefix_value depth_left bytes.now) counts.old counts.new result }
{
    let mut occurrence = ObjectParts::none();
    let start = by.after(*counts);
    object_into(alloc, depth_left, &mut occurrence, bytes, start, counts)
}

/// The object of a topology at the front, and what follows it; or why reading stops. Its members may stand in any order.
#[tactic(auto, using(crate::proofs::KeptParts::answers_back, crate::proofs::KeptParts::whole_object))]
pub fn object_at<'a>(
    alloc: Global,
    depth_left: u32,
    transform: Option<&'a Transform>,
    arcs: &'a [Items<Cell>],
    bytes: &'a [u8],
    counts: &mut Counts,
) -> Result<(TopoObject, &'a [u8]), Stop<TopoFault>>
    ensures { Answers (λ x. x) (object (option_copied transform.entry) arcs.now) (prefix_value depth_left bytes.now) counts.old counts.new result }
{
    let start = Start {
        transform,
        arcs,
        counts: *counts,
        keeping: Keeping::Whole(None),
    };
    match kept_object_at(alloc, depth_left, start, bytes, counts) {
        Err(stop) => Err(stop),
        Ok((kept, rest)) => {
            let KeptObject { object, .. } = kept;
            Ok((object, rest))
        }
    }
}

// Topologies (TopoJSON 1.0, section 2.1).
ghost use Rattle.std.specs.Prelude.{◌≡◌, Bool, ℕ, IfOk, List, None, Some, codes};
ghost use Rattle.std.specs.Option.{option_copied};
ghost use Rattle.json_value.specs.declared.json.Json.{Json as Value};
ghost use Rattle.json_value.specs.Members.{Members as Listed, named};
ghost use Rattle.geojson_types.specs.declared.counts.Counts.{Counts as Counted};
ghost use Rattle.json_cursor.specs.Answers.{Answers};
ghost use Rattle.json_cursor.specs.Arrays.{prefix_value};
ghost use Rattle.geometry.specs.Points.{Point};
ghost use Rattle.topojson_meaning.specs.ArcTexts.{AreArcTexts};
ghost use Rattle.topojson_meaning.specs.Members.{need_as};
ghost use Rattle.topojson_meaning.specs.Reader.{pure};
ghost use Rattle.topojson_meaning.specs.Topologies as spec;
ghost use Rattle.topojson_decoder.specs.Index.{AreArcs, IsIndex, IsLost, NoArcs, NoObjects, transform_by};
ghost use Rattle.json_cursor.specs.declared.occurrence.Occurrence.TheVariants.{Once};
ghost use Rattle.topojson_decoder.specs.Kept.{kept_arc_list, kept_contents, kept_objects, kept_value_contents};
ghost use Rattle.topojson_decoder.specs.Members.{BeginsAt, IsOccurrence, Judges};
ghost use Rattle.topojson_decoder.specs.Topologies.{Gives, NeededAt, transform_in, type_in};
ghost use Rattle.topojson_decoder.specs.Transforms.{IsTransformOf};

use crate::arc_ends::KeptArcs;
use crate::arcs::kept_arcs_at;
use crate::index::{By, FoundArcs, Index, ReadArcs, members_seen_at};
use crate::keeping::Keeping;
use crate::named_objects::{KeptObjects, objects_at};
use geojson_types::Counts;
use json_cursor::{Occurrence, Stop, string_at};
use json_value::{Items, OwnText};
use std::alloc::Global;
use std::marker::Model;
use topojson_meaning::TopoFault;
use topojson_types::{Cell, TopoObject, Transform};

/// What a topology is made of.
#[derive(Drop)]
pub struct Parts {
    pub objects: Items<(OwnText, TopoObject)>,
    pub arcs: Items<Items<Cell>>,
    pub transform: Option<Transform>,
    /// How many positions the arcs have, where their ends alone are kept.
    pub positions: Option<u64>,
    /// How many features each object has, where no features of collections are kept.
    pub features: Option<Items<u64>>,
}

/// What a topology is made of, and the texts in which its arcs stand.
#[derive(Drop)]
pub(crate) struct SpelledParts<'a> {
    parts: Parts,
    texts: Vec<Option<&'a [u8]>>,
}

impl<'a> Model for SpelledParts<'a> {
    ghost use Rattle.topojson_meaning.specs.ArcTexts.{AreArcTexts};
    ghost use Rattle.topojson_decoder.specs.contracts.topologies.Parts as made;
    ghost use Rattle.topojson_decoder.specs.declared.topologies.Parts.{Parts};

    ghost Value = { Parts };

    ghost coded = { made.the_row.coded };

    ghost view = { λ s. s.parts };

    ghost invariant = { λ s. AreArcTexts s.parts.transform s.parts.arcs s.texts.items };
}

impl<'a> SpelledParts<'a> {
    /// The parts, and the texts.
    pub(crate) fn taken_apart(self) -> (Parts, Vec<Option<&'a [u8]>>)
        ensures parts { result.0 ≡ self.entry }
        ensures texts { AreArcTexts self.entry.transform self.entry.arcs result.1.items }
    {
        let SpelledParts { parts, texts } = self;
        (parts, texts)
    }
}

/// The texts, of which there are none where there is a transform.
fn texts_by<'a>(
    transform: Option<&Transform>,
    texts: Vec<Option<&'a [u8]>>,
) -> Vec<Option<&'a [u8]>>
    ensures { (arcs : List (List Point)) → AreArcTexts None arcs texts.entry.items → AreArcTexts (option_copied transform.entry) arcs result.items }
{
    let mut texts = texts;
    if transform.is_some() {
        texts.clear();
    }
    texts
}

/// Where the value of a member begins that must be there once.
fn needed<'a>(occurrence: Occurrence<&'a [u8]>) -> Result<&'a [u8], TopoFault>
    ensures { (depth_left : ℕ) (vs : List Value) → IsOccurrence (BeginsAt depth_left) vs occurrence.entry → NeededAt depth_left vs result }
{
    match occurrence {
        Occurrence::Never => Err(TopoFault::Missing),
        Occurrence::Once(at) => Ok(at),
        Occurrence::Again => Err(TopoFault::Duplicate),
    }
}

/// Ok where the type is that of a topology.
fn type_of(
    alloc: Global,
    depth_left: u32,
    occurrence: Occurrence<&[u8]>,
) -> Result<(), Stop<TopoFault>>
    ensures { (ms : Listed) (counts : Counted) → IsOccurrence (BeginsAt depth_left) (named (codes "type") ms) occurrence.entry → Gives (λ x. x) (type_in ms) counts counts result }
{
    let at = match needed(occurrence) {
        Err(fault) => return Err(Stop::Fault(fault)),
        Ok(at) => at,
    };
    let Some((name, _)) = string_at(alloc, at)? else {
        return Err(Stop::Fault(TopoFault::WrongKind));
    };
    if !name.is("Topology") {
        return Err(Stop::Fault(TopoFault::NotTopology));
    }
    Ok(())
}

/// The transform of whose member this was seen, if there is one.
fn transform_of(
    occurrence: Occurrence<Result<Option<Transform>, TopoFault>>,
) -> Result<Option<Transform>, TopoFault>
    ensures gives { (ms : Listed) (counts : Counted) → IsOccurrence IsTransformOf (named (codes "transform") ms) occurrence → transform_in ms counts ≡ pure result counts }
    ensures by { IfOk result (λ t. transform_by occurrence ≡ Some t) }
{
    match occurrence {
        Occurrence::Never => Ok(None),
        Occurrence::Again => Err(TopoFault::Duplicate),
        Occurrence::Once(transform) => transform,
    }
}

/// The arcs by this transform, as they were read or else from where they stand.
#[tactic(auto, using(crate::proofs::MemberOccurrences::judged, crate::proofs::MemberOccurrences::judged_read))]
fn arcs_by<'a>(
    alloc: Global,
    depth_left: u32,
    keeping: Keeping,
    transform: Option<&Transform>,
    found: FoundArcs<'a>,
    counts: &mut Counts,
) -> Result<KeptArcs<'a>, Stop<TopoFault>>
    ensures judges { (texts : Bool) (v : Value) → AreArcs (record { keeping = keeping; texts = texts; counts = counts.old }) (Some (option_copied transform.entry)) depth_left v found.entry → Judges (kept_arc_list keeping (option_copied transform.entry) v) counts.old counts.new result }
    ensures there { IfOk result (λ _. NoArcs depth_left (Once found.entry) → ⊥) }
{
    let FoundArcs { prefix, read } = found;
    match read {
        Some(
            ReadArcs {
                arcs,
                counts: counted,
            },
        ) => {
            *counts = counted;
            match arcs {
                Err(fault) => Err(Stop::Fault(fault)),
                Ok(arcs) => Ok(arcs),
            }
        }
        None => match kept_arcs_at(alloc, depth_left, keeping, false, transform, prefix, counts) {
            Err(stop) => Err(stop),
            Ok((arcs, _)) => Ok(arcs),
        },
    }
}

/// The arcs by this transform.
fn arcs_of<'a>(
    alloc: Global,
    depth_left: u32,
    keeping: Keeping,
    transform: Option<&Transform>,
    occurrence: Occurrence<FoundArcs<'a>>,
    counts: &mut Counts,
) -> Result<KeptArcs<'a>, Stop<TopoFault>>
    ensures there { IfOk result (λ _. NoArcs depth_left occurrence.entry → ⊥) }
    ensures gives { (texts : Bool) (ms : Listed) → IsOccurrence (AreArcs (record { keeping = keeping; texts = texts; counts = counts.old }) (Some (option_copied transform.entry)) depth_left) (named (codes "arcs") ms) occurrence.entry
        → Gives (λ x. x) (need_as (codes "arcs") (kept_arc_list keeping (option_copied transform.entry)) ms) counts.old counts.new result }
{
    match occurrence {
        Occurrence::Never => Err(Stop::Fault(TopoFault::Missing)),
        Occurrence::Again => Err(Stop::Fault(TopoFault::Duplicate)),
        Occurrence::Once(found) => arcs_by(alloc, depth_left, keeping, transform, found, counts),
    }
}

/// What is kept of the objects over these arcs.
fn objects_of(
    alloc: Global,
    depth_left: u32,
    keeping: Keeping,
    transform: Option<&Transform>,
    arcs: &[Items<Cell>],
    occurrence: Occurrence<&[u8]>,
    counts: &mut Counts,
) -> Result<KeptObjects, Stop<TopoFault>>
    ensures there { IfOk result (λ _. NoObjects depth_left occurrence.entry → ⊥) }
    ensures gives { (ms : Listed) → IsOccurrence (BeginsAt depth_left) (named (codes "objects") ms) occurrence.entry → Gives (λ x. x) (need_as (codes "objects") (kept_objects keeping (option_copied transform.entry) arcs.now) ms) counts.old counts.new result }
{
    match occurrence {
        Occurrence::Never => Err(Stop::Fault(TopoFault::Missing)),
        Occurrence::Again => Err(Stop::Fault(TopoFault::Duplicate)),
        Occurrence::Once(at) => match objects_at(
            alloc, depth_left, keeping, transform, arcs, at, counts,
        ) {
            Err(stop) => Err(stop),
            Ok((objects, _)) => Ok(objects),
        },
    }
}

/// What is kept of the parts of the topology whose members stand there, in the order of the definition.
#[tactic(auto, using(crate::proofs::ByEnds::over_kept, crate::proofs::KeptParts::made, crate::proofs::KeptParts::made_fault))]
fn parts_of<'a>(
    alloc: Global,
    depth_left: u32,
    keeping: Keeping,
    index: Index<'a>,
    counts: &mut Counts,
) -> Result<SpelledParts<'a>, Stop<TopoFault>>
    // What was leaped over stands there.
    ensures there { IfOk result (λ _. IsLost depth_left index.entry → ⊥) }
    ensures gives { (texts : Bool) (ms : Listed) → IsIndex (record { keeping = keeping; texts = texts; counts = counts.old }) depth_left ms index.entry → Gives (λ p. p) (kept_contents keeping ms) counts.old counts.new result }
{
    let Index {
        kind,
        transform,
        arcs,
        objects,
    } = index;
    if let Err(stop) = type_of(alloc, depth_left, kind) {
        drop(transform);
        drop(arcs);
        return Err(stop);
    }
    let transform = match transform_of(transform) {
        Err(fault) => {
            drop(arcs);
            return Err(Stop::Fault(fault));
        }
        Ok(transform) => transform,
    };
    let arcs = match arcs_of(alloc, depth_left, keeping, transform.as_ref(), arcs, counts) {
        Err(stop) => {
            drop(transform);
            return Err(stop);
        }
        Ok(arcs) => arcs,
    };
    match objects_of(
        alloc,
        depth_left,
        keeping,
        transform.as_ref(),
        arcs.list.as_slice(),
        objects,
        counts,
    ) {
        Err(stop) => {
            drop(transform);
            drop(arcs);
            Err(stop)
        }
        Ok(objects) => {
            let KeptArcs { list, positions } = arcs;
            let (arcs, texts) = list.into_parts();
            let texts = texts_by(transform.as_ref(), texts);
            let KeptObjects {
                list: objects,
                features,
            } = objects;
            let parts = Parts {
                objects,
                arcs,
                transform,
                positions,
                features,
            };
            Ok(SpelledParts { parts, texts })
        }
    }
}

/// What is kept of the topology at the front, beside the texts of its arcs if these are kept, and what follows it; or why reading stops.
pub(crate) fn kept_topology_at<'a>(
    alloc: Global,
    depth_left: u32,
    keeping: Keeping,
    texts: bool,
    bytes: &'a [u8],
    counts: &mut Counts,
) -> Result<(SpelledParts<'a>, &'a [u8]), Stop<TopoFault>>
    ensures { Answers (λ p. p) (kept_value_contents keeping) (prefix_value depth_left bytes.now) counts.old counts.new result }
{
    let by = By {
        keeping,
        texts,
        counts: *counts,
    };
    let Some((index, rest)) = members_seen_at(alloc, depth_left, bytes, by)? else {
        return Err(Stop::Fault(TopoFault::NotTopology));
    };
    match parts_of(alloc, depth_left - 1, keeping, index, counts) {
        Err(stop) => Err(stop),
        Ok(parts) => Ok((parts, rest)),
    }
}

/// The topology at the front, and what follows it; or why reading stops.
#[tactic(auto, using(crate::proofs::KeptParts::answers_back, crate::proofs::KeptParts::whole_contents))]
pub fn topology_at<'a>(
    alloc: Global,
    depth_left: u32,
    bytes: &'a [u8],
    counts: &mut Counts,
) -> Result<(Parts, &'a [u8]), Stop<TopoFault>>
    ensures { Answers (λ p. record { objects = p.objects; arcs = p.arcs; transform = p.transform }) spec.value_contents (prefix_value depth_left bytes.now) counts.old counts.new result }
{
    match kept_topology_at(
        alloc,
        depth_left,
        Keeping::Whole(None),
        false,
        bytes,
        counts,
    ) {
        Err(stop) => Err(stop),
        Ok((spelled, rest)) => {
            let (parts, texts) = spelled.taken_apart();
            drop(texts);
            Ok((parts, rest))
        }
    }
}

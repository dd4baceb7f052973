// The objects of a topology by name (TopoJSON 1.0, section 2.1.5).
ghost use Rattle.std.specs.Prelude.{◌≡◌, ◌++◌, ◌∷◌, [], ℕ, IfOk};
ghost use Rattle.std.specs.Option.{option_copied};
ghost use Rattle.json_value.specs.Members.{Members as Listed};
ghost use Rattle.json_cursor.specs.Answers.{Answers};
ghost use Rattle.json_cursor.specs.Arrays.{prefix_value};
ghost use Rattle.json_cursor.specs.Names.{name_of};
ghost use Rattle.topojson_decoder.specs.Kept.{if_counted, kept_objects};
ghost use Rattle.topojson_decoder.specs.Members.{Judges};
ghost use Rattle.topojson_decoder.specs.NamedObjects.{AreObjects, kept_objects_after};
ghost use Rattle.topojson_decoder.specs.declared.geometry_parts.Start.{Start as Begun};

use crate::geometry_parts::Start;
use crate::held::held;
use crate::keeping::Keeping;
use crate::object_parts::{KeptObject, kept_object_at};
use crate::repeats::{is_among, members_before_repeat};
use geojson_types::Counts;
use json_cursor::{Members, Name, Stop, name_at, object_at as members_at};
use json_reading::{Fault, after_value};
use json_value::{Items, OwnText};
use std::alloc::{AllocError, Global};
use topojson_meaning::TopoFault;
use topojson_types::{Cell, TopoObject, Transform};

/// What is kept of objects, in order, and how many features each has, where no features of collections are kept.
#[derive(Drop)]
pub struct KeptObjects {
    pub list: Items<(OwnText, TopoObject)>,
    pub features: Option<Items<u64>>,
}

/// The objects that were read so far, in order, and what was counted. Once one has a fault, that and its name are kept, and no more is read.
#[derive(Drop)]
pub struct NamedObjects {
    pub list: Vec<(OwnText, TopoObject)>,
    /// How many features each has, where that is kept.
    pub features: Vec<u64>,
    pub counts: Counts,
    pub failed: Option<(OwnText, TopoFault)>,
}

/// None yet.
#[tactic(auto, using(crate::proofs::KeptParts::none_counted, crate::proofs::NamedSeen::nothing))]
fn none(alloc: Global, counts: Counts) -> NamedObjects
    ensures { (start : Begun) (depth_left : ℕ) → counts ≡ start.counts → AreObjects start depth_left [] result }
{
    NamedObjects {
        list: Vec::new(alloc),
        features: Vec::new(alloc),
        counts,
        failed: None,
    }
}

/// The name in memory of its own.
fn owned(alloc: Global, name: Name<'_>) -> Result<OwnText, AllocError>
    ensures { IfOk result (λ t. t ≡ name_of name.entry) }
{
    match name {
        Name::Plain(name) => Ok(OwnText::of(String::from_str(alloc, name)?)),
        Name::Made(name) => Ok(name),
    }
}

/// Goes on with how many features one more object has, where that is kept.
fn count_features(keeping: Keeping, count: u64, features: &mut Vec<u64>) -> Result<(), AllocError>
    ensures { IfOk result (λ _. if_counted keeping features.new.items ≡ if_counted keeping (features.old.items ++ count ∷ [])) }
{
    match keeping {
        Keeping::Whole(_) | Keeping::Shapes => {}
        Keeping::Counted => features.push(count)?,
    }
    Ok(())
}

/// How many features objects have, where that is kept.
fn counted_features(keeping: Keeping, features: Vec<u64>) -> Option<Items<u64>>
    ensures { result ≡ if_counted keeping features.items }
{
    match keeping {
        Keeping::Whole(_) | Keeping::Shapes => None,
        Keeping::Counted => {
            let mut features = features;
            features.shrink_to_fit();
            Some(Items::of(features))
        }
    }
}

impl<'a> Members<'a> for NamedObjects {
    type With = Start<'a>;

    ghost holds = { AreObjects };

    fn member(
        &mut self,
        alloc: Global,
        depth_left: u32,
        bytes: &'a [u8],
        with: Start<'a>,
    ) -> Result<&'a [u8], Fault> {
        let (name, value) = name_at(alloc, bytes)?;
        if self.failed.is_some() {
            drop(name);
            let rest = after_value(alloc, depth_left, value)?;
            return Ok(rest);
        }
        let name = owned(alloc, name)?;
        let answer = kept_object_at(alloc, depth_left, with, value, &mut self.counts);
        let (object, rest) = match held(alloc, depth_left, value, answer) {
            Err(fault) => {
                drop(name);
                return Err(fault);
            }
            Ok(read) => read,
        };
        match object {
            Ok(kept) => {
                let KeptObject { object, features } = kept;
                self.list.push((name, object))?;
                count_features(with.keeping, features, &mut self.features)?;
                Ok(rest)
            }
            Err(fault) => {
                self.failed = Some((name, fault));
                Ok(rest)
            }
        }
    }
}

/// The objects, or the first fault: a name that is repeated before one has a fault, or by that one, or that fault.
fn in_order(
    alloc: Global,
    occurrence: NamedObjects,
    start: Start<'_>,
    counts: &mut Counts,
) -> Result<KeptObjects, Stop<TopoFault>>
    ensures { (depth_left : ℕ) (ms : Listed) → AreObjects start.entry depth_left ms occurrence
        → Judges (kept_objects_after start.entry ms) start.entry.counts counts.new result }
{
    let NamedObjects {
        list,
        features,
        counts: counted,
        failed,
    } = occurrence;
    let Ok(repeat) = members_before_repeat(alloc, &list) else {
        return Err(Stop::Memory);
    };
    if repeat != list.len() {
        return Err(Stop::Fault(TopoFault::Duplicate));
    }
    match failed {
        None => {
            *counts = counted;
            let mut objects = list;
            objects.shrink_to_fit();
            Ok(KeptObjects {
                list: Items::of(objects),
                features: counted_features(start.keeping, features),
            })
        }
        Some((name, fault)) => {
            if is_among(name.as_str(), &list) {
                return Err(Stop::Fault(TopoFault::Duplicate));
            }
            Err(Stop::Fault(fault))
        }
    }
}

/// What is kept of the objects by name that the value of `objects` at the front is, in order, over these arcs, and what follows it; or why
/// reading stops.
pub(crate) fn objects_at<'a>(
    alloc: Global,
    depth_left: u32,
    keeping: Keeping,
    transform: Option<&'a Transform>,
    arcs: &'a [Items<Cell>],
    bytes: &'a [u8],
    counts: &mut Counts,
) -> Result<(KeptObjects, &'a [u8]), Stop<TopoFault>>
    ensures { Answers (λ x. x) (kept_objects keeping (option_copied transform.entry) arcs.now) (prefix_value depth_left bytes.now) counts.old counts.new result }
{
    let start = Start {
        transform,
        arcs,
        counts: *counts,
        keeping,
    };
    let none = none(alloc, *counts);
    let (found, rest) = members_at::<NamedObjects>(alloc, depth_left, none, bytes, start)?;
    let Some(occurrence) = found else {
        return Err(Stop::Fault(TopoFault::WrongKind));
    };
    match in_order(alloc, occurrence, start, counts) {
        Err(stop) => Err(stop),
        Ok(objects) => Ok((objects, rest)),
    }
}

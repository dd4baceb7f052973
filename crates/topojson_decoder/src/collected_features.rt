// Features in collections (TopoJSON 1.0, section 2.2).
ghost use Rattle.std.specs.Prelude.{◌≡◌, ◌++◌, ◌∷◌, [], ℕ, IfOk, length};
ghost use Rattle.std.specs.Option.{option_copied};
ghost use Rattle.json_value.specs.Members.{Members as Listed};
ghost use Rattle.json_cursor.specs.Answers.{Answers};
ghost use Rattle.json_cursor.specs.Arrays.{prefix_elements, prefix_value};
ghost use Rattle.topojson_meaning.specs.Features.{feature_element};
ghost use Rattle.topojson_decoder.specs.Features.{IsFeature, kept_typed_feature};
ghost use Rattle.topojson_decoder.specs.Kept.{kept_elements, kept_feature, kept_features, listed};
ghost use Rattle.topojson_decoder.specs.Members.{Judges};

use crate::feature_parts::{FeatureParts, feature_of};
use crate::geometry_parts::{Start, kind_of};
use crate::keeping::Keeping;
use geojson_types::Counts;
use json_cursor::{Mark, Opening, Stop, mark_at, object_into, opening_at};
use json_reading::skip;
use json_value::Items;
use std::alloc::{AllocError, Global};
use topojson_meaning::TopoFault;
use topojson_types::{Cell, TopoFeature, Transform};

/// What is kept of the features of a collection, and how many these are.
#[derive(Drop)]
pub struct KeptFeatures {
    pub list: Items<TopoFeature>,
    pub count: u64,
}

/// The feature whose members were seen so. What was kept of them is moved out of there.
#[inline(always)]
#[tactic(auto, using(crate::proofs::KeptParts::made_alike, crate::proofs::KeptParts::made_fault, crate::proofs::MemberOccurrences::judges_same))]
fn typed_feature_of(
    alloc: Global,
    depth_left: u32,
    occurrence: &mut FeatureParts<'_>,
    start: Start<'_>,
    counts: &mut Counts,
) -> Result<TopoFeature, Stop<TopoFault>>
    ensures { (ms : Listed) → IsFeature start.entry depth_left ms occurrence.old
        → Judges (kept_typed_feature start.entry ms) start.entry.counts counts.new result }
{
    match kind_of(&occurrence.parts.kind) {
        Err(fault) => Err(Stop::Fault(fault)),
        Ok(kind) => feature_of(alloc, depth_left, kind, occurrence, start, counts),
    }
}

/// What is kept of the feature at the front, and what follows it; or why reading stops. What is seen of its members goes into `occurrence`,
/// which holds none yet, and what is kept of them is moved out of there.
#[inline(always)]
fn feature_into<'a>(
    alloc: Global,
    depth_left: u32,
    occurrence: &mut FeatureParts<'a>,
    bytes: &'a [u8],
    start: Start<'a>,
    counts: &mut Counts,
) -> Result<(TopoFeature, &'a [u8]), Stop<TopoFault>>
    ensures { ((d : ℕ) → IsFeature start.entry d [] occurrence.old) → counts.old ≡ start.entry.counts → Answers (λ x. x) (kept_feature start.entry.keeping (option_copied start.entry.transform) start.entry.arcs.now) (prefix_value depth_left bytes.now) start.entry.counts counts.new result }
{
    let Some(rest) = object_into::<FeatureParts<'a>>(alloc, depth_left, occurrence, bytes, start)?
    else {
        return Err(Stop::Fault(TopoFault::WrongKind));
    };
    match typed_feature_of(alloc, depth_left - 1, occurrence, start, counts) {
        Err(stop) => Err(stop),
        Ok(feature) => Ok((feature, rest)),
    }
}

/// What is kept of the feature at the front that is a geometry in a collection, and what follows it; or why reading stops. Its members may
/// stand in any order.
#[inline(always)]
fn kept_feature_at<'a>(
    alloc: Global,
    depth_left: u32,
    by: Start<'a>,
    bytes: &'a [u8],
    counts: &mut Counts,
) -> Result<(TopoFeature, &'a [u8]), Stop<TopoFault>>
    ensures { Answers (λ x. x) (kept_feature by.entry.keeping (option_copied by.entry.transform) by.entry.arcs.now) (prefix_value depth_left bytes.now) counts.old counts.new result }
{
    let mut occurrence = FeatureParts::none();
    let start = by.after(*counts);
    feature_into(alloc, depth_left, &mut occurrence, bytes, start, counts)
}

/// The feature at the front that is a geometry in a collection, and what follows it; or why reading stops. Its members may stand in any
/// order.
pub fn feature_at<'a>(
    alloc: Global,
    depth_left: u32,
    transform: Option<&'a Transform>,
    arcs: &'a [Items<Cell>],
    bytes: &'a [u8],
    counts: &mut Counts,
) -> Result<(TopoFeature, &'a [u8]), Stop<TopoFault>>
    ensures { Answers (λ x. x) (feature_element (option_copied transform.entry) arcs.now) (prefix_value depth_left bytes.now) counts.old counts.new result }
{
    let start = Start {
        transform,
        arcs,
        counts: *counts,
        keeping: Keeping::Whole(None),
    };
    kept_feature_at(alloc, depth_left, start, bytes, counts)
}

/// Lists one more feature of a collection, unless these are counted alone.
#[inline(always)]
fn list_feature(
    keeping: Keeping,
    feature: TopoFeature,
    list: &mut Vec<TopoFeature>,
) -> Result<(), AllocError>
    ensures { IfOk result (λ _. list.new.items ≡ list.old.items ++ listed keeping (feature ∷ [])) }
{
    match keeping {
        Keeping::Whole(_) | Keeping::Shapes => list.push(feature)?,
        Keeping::Counted => drop(feature),
    }
    Ok(())
}

/// What is kept of the features after the bracket of an array, one or more, beside how many these are, and what follows it.
fn features_after<'a>(
    alloc: Global,
    depth_left: u32,
    by: Start<'a>,
    inside: &'a [u8],
    counts: &mut Counts,
) -> Result<((Vec<TopoFeature>, usize), &'a [u8]), Stop<TopoFault>>
    ensures { Answers (λ x. record { list = x.0.items; count = x.1 }) (kept_elements by.entry.keeping (option_copied by.entry.transform) by.entry.arcs.now) (prefix_elements depth_left (length inside.now) inside.now) counts.old counts.new result }
{
    let mut read = Vec::new(alloc);
    let mut rest = inside;
    'features: for before in 0..inside.len() {
        match kept_feature_at(alloc, depth_left, by, skip(rest), counts) {
            Err(stop) => return Err(stop),
            Ok((feature, following)) => {
                list_feature(by.keeping, feature, &mut read)?;
                let (mark, more) = mark_at(following);
                match mark {
                    Mark::Neither => return Err(Stop::NoValue),
                    Mark::Close => return Ok(((read, before + 1), more)),
                    Mark::Comma => {}
                }
                rest = more;
            }
        }
    }
    Err(Stop::NoValue)
}

/// What is kept of the features of the collection whose `geometries` stand at the front, and what follows them; or why reading stops.
pub(crate) fn features_at<'a>(
    alloc: Global,
    depth_left: u32,
    by: Start<'a>,
    bytes: &'a [u8],
    counts: &mut Counts,
) -> Result<(KeptFeatures, &'a [u8]), Stop<TopoFault>>
    ensures { Answers (λ x. x) (kept_features by.entry.keeping (option_copied by.entry.transform) by.entry.arcs.now) (prefix_value depth_left bytes.now) counts.old counts.new result }
{
    let (opening, inside) = opening_at(depth_left, bytes);
    match opening {
        Opening::NoArray => Err(Stop::Fault(TopoFault::WrongKind)),
        Opening::TooDeep => Err(Stop::NoValue),
        Opening::Empty => {
            let none = KeptFeatures {
                list: Items::of(Vec::new(alloc)),
                count: 0,
            };
            Ok((none, inside))
        }
        Opening::Filled(below) => {
            match features_after(alloc, below, by, inside, counts) {
                Err(stop) => Err(stop),
                Ok((read, rest)) => {
                    let (mut features, count) = read;
                    features.shrink_to_fit();
                    let kept = KeptFeatures {
                        list: Items::of(features),
                        count: count as u64,
                    };
                    Ok((kept, rest))
                }
            }
        }
    }
}

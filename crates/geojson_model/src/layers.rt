// Layers (RFC 7946, section 3).
ghost use Rattle.std.specs.Prelude.{◌≡◌, [], ℕ, Bool, IfOk, length, ◌∷◌, codes};
ghost use Rattle.geojson_types.specs.declared.counts.Counts.{Counts as Counted};
ghost use Rattle.geojson_meaning.specs.Members.{named};
ghost use Rattle.json_cursor.specs.Held.{IsHeld, FindsValue};
ghost use Rattle.json_cursor.specs.Members.{Members as Listed};
ghost use Rattle.geojson_meaning.specs.Layers.{bare_feature, collection_features, features, single_feature};
ghost use Rattle.geojson_meaning.specs.Reader.{fault_in};
ghost use Rattle.geojson_meaning.specs.declared.types.GeometryType.{GeometryType as Geometries};
ghost use Rattle.geojson_model.specs.Features.{IsFields};
ghost use Rattle.geojson_model.specs.Layers.{IsCollected, IsLayerParts, Types, members_features, numbered};
ghost use Rattle.geojson_model.specs.Layers as spec;
ghost use Rattle.geojson_model.specs.Members.{IsParts, IsOccurrence, Judges};
ghost use Rattle.geojson_model.specs.declared.geometries.Start.{Start as Begun};

use crate::features::{Fields, feature_at, feature_of, is_field};
use crate::geometries::{Parts, Start, member_value, shape_of};
use geojson_meaning::{GeoFault, GeoFaultKind, GeoJsonType};
use geojson_types::{CollectsFeatures, Counts, Feature};
use json_cursor::{Elements, Members, Occurrence, Stop, held_array_at, name_at, object_into};
use json_reading::{Fault, Why, after_value};
use std::alloc::{AllocError, Global};
use std::marker::Model;

/// The fault of this kind in the feature of this number, or in none.
pub(crate) fn fault_within(feature: Option<usize>, kind: GeoFaultKind) -> GeoFault
    ensures { result ≡ fault_in feature kind }
{
    GeoFault { feature, kind }
}

/// Why reading stops in the feature of this number, or in none.
fn within(feature: Option<usize>, stop: Stop<GeoFaultKind>) -> Stop<GeoFault>
    ensures { result ≡ spec.stop_in feature stop }
{
    match stop {
        Stop::Fault(kind) => Stop::Fault(fault_within(feature, kind)),
        Stop::NoValue => Stop::NoValue,
        Stop::Memory => Stop::Memory,
    }
}

/// The features that were read so far, by what they were put into.
#[derive(Drop)]
pub struct FeatureList<D: CollectsFeatures> {
    made: D,
}

impl<D: CollectsFeatures> Model for FeatureList<D> {
    ghost use Rattle.std.specs.Prelude.{List};
    ghost use Rattle.geojson_types.specs.Features.{Featured};
    ghost use Rattle.std.specs.Coded.{coded_list};
    ghost use Rattle.geojson_types.specs.Codes.{feature_code};

    ghost Value = { List Featured };

    ghost coded = { coded_list feature_code };

    ghost view = { λ s. D.features s.made };
}

impl<D: CollectsFeatures> FeatureList<D> {
    /// Of no features.
    fn none(alloc: Global) -> FeatureList<D>
        ensures { result ≡ [] }
    {
        FeatureList {
            made: D::none(alloc),
        }
    }

    /// Of one feature.
    fn one(alloc: Global, feature: Feature) -> Result<FeatureList<D>, AllocError>
        ensures { IfOk result (λ fs. fs ≡ feature ∷ []) }
    {
        let mut made = D::none(alloc);
        made.put(alloc, feature)?;
        Ok(FeatureList { made })
    }

    /// The same, to which no more come.
    fn ended(self) -> FeatureList<D>
        ensures { result ≡ self }
    {
        let mut made = self.made;
        made.end();
        FeatureList { made }
    }

    /// What they were put into.
    pub fn into_made(self) -> D
        ensures { D.features result ≡ self }
    {
        self.made
    }
}

impl<'a, D: CollectsFeatures> Elements<'a> for FeatureList<D> {
    type Fault = GeoFault;

    type With = bool;

    ghost takes = { numbered };

    #[inline(always)]
    #[tactic(auto, using(crate::proofs::LayerParts::numbered_stops))]
    fn element(
        &mut self,
        alloc: Global,
        depth_left: u32,
        bytes: &'a [u8],
        with: bool,
        counts: &mut Counts,
    ) -> Result<&'a [u8], Stop<GeoFault>> {
        let number = self.made.count();
        match feature_at(alloc, depth_left, bytes, with, counts) {
            Err(stop) => Err(within(Some(number), stop)),
            Ok((feature, rest)) => {
                self.made.put(alloc, feature)?;
                Ok(rest)
            }
        }
    }
}

/// What the value of `features` is read as, or its fault, and what was counted then.
#[derive(Drop)]
pub struct Collected<D: CollectsFeatures> {
    features: Result<FeatureList<D>, GeoFault>,
    counts: Counts,
}

/// What was seen of the members of a layer's object.
#[derive(Drop)]
pub struct LayerParts<'a, D: CollectsFeatures> {
    bare: Parts<'a>,
    fields: Fields,
    features: Occurrence<Collected<D>>,
}

/// The features of the array at the front, or their first fault, and what follows it.
#[tactic(auto, using(crate::proofs::LayerParts::is_array_features))]
fn features_at<'a, D: CollectsFeatures>(
    alloc: Global,
    depth_left: u32,
    bytes: &'a [u8],
    start: Start,
) -> Result<(Collected<D>, &'a [u8]), Fault>
    ensures { FindsValue (IsCollected start) depth_left bytes.now result }
{
    let mut counts = start.counts;
    let wrong = fault_within(None, GeoFaultKind::WrongKind);
    let (held, rest) = held_array_at::<FeatureList<D>>(
        alloc,
        depth_left,
        FeatureList::none(alloc),
        bytes,
        wrong,
        start.exact,
        &mut counts,
    )?;
    match held {
        Err(fault) => {
            let features = Err(fault);
            Ok((Collected { features, counts }, rest))
        }
        Ok(read) => {
            let features = Ok(read.ended());
            Ok((Collected { features, counts }, rest))
        }
    }
}

impl<'a, D: CollectsFeatures> LayerParts<'a, D> {
    /// Of no members.
    fn none() -> LayerParts<'a, D>
        ensures { (start : Begun) (depth_left : ℕ) → IsLayerParts start depth_left [] result }
    {
        LayerParts {
            bare: Parts::none(),
            fields: Fields::none(),
            features: Occurrence::Never,
        }
    }
}

impl<'a, D: CollectsFeatures> Members<'a> for LayerParts<'a, D> {
    type With = Start;

    ghost holds = { IsLayerParts };

    fn member(
        &mut self,
        alloc: Global,
        depth_left: u32,
        bytes: &'a [u8],
        with: Start,
    ) -> Result<&'a [u8], Fault> {
        let (name, value) = name_at(alloc, bytes)?;
        if name.is("features") {
            let (features, rest) = features_at(alloc, depth_left, value, with)?;
            self.features.see(features);
            return Ok(rest);
        }
        if is_field(&name) {
            return self.fields.see(alloc, depth_left, &name, value, with);
        }
        member_value(alloc, depth_left, &mut self.bare, &name, value, with)
    }
}

/// The type that was seen so, which must be there once.
fn type_of(
    occurrence: &Occurrence<Result<GeoJsonType, GeoFaultKind>>,
) -> Result<GeoJsonType, GeoFaultKind>
    ensures { result ≡ spec.type_of occurrence.now }
{
    match occurrence {
        Occurrence::Never => Err(GeoFaultKind::Missing),
        Occurrence::Again => Err(GeoFaultKind::Duplicate),
        Occurrence::Once(Err(fault)) => Err(*fault),
        Occurrence::Once(Ok(kind)) => Ok(*kind),
    }
}

/// The features of a FeatureCollection, whose member `features` was seen so.
fn collection_of<D: CollectsFeatures>(
    occurrence: Occurrence<Collected<D>>,
    counts: &mut Counts,
) -> Result<FeatureList<D>, Stop<GeoFault>>
    ensures { (start : Begun) (ms : Listed) → IsOccurrence (IsCollected start) (named (codes "features") ms) occurrence → Judges (collection_features start.exact ms) start.counts counts.new result }
{
    match occurrence {
        Occurrence::Never => Err(Stop::Fault(fault_within(None, GeoFaultKind::Missing))),
        Occurrence::Again => Err(Stop::Fault(fault_within(None, GeoFaultKind::Duplicate))),
        Occurrence::Once(collected) => {
            let Collected {
                features,
                counts: counted,
            } = collected;
            *counts = counted;
            match features {
                Err(fault) => Err(Stop::Fault(fault)),
                Ok(features) => Ok(features),
            }
        }
    }
}

/// The one feature of a Feature with these members.
fn single_of<D: CollectsFeatures>(
    alloc: Global,
    fields: Fields,
    start: Start,
    counts: &mut Counts,
) -> Result<FeatureList<D>, Stop<GeoFault>>
    requires { (ms : Listed) × IsFields start ms fields }
    ensures { (ms : Listed) → IsFields start ms fields → Judges (single_feature start.exact ms) start.counts counts.new result }
{
    match feature_of(fields, start, counts) {
        Err(fault) => Err(Stop::Fault(fault_within(Some(0), fault))),
        Ok(feature) => Ok(FeatureList::one(alloc, feature)?),
    }
}

/// The one feature of a bare geometry with these members.
fn bare_of<D: CollectsFeatures>(
    alloc: Global,
    depth_left: u32,
    bare: Parts<'_>,
    start: Start,
    counts: &mut Counts,
) -> Result<FeatureList<D>, Stop<GeoFault>>
    requires { (ms : Listed) × IsParts start depth_left ms bare }
    ensures { (kind : Geometries) (ms : Listed) → IsParts start depth_left ms bare.entry → Types kind ms → Judges (bare_feature start.exact kind ms) start.counts counts.new result }
{
    match shape_of(alloc, depth_left, bare, start, counts) {
        Err(stop) => Err(within(Some(0), stop)),
        Ok(shape) => Ok(FeatureList::one(alloc, Feature::of(None, None, shape))?),
    }
}

/// The features of an object with these members.
fn features_of<D: CollectsFeatures>(
    alloc: Global,
    depth_left: u32,
    parts: LayerParts<'_, D>,
    start: Start,
    counts: &mut Counts,
) -> Result<FeatureList<D>, Stop<GeoFault>>
    requires { (ms : Listed) × IsLayerParts start depth_left ms parts }
    ensures { (ms : Listed) → IsLayerParts start depth_left ms parts.entry → Judges (members_features start.exact ms) start.counts counts.new result }
{
    let LayerParts {
        bare,
        fields,
        features,
    } = parts;
    match type_of(&bare.kind) {
        Err(fault) => {
            drop(bare);
            drop(fields);
            drop(features);
            Err(Stop::Fault(fault_within(None, fault)))
        }
        Ok(kind) => match kind {
            GeoJsonType::FeatureCollection => {
                drop(bare);
                drop(fields);
                collection_of(features, counts)
            }
            GeoJsonType::Feature => {
                drop(bare);
                drop(features);
                single_of(alloc, fields, start, counts)
            }
            GeoJsonType::Geometry(_) => {
                drop(fields);
                drop(features);
                bare_of(alloc, depth_left, bare, start, counts)
            }
        },
    }
}

/// The features of the layer at the front (RFC 7946, section 3) or its first fault, and what follows it. A Feature and a bare geometry are
/// the one feature of their layer. Members may stand in any order.
pub fn layer_at<'a, D: CollectsFeatures + 'a>(
    alloc: Global,
    depth_left: u32,
    bytes: &'a [u8],
    exact: bool,
    counts: &mut Counts,
) -> Result<(Result<FeatureList<D>, GeoFault>, &'a [u8]), Fault>
    ensures { FindsValue (IsHeld (features exact) counts.old counts.new) depth_left bytes.now result }
{
    let start = Start {
        exact,
        counts: *counts,
    };
    let mut parts = LayerParts::none();
    match object_into::<LayerParts<'a, D>>(alloc, depth_left, &mut parts, bytes, start) {
        Err(fault) => {
            drop(parts);
            Err(fault)
        }
        Ok(None) => {
            drop(parts);
            let rest = after_value(alloc, depth_left, bytes)?;
            Ok((Err(fault_within(None, GeoFaultKind::NotObject)), rest))
        }
        Ok(Some(rest)) => match features_of(alloc, depth_left - 1, parts, start, counts) {
            Ok(features) => Ok((Ok(features), rest)),
            Err(Stop::Fault(fault)) => Ok((Err(fault), rest)),
            Err(Stop::NoValue) => unreachable!(),
            Err(Stop::Memory) => Err(Fault::Memory),
        },
    }
}

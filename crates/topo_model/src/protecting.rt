// The protected rings of topologies, feature by feature.
ghost use Rattle.std.specs.Prelude.{◌≡◌, ◌∷◌, ◌++◌, [], IfOk, OnOk, map};
ghost use Rattle.std.specs.List.{AllByRecursion};
ghost use Rattle.geometry.specs.Lists.{map_some, some_of, with_some};
ghost use Rattle.geometry.specs.Points.{IsPosition};
ghost use Rattle.build_meaning.specs.Protected.{greatest_ring, protected_of, protected_rings as all_protected};
ghost use Rattle.topojson_types.specs.Topologies.{object_features};
ghost use Rattle.topo_model.specs.Ways.{way_of, ways_of};

use crate::enclosing::SummedArcs;
use crate::searching::{Found, protected_ring};
use json_value::{Items, OwnText};
use owned_values::Memory;
use std::alloc::Global;
use std::marker::Model;
use topojson_types::{ArcRef, Cell, TopoFeature, TopoObject};

/// What was found for features.
#[derive(Drop)]
struct Protecting {
    ways: Vec<Option<Vec<usize>>>,
    rings: Vec<Items<ArcRef>>,
}

impl Model for Protecting {
    ghost use Rattle.std.specs.Prelude.{map};
    ghost use Rattle.geometry.specs.Lists.{map_some};
    ghost use Rattle.topo_model.specs.Searching.{Protecting as OfFeatures};

    ghost Value = { OfFeatures };

    ghost view = { λ p. record { ways = map (map_some (λ w. w.items)) p.ways.items; rings = p.rings.items } };
}

impl Protecting {
    /// For no feature.
    fn none(alloc: Global) -> Protecting
        ensures { result ≡ record { ways = []; rings = [] } }
    {
        Protecting {
            ways: Vec::new(alloc),
            rings: Vec::new(alloc),
        }
    }

    /// Adds what was found for the next feature.
    fn push(&mut self, found: Option<Found>) -> Result<(), Memory>
        ensures ways { OnOk result (self.new.ways ≡ self.old.ways ++ map_some (λ f. f.ring.path) found ∷ []) }
        ensures rings { OnOk result (self.new.rings ≡ self.old.rings ++ with_some (map_some (λ f. f.ring.part) found) []) }
    {
        let Some(found) = found else {
            self.ways.push(None)?;
            return Ok(());
        };
        let (way, refs) = found.into_parts();
        self.ways.push(Some(way))?;
        self.rings.push(refs)?;
        Ok(())
    }

    /// The ways and the arc indexes.
    fn into_parts(self) -> (Vec<Option<Vec<usize>>>, Vec<Items<ArcRef>>)
        ensures ways { map (map_some (λ w. w.items)) result.0.items ≡ self.ways }
        ensures rings { result.1.items ≡ self.rings }
    {
        let found = self;
        (found.ways, found.rings)
    }
}

/// Adds what is found for a feature.
fn add_feature(
    alloc: Global,
    arcs: &SummedArcs<'_>,
    way: &mut Vec<usize>,
    feature: &TopoFeature,
    found: &mut Protecting,
) -> Result<(), Memory>
    ensures ways { OnOk result (found.new.ways ≡ found.old.ways ++ map (way_of (greatest_ring arcs.now)) (feature.now ∷ [])) }
    ensures rings { OnOk result (found.new.rings ≡ found.old.rings ++ some_of (protected_of (greatest_ring arcs.now)) (feature.now ∷ [])) }
{
    let ring = protected_ring(alloc, arcs, way, feature)?;
    found.push(ring)?;
    Ok(())
}

/// Adds what is found for features.
fn add_features(
    alloc: Global,
    arcs: &SummedArcs<'_>,
    way: &mut Vec<usize>,
    features: &[TopoFeature],
    found: &mut Protecting,
) -> Result<(), Memory>
    ensures ways { OnOk result (found.new.ways ≡ found.old.ways ++ map (way_of (greatest_ring arcs.now)) features.now) }
    ensures rings { OnOk result (found.new.rings ≡ found.old.rings ++ some_of (protected_of (greatest_ring arcs.now)) features.now) }
{
    'features: for feature in features {
        add_feature(alloc, arcs, way, feature, found)?;
    }
    Ok(())
}

/// Adds what is found for the features of an object.
fn add_object(
    alloc: Global,
    arcs: &SummedArcs<'_>,
    way: &mut Vec<usize>,
    object: &TopoObject,
    found: &mut Protecting,
) -> Result<(), Memory>
    ensures ways { OnOk result (found.new.ways ≡ found.old.ways ++ map (way_of (greatest_ring arcs.now)) (object_features object.now)) }
    ensures rings { OnOk result (found.new.rings ≡ found.old.rings ++ some_of (protected_of (greatest_ring arcs.now)) (object_features object.now)) }
{
    match object {
        TopoObject::One(feature) => add_feature(alloc, arcs, way, feature, found),
        TopoObject::Many(features) => add_features(alloc, arcs, way, features.as_slice(), found),
    }
}

/// What is found for the features of all objects, with each arc summed up.
fn rings_of_summed(
    alloc: Global,
    objects: &[(OwnText, TopoObject)],
    arcs: &SummedArcs<'_>,
) -> Result<(Vec<Option<Vec<usize>>>, Vec<Items<ArcRef>>), Memory>
    ensures ways { IfOk result (λ r. map (map_some (λ w. w.items)) r.0.items ≡ ways_of (greatest_ring arcs.now) objects.now) }
    ensures rings { IfOk result (λ r. r.1.items ≡ all_protected (greatest_ring arcs.now) objects.now) }
{
    let mut found = Protecting::none(alloc);
    let mut way = Vec::new(alloc);
    'objects: for object in objects {
        add_object(alloc, arcs, &mut way, &object.1, &mut found)?;
    }
    Ok(found.into_parts())
}

/// For each feature of all objects, in reading order, the way to the polygon whose outer ring is protected, if one is, and the arc indexes of
/// these rings: of the outer rings that have four positions or more where they are rebuilt of these arcs, with equal neighbours as one, in
/// each feature the first of those that enclose most. Each arc is summed up once, and each ring is looked at once.
pub fn protected_rings(
    alloc: Global,
    objects: &[(OwnText, TopoObject)],
    arcs: &[Items<Cell>],
) -> Result<(Vec<Option<Vec<usize>>>, Vec<Items<ArcRef>>), Memory>
    requires { AllByRecursion (λ arc. AllByRecursion IsPosition arc) arcs.now }
    ensures ways { IfOk result (λ r. map (map_some (λ w. w.items)) r.0.items ≡ ways_of (greatest_ring arcs.now) objects.now) }
    ensures rings { IfOk result (λ r. r.1.items ≡ all_protected (greatest_ring arcs.now) objects.now) }
{
    let summed = SummedArcs::of(alloc, arcs)?;
    rings_of_summed(alloc, objects, &summed)
}

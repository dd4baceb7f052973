// The search for the protected ring of a feature: of its outer rings with four positions or more the first of those that enclose most.
ghost use Rattle.std.specs.Prelude.{◌≡◌, ◌∷◌, ◌++◌, [], ℕ, IfOk, List, OnOk, map};
ghost use Rattle.geometry.specs.Lists.{map_some, then_some};
ghost use Rattle.geometry.specs.Paths.{of_parts};
ghost use Rattle.build_meaning.specs.OuterRings.{outer_ring, outer_rings};
ghost use Rattle.build_meaning.specs.Protected.{greatest_ring};
ghost use Rattle.topo_model.specs.Searching.{all_met, at_way, encloses_less as is_less, met};

use crate::enclosing::SummedArcs;
use geojson_types::Geometry;
use geometry::RingSum;
use json_value::Items;
use owned_values::Memory;
use std::alloc::Global;
use std::marker::Model;
use topojson_types::{ArcRef, TopoFeature, TopoShape};

/// A ring with the way to its polygon, and what its positions add up to.
#[derive(Drop)]
pub struct Found {
    way: Vec<usize>,
    refs: Items<ArcRef>,
    sum: RingSum,
}

impl Model for Found {
    ghost use Rattle.topo_model.specs.Searching.{Found as OfRing};

    ghost Value = { OfRing };

    ghost view = { λ f. record { ring = record { path = f.way.items; part = f.refs }; sum = f.sum.sum } };
}

impl Found {
    /// The ring of the arcs with these indexes, at the end of this way.
    fn at(alloc: Global, way: &[usize], refs: &[ArcRef], sum: RingSum) -> Result<Found, Memory>
        ensures { IfOk result (λ f. f ≡ record { ring = record { path = way.now; part = refs.now }; sum = sum.sum }) }
    {
        Ok(Found {
            way: Vec::from_slice(alloc, way)?,
            refs: Items::of(Vec::from_slice(alloc, refs)?),
            sum,
        })
    }

    /// The way and the arc indexes.
    pub fn into_parts(self) -> (Vec<usize>, Items<ArcRef>)
        ensures way { result.0.items ≡ self.ring.path }
        ensures refs { result.1 ≡ self.ring.part }
    {
        let found = self;
        (found.way, found.refs)
    }
}

/// Whether a ring with this sum encloses more than the best so far, or there is none yet.
fn encloses_less(best: &Option<Found>, sum: &RingSum) -> bool
    ensures { result ≡ is_less best.now sum.now.sum }
{
    match best {
        None => true,
        Some(found) => found.sum.is_closer_than(sum),
    }
}

/// Meets one ring, at the end of this way. It is copied only where it is the best so far.
fn meet_ring(
    alloc: Global,
    arcs: &SummedArcs<'_>,
    way: &[usize],
    refs: &[ArcRef],
    best: &mut Option<Found>,
) -> Result<(), Memory>
    ensures { OnOk result (best.new ≡ met arcs.now best.old (record { path = way.now; part = refs.now })) }
{
    if arcs.is_short(true, refs) {
        return Ok(());
    }
    let sum = arcs.ring_sum(refs);
    if encloses_less(best, &sum) {
        *best = Some(Found::at(alloc, way, refs, sum)?);
    }
    Ok(())
}

/// Meets the outer ring of the polygon at the end of this way.
fn meet_outer(
    alloc: Global,
    arcs: &SummedArcs<'_>,
    way: &[usize],
    rings: &[Items<ArcRef>],
    best: &mut Option<Found>,
) -> Result<(), Memory>
    ensures { OnOk result (best.new ≡ all_met arcs.now best.old (at_way way.now (outer_ring rings.now))) }
{
    let Some(outer) = rings.first() else {
        return Ok(());
    };
    meet_ring(alloc, arcs, way, outer.as_slice(), best)?;
    Ok(())
}

/// Goes to the part with this number.
fn enter(way: &mut Vec<usize>, number: usize) -> Result<(), Memory>
    ensures { OnOk result (way.new.items ≡ way.old.items ++ number ∷ []) }
{
    way.push(number)?;
    Ok(())
}

/// Goes back from a part.
fn leave(way: &mut Vec<usize>)
    ensures { (w : List ℕ) (i : ℕ) → way.old.items ≡ w ++ i ∷ [] → way.new.items ≡ w }
{
    way.pop();
}

/// Meets the outer rings of the polygons at the end of this way.
fn meet_areas(
    alloc: Global,
    arcs: &SummedArcs<'_>,
    way: &mut Vec<usize>,
    areas: &[Items<Items<ArcRef>>],
    best: &mut Option<Found>,
) -> Result<(), Memory>
    ensures way { OnOk result (way.new.items ≡ way.old.items) }
    ensures best { OnOk result (best.new ≡ all_met arcs.now best.old (at_way way.old.items (of_parts 0 (map outer_ring areas.now)))) }
{
    for (number, rings) in areas.iter().enumerate() {
        enter(way, number)?;
        meet_outer(alloc, arcs, way.as_slice(), rings.as_slice(), best)?;
        leave(way);
    }
    Ok(())
}

/// Meets the outer rings of the shape at the end of this way.
#[tactic(auto, using(crate::proofs::BestRing::rings_at))]
fn meet_shape(
    alloc: Global,
    arcs: &SummedArcs<'_>,
    way: &mut Vec<usize>,
    shape: &TopoShape,
    best: &mut Option<Found>,
) -> Result<(), Memory>
    ensures way { OnOk result (way.new.items ≡ way.old.items) }
    ensures best { OnOk result (best.new ≡ all_met arcs.now best.old (at_way way.old.items (outer_rings shape.now))) }
{
    match shape {
        Geometry::Point(_) => Ok(()),
        Geometry::MultiPoint(_) => Ok(()),
        Geometry::Line(_) => Ok(()),
        Geometry::Lines(_) => Ok(()),
        Geometry::Area(rings) => meet_outer(alloc, arcs, way.as_slice(), rings.as_slice(), best),
        Geometry::Areas(areas) => meet_areas(alloc, arcs, way, areas.as_slice(), best),
        Geometry::Group(shapes) => {
            'shapes: for (number, shape) in shapes.as_slice().iter().enumerate() {
                enter(way, number)?;
                meet_shape(alloc, arcs, way, shape, best)?;
                leave(way);
            }
            Ok(())
        }
    }
}

/// The protected ring of a feature, if one is. The way is where the walk keeps its own; nothing is allocated where there is no polygon
/// and no collection.
pub fn protected_ring(
    alloc: Global,
    arcs: &SummedArcs<'_>,
    way: &mut Vec<usize>,
    feature: &TopoFeature,
) -> Result<Option<Found>, Memory>
    ensures { IfOk result (λ found. map_some (λ f. f.ring) found ≡ then_some (greatest_ring arcs.now) feature.now.shape) }
{
    way.clear();
    let mut best: Option<Found> = None;
    let Some(shape) = &feature.shape else {
        return Ok(best);
    };
    meet_shape(alloc, arcs, way, shape, &mut best)?;
    Ok(best)
}

// Objects without some of their lines and rings, which are found and left out in one walk.
ghost use Rattle.std.specs.Prelude.{◌≡◌, ◌++◌, IfOk, OnOk, map};
ghost use Rattle.geometry.specs.Lists.{map_some};
ghost use Rattle.build_meaning.specs.Protected.{sparing};
ghost use Rattle.topojson_types.specs.Topologies.{object_features};
ghost use Rattle.topo_model.specs.Along.{by_ways, feature_placed_along, object_placed_along, objects_along, objects_placed, objects_placed_along, ways_after};
ghost use Rattle.topo_model.specs.Drops.{judged_refs, object_drops, objects_dropped, objects_drops, pair_sparing};

use crate::judging::Judging;
use crate::pruning::{Keeps, prune_feature};
use crate::way_steps::Ways;
use geojson_types::{Address, Dropped};
use json_value::OwnText;
use owned_values::Memory;
use std::alloc::Global;
use topojson_types::{TopoFeature, TopoObject};

/// Prunes the shapes of the features of all objects, of which none has a way.
#[tactic(auto, using(crate::proofs::Along::placed_plainly))]
pub fn prune_objects<K: Keeps>(
    alloc: Global,
    keeps: &K,
    objects: &mut [(OwnText, TopoObject)],
) -> Result<(), Memory>
    ensures { OnOk result (objects.new ≡ objects_placed (K.places keeps.now) (K.keeps keeps.now) objects.old) }
{
    leave_out(alloc, keeps, objects, &[])?;
    Ok(())
}

/// Leaves out the lines and rings of objects that have no arc index, or are small where they are rebuilt of arcs, and the rings of
/// polygons whose outer ring is left out, but no ring to which the way of its feature leads. They are, in reading order, what comes back. An
/// object stands in the place of a layer. The ways are those of the features, in reading order, and those that come after the last way have
/// none.
pub fn leave_out_small(
    alloc: Global,
    objects: &mut [(OwnText, TopoObject)],
    judging: &Judging<'_>,
    ways: &[Option<Vec<usize>>],
) -> Result<Vec<Dropped>, Memory>
    ensures objects { OnOk result (objects.new ≡ objects_along (sparing (judged_refs judging.now.first judging.now.later)) (map (map_some (λ v. v.items)) ways.now) objects.old) }
    ensures dropped { IfOk result (λ dropped. dropped.items ≡ objects_drops judging.now 0 (map (map_some (λ v. v.items)) ways.now) objects.old) }
{
    leave_out(alloc, judging, objects, ways)
}

/// Leaves out the lines and rings that don't stay, and the rings of polygons whose outer ring is left out, but no ring to which the way of its
/// feature leads. They are, in reading order, what comes back.
fn leave_out<K: Keeps>(
    alloc: Global,
    keeps: &K,
    objects: &mut [(OwnText, TopoObject)],
    ways: &[Option<Vec<usize>>],
) -> Result<Vec<Dropped>, Memory>
    ensures objects { OnOk result (objects.new ≡ objects_placed_along (K.places keeps.now) (sparing (K.keeps keeps.now)) (map (map_some (λ v. v.items)) ways.now) objects.old) }
    ensures dropped { IfOk result (λ dropped. dropped.items ≡ objects_dropped (pair_sparing (K.goes keeps.now)) 0 (map (map_some (λ v. v.items)) ways.now) objects.old) }
{
    let mut dropped = Vec::new(alloc);
    let mut rest = Ways::of(ways);
    'objects: for number in 0..objects.len() {
        leave_out_of_object(
            alloc,
            keeps,
            number,
            &mut objects[number].1,
            &mut rest,
            &mut dropped,
        )?;
    }
    Ok(dropped)
}

/// Leaves out those of the object with this number, and adds them to those that are dropped.
fn leave_out_of_object<K: Keeps>(
    alloc: Global,
    keeps: &K,
    number: usize,
    object: &mut TopoObject,
    ways: &mut Ways<'_>,
    dropped: &mut Vec<Dropped>,
) -> Result<(), Memory>
    ensures object { OnOk result (object.new ≡ object_placed_along (K.places keeps.now) (sparing (K.keeps keeps.now)) ways.old object.old) }
    ensures ways { OnOk result (ways.new ≡ ways_after ways.old (object_features object.old)) }
    ensures dropped { OnOk result (dropped.new.items ≡ dropped.old.items ++ object_drops (pair_sparing (K.goes keeps.now)) number 0 ways.old (object_features object.old)) }
{
    match object {
        TopoObject::One(feature) => {
            let place = Address::of_feature(alloc, number, 0);
            prune_feature(alloc, keeps, place, feature, ways.next(), dropped)
        }
        TopoObject::Many(features) => {
            leave_out_of_features(alloc, keeps, number, features.as_mut_slice(), ways, dropped)
        }
    }
}

/// Leaves out those of the features of the object with this number.
fn leave_out_of_features<K: Keeps>(
    alloc: Global,
    keeps: &K,
    object: usize,
    features: &mut [TopoFeature],
    ways: &mut Ways<'_>,
    dropped: &mut Vec<Dropped>,
) -> Result<(), Memory>
    ensures features { OnOk result (features.new ≡ by_ways (feature_placed_along (K.places keeps.now) (sparing (K.keeps keeps.now))) ways.old features.old) }
    ensures ways { OnOk result (ways.new ≡ ways_after ways.old features.old) }
    ensures dropped { OnOk result (dropped.new.items ≡ dropped.old.items ++ object_drops (pair_sparing (K.goes keeps.now)) object 0 ways.old features.old) }
{
    'features: for number in 0..features.len() {
        let place = Address::of_feature(alloc, object, number);
        prune_feature(
            alloc,
            keeps,
            place,
            &mut features[number],
            ways.next(),
            dropped,
        )?;
    }
    Ok(())
}

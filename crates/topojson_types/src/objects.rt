// The features of objects.
ghost use Rattle.std.specs.Prelude.{◌≡◌, IfErr, IfOk, IfSome, None, Some, map};
ghost use Rattle.std.specs.List.{AllByRecursion};
ghost use Rattle.std.specs.Option.{option_copied};
ghost use Rattle.topojson_types.specs.Decoding.{decoded as decoded_features, decoded_feature, of_name, placed_arcs};
ghost use Rattle.topojson_types.specs.Topologies.{object_features};
ghost use Rattle.topojson_types.specs.Transforms.{place};
ghost use Rattle.topojson_types.specs.LinesAndRings.{IsShapeOption};
ghost use Rattle.topojson_types.specs.declared.decode_fault.DecodeFault.TheVariants.{NoObject};

use crate::decode_fault::DecodeFault;
use crate::feature::TopoFeature;
use crate::object::TopoObject;
use crate::shapes::decoded_option;
use crate::topology::Topology;
use geojson_types::{Feature, FeatureSet, Id, Properties};
use json_value::{Items, OwnText};
use owned_values::Memory;
use std::alloc::Global;

/// The identifier once more.
fn copied_id(alloc: Global, id: &Id) -> Result<Id, Memory>
    ensures { IfOk result (λ i. i ≡ id.now) }
{
    match id {
        Id::Text(text) => Ok(Id::Text(text.copy(alloc)?)),
        Id::Number(number) => Ok(Id::Number(number.copy(alloc)?)),
    }
}

/// The identifier once more, if there is one.
fn copied_id_option(alloc: Global, id: &Option<Id>) -> Result<Option<Id>, Memory>
    ensures { IfOk result (λ i. i ≡ id.now) }
{
    match id {
        None => Ok(None),
        Some(id) => Ok(Some(copied_id(alloc, id)?)),
    }
}

/// The properties once more, if they are an object.
fn copied_properties(
    alloc: Global,
    properties: &Option<Properties>,
) -> Result<Option<Properties>, Memory>
    ensures { IfOk result (λ ms. ms ≡ properties.now) }
{
    match properties {
        None => Ok(None),
        Some(properties) => Ok(Some(properties.copy(alloc)?)),
    }
}

/// The feature that a geometry object stands for.
fn feature(alloc: Global, topology: &Topology, feature: &TopoFeature) -> Result<Feature, Memory>
    requires { IsShapeOption topology.now feature.now.shape }
    ensures { IfOk result (λ f. f ≡ decoded_feature (place topology.now.transform) (placed_arcs topology.now.transform topology.now.arcs) feature.now) }
{
    let id = copied_id_option(alloc, &feature.id)?;
    let properties = copied_properties(alloc, &feature.properties)?;
    let shape = decoded_option(alloc, topology, &feature.shape)?;
    Ok(Feature::of(id, properties, shape))
}

/// The features that the members of a collection stand for.
fn members(
    alloc: Global,
    topology: &Topology,
    members: &[TopoFeature],
) -> Result<Items<Feature>, Memory>
    requires { AllByRecursion (λ f. IsShapeOption topology.now f.shape) members.now }
    ensures { IfOk result (λ fs. fs ≡ map (decoded_feature (place topology.now.transform) (placed_arcs topology.now.transform topology.now.arcs)) members.now) }
{
    let mut features = Vec::with_capacity(alloc, members.len())?;
    'members: for member in members {
        features.push(feature(alloc, topology, member)?)?;
    }
    Ok(Items::of(features))
}

/// The object of this name, if there is one.
fn object<'a>(objects: &'a [(OwnText, TopoObject)], name: &str) -> Option<&'a TopoObject>
    ensures { option_copied result ≡ of_name name.now objects.now }
{
    for (key, object) in objects {
        if key.as_str() == name {
            return Some(object);
        }
    }
    None
}

/// The object of this name, if there is one. Its shapes may stand in the topology, as it is valid.
#[tactic(auto, using(crate::proofs::NamedObjects::object_stands))]
pub fn named_object<'a>(topology: &'a Topology, name: &str) -> Option<&'a TopoObject>
    ensures object { option_copied result ≡ of_name name.now topology.now.objects }
    ensures stands { IfSome (option_copied result) (λ o. AllByRecursion (λ f. IsShapeOption topology.now f.shape) (object_features o)) }
{
    object(topology.objects(), name)
}

/// The features of the object of this name (TopoJSON 1.0, section 2.1.5): a geometry object is a Feature, and a GeometryCollection a
/// FeatureCollection of its members. Identifiers and properties are copied, and a ring of fewer than four positions is filled up to
/// four by its first. `NoObject` means that no object has the name.
pub fn features(alloc: Global, topology: &Topology, name: &str) -> Result<FeatureSet, DecodeFault>
    ensures found { IfOk result (λ fs. decoded_features topology.now name.now ≡ Some fs) }
    ensures absent { IfErr result (λ e. e ≡ NoObject → decoded_features topology.now name.now ≡ None) }
{
    let Some(object) = named_object(topology, name) else {
        return Err(DecodeFault::NoObject);
    };
    match object {
        TopoObject::One(one) => Ok(FeatureSet::One(feature(alloc, topology, one)?)),
        TopoObject::Many(many) => Ok(FeatureSet::Many(members(alloc, topology, many.as_slice())?)),
    }
}

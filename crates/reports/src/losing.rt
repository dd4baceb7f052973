// The features of which nothing is left.
ghost use Rattle.std.specs.Prelude.{◌≡◌};
ghost use Rattle.std.specs.Option.{option_copied};
ghost use Rattle.topojson_types.specs.Topologies.{object_features};
ghost use Rattle.reports.specs.Losses as spec;

use geojson_types::{Dropped, Geometry};
use json_value::OwnText;
use std::slice;
use topojson_types::{TopoFeature, TopoObject, TopoShape};

/// The features of an object: itself where it is no collection (TopoJSON 1.0, section 2.2).
pub fn features_in(object: &TopoObject) -> &[TopoFeature]
    ensures { result.now ≡ object_features object.now }
{
    match object {
        TopoObject::One(feature) => slice::from_ref(feature),
        TopoObject::Many(features) => features.as_slice(),
    }
}

/// Whether there is nothing in a shape: it is a GeometryCollection, and so is all in it.
fn is_hollow(shape: &TopoShape) -> bool
    ensures { result ≡ spec.is_hollow shape.now }
{
    match shape {
        Geometry::Point(_) => false,
        Geometry::MultiPoint(_) => false,
        Geometry::Line(_) => false,
        Geometry::Lines(_) => false,
        Geometry::Area(_) => false,
        Geometry::Areas(_) => false,
        Geometry::Group(shapes) => {
            'shapes: for shape in shapes.as_slice() {
                if !is_hollow(shape) {
                    return false;
                }
            }
            true
        }
    }
}

/// Whether nothing is left of the geometry of a feature.
pub fn has_nothing(feature: &TopoFeature) -> bool
    ensures { result ≡ spec.has_nothing feature.now.shape }
{
    match &feature.shape {
        None => true,
        Some(shape) => is_hollow(shape),
    }
}

/// Whether nothing is left of the feature that a line or a ring was of.
fn is_lost(objects: &[(OwnText, TopoObject)], dropped: &Dropped) -> bool
    ensures { result ≡ spec.is_lost objects.now dropped.now }
{
    let Some(object) = objects.get(dropped.address.layer) else {
        return false;
    };
    match features_in(&object.1).get(dropped.address.feature) {
        None => false,
        Some(feature) => has_nothing(feature),
    }
}

/// Whether the first of these, if there is one, isn't of the feature that this line or ring was of.
fn ends_feature(dropped: &Dropped, following: &[Dropped]) -> bool
    ensures { result ≡ spec.ends_feature dropped.now following.now }
{
    match following {
        [] => true,
        [next, ..] => {
            dropped.address.layer != next.address.layer
                || dropped.address.feature != next.address.feature
        }
    }
}

/// How many features are lost of which these lines and rings aren't written: nothing of them is left in these objects.
pub(crate) fn count_lost(objects: &[(OwnText, TopoObject)], dropped: &[Dropped]) -> u64
    ensures { result ≡ spec.lost objects.now dropped.now }
{
    let mut count: u64 = 0;
    let mut rest = dropped;
    'dropped: while let [first, following @ ..] = rest {
        if ends_feature(first, following) && is_lost(objects, first) {
            count = count.saturating_add(1);
        }
        rest = following;
    }
    count
}

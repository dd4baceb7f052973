// Which features use the arcs of a topology.
use geojson_types::Geometry;
use json_value::Items;
use reports::features_in;
use std::alloc::{AllocError, Global};
use topojson_types::{ArcRef, TopoFeature, TopoShape, Topology};

/// The features that use an arc.
#[derive(Clone, Copy)]
pub(crate) enum Owner {
    None,
    /// The feature of this number.
    One(u64),
    /// That of this number first.
    Several(u64),
}

impl Owner {
    /// With this feature.
    fn with(self, feature: u64) -> Owner {
        match self {
            Owner::None => Owner::One(feature),
            Owner::One(other) if other == feature => self,
            Owner::One(first) | Owner::Several(first) => Owner::Several(first),
        }
    }
}

/// How many arcs two features or more use, how many one alone, and how many none.
#[derive(Clone, Copy)]
pub(crate) struct OwnerCounts {
    pub(crate) several: u64,
    pub(crate) one: u64,
    pub(crate) none: u64,
}

/// Notes that the feature uses the arcs with these indexes.
fn use_line(owners: &mut [Owner], feature: u64, refs: &[ArcRef]) {
    for index in refs {
        if let Some(owner) = owners.get_mut(index.index()) {
            *owner = owner.with(feature);
        }
    }
}

/// Notes that it uses the arcs of these lines or rings.
fn use_lines(owners: &mut [Owner], feature: u64, lines: &[Items<ArcRef>]) {
    for line in lines {
        use_line(owners, feature, line.as_slice());
    }
}

/// Notes that it uses the arcs of this shape.
fn use_shape(owners: &mut [Owner], feature: u64, shape: &TopoShape) {
    match shape {
        Geometry::Point(_) | Geometry::MultiPoint(_) => {}
        Geometry::Line(refs) => use_line(owners, feature, refs.as_slice()),
        Geometry::Lines(lines) => use_lines(owners, feature, lines.as_slice()),
        Geometry::Area(rings) => use_lines(owners, feature, rings.as_slice()),
        Geometry::Areas(areas) => {
            for rings in areas.as_slice() {
                use_lines(owners, feature, rings.as_slice());
            }
        }
        Geometry::Group(shapes) => {
            for shape in shapes.as_slice() {
                use_shape(owners, feature, shape);
            }
        }
    }
}

/// Notes which arcs these features use, of which the first has this number. The answer is the number after the last.
fn use_features(owners: &mut [Owner], first: u64, features: &[TopoFeature]) -> u64 {
    let mut number = first;
    for feature in features {
        if let Some(shape) = &feature.shape {
            use_shape(owners, number, shape);
        }
        number = number.saturating_add(1);
    }
    number
}

/// For each arc the features that use it, over all objects.
pub(crate) fn owners_of(alloc: Global, topology: &Topology) -> Result<Vec<Owner>, AllocError> {
    let mut owners = Vec::with_capacity(alloc, topology.arcs().len())?;
    for _ in topology.arcs() {
        owners.push(Owner::None)?;
    }
    let mut number = 0;
    for object in topology.objects() {
        number = use_features(owners.as_mut_slice(), number, features_in(&object.1));
    }
    Ok(owners)
}

/// How many arcs have several owners, one or none.
pub(crate) fn count_owners(owners: &[Owner]) -> OwnerCounts {
    let mut counts = OwnerCounts {
        several: 0,
        one: 0,
        none: 0,
    };
    for owner in owners {
        match owner {
            Owner::Several(_) => counts.several = counts.several.saturating_add(1),
            Owner::One(_) => counts.one = counts.one.saturating_add(1),
            Owner::None => counts.none = counts.none.saturating_add(1),
        }
    }
    counts
}

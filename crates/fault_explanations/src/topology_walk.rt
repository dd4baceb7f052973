// The first fault of a topology's tree, and where it is. What it is made of is read through its text.
use byte_ends::Memory;
use decimal_json::value_text;
use geojson_types::Counts;
use json_cursor::Stop;
use json_reading::TOPOLOGY_DEPTH;
use json_value::{Items, Json, LookupFault, OwnText, find, need, need_text};
use std::alloc::{AllocFailed, Global};
use topojson_decoder::{arc_at, feature_at, members_before_repeat, object_at, transform_at};
use topojson_meaning::TopoFault;
use topojson_types::{Cell, Transform};

/// Where in a topology a fault is. Objects, features and arcs count from zero.
#[derive(Clone, Copy)]
pub(crate) enum Site {
    Topology,
    Member(&'static str),
    Transform,
    Arc(usize),
    /// An object that has the name of an earlier one.
    Repeated(usize),
    Object(usize),
    Feature { object: usize, feature: usize },
}

/// A fault, and where it is.
#[derive(Clone, Copy)]
pub(crate) struct Found {
    pub(crate) fault: TopoFault,
    pub(crate) site: Site,
}

impl Site {
    /// This fault, here.
    fn has(self, fault: TopoFault) -> Found {
        Found { fault, site: self }
    }
}

impl From<Memory> for Found {
    fn from(_refused: Memory) -> Found {
        Site::Topology.has(TopoFault::Memory)
    }
}

impl<T: Drop> From<AllocFailed<T>> for Found {
    fn from(_refused: AllocFailed<T>) -> Found {
        Site::Topology.has(TopoFault::Memory)
    }
}

/// The fault at which reading stops. The text of a value spells a value, so that nothing else stops it but want of memory.
fn fault_of(stop: Stop<TopoFault>) -> TopoFault {
    match stop {
        Stop::Fault(fault) => fault,
        _ => TopoFault::Memory,
    }
}

/// The member of this name, which must be there.
fn needed<'a>(members: &'a [(OwnText, Json)], name: &'static str) -> Result<&'a Json, Found> {
    match need(members, name) {
        Ok(value) => Ok(value),
        Err(fault) => Err(Site::Member(name).has(TopoFault::from(fault))),
    }
}

/// The transform among these members, if there is one.
fn transform_of(alloc: Global, members: &[(OwnText, Json)]) -> Result<Option<Transform>, Found> {
    let value = match find(members, "transform") {
        Err(fault) => return Err(Site::Member("transform").has(TopoFault::from(fault))),
        Ok(None) => return Ok(None),
        Ok(Some(value)) => value,
    };
    let text = value_text(alloc, value)?;
    let Ok((transform, _)) = transform_at(alloc, TOPOLOGY_DEPTH, &text) else {
        return Err(Site::Transform.has(TopoFault::Memory));
    };
    match transform {
        Err(fault) => Err(Site::Transform.has(fault)),
        Ok(transform) => Ok(transform),
    }
}

/// The arcs among these members.
fn arcs_of(
    alloc: Global,
    transform: Option<&Transform>,
    members: &[(OwnText, Json)],
) -> Result<Vec<Items<Cell>>, Found> {
    let Some(values) = needed(members, "arcs")?.as_array() else {
        return Err(Site::Member("arcs").has(TopoFault::WrongKind));
    };
    let mut counts = Counts::none();
    let mut arcs = Vec::new(alloc);
    for (index, value) in values.iter().enumerate() {
        let text = value_text(alloc, value)?;
        match arc_at(alloc, TOPOLOGY_DEPTH, transform, &text, &mut counts) {
            Err(stop) => return Err(Site::Arc(index).has(fault_of(stop))),
            Ok((cells, _)) => arcs.push(cells)?,
        }
    }
    Ok(arcs)
}

/// The geometries of an object that is a collection and can be gone through.
fn features_of(value: &Json) -> Option<&[Json]> {
    let members = value.as_object()?;
    if need_text(members, "type") != Ok("GeometryCollection") {
        return None;
    }
    match need(members, "geometries") {
        Ok(Json::Array(values)) => Some(values.as_slice()),
        _ => None,
    }
}

/// Looks at the features of an object.
fn walk_features(
    alloc: Global,
    transform: Option<&Transform>,
    arcs: &[Items<Cell>],
    number: usize,
    values: &[Json],
) -> Result<(), Found> {
    let mut counts = Counts::none();
    for (index, value) in values.iter().enumerate() {
        let text = value_text(alloc, value)?;
        let site = Site::Feature {
            object: number,
            feature: index,
        };
        match feature_at(alloc, TOPOLOGY_DEPTH, transform, arcs, &text, &mut counts) {
            Err(stop) => return Err(site.has(fault_of(stop))),
            Ok(read) => drop(read),
        }
    }
    Ok(())
}

/// Looks at the object of this number.
fn walk_object(
    alloc: Global,
    transform: Option<&Transform>,
    arcs: &[Items<Cell>],
    number: usize,
    value: &Json,
) -> Result<(), Found> {
    if let Some(values) = features_of(value) {
        return walk_features(alloc, transform, arcs, number, values);
    }
    let text = value_text(alloc, value)?;
    let mut counts = Counts::none();
    match object_at(alloc, TOPOLOGY_DEPTH, transform, arcs, &text, &mut counts) {
        Err(stop) => Err(Site::Object(number).has(fault_of(stop))),
        Ok(read) => {
            drop(read);
            Ok(())
        }
    }
}

/// Looks at the objects among these members.
fn walk_objects(
    alloc: Global,
    transform: Option<&Transform>,
    arcs: &[Items<Cell>],
    members: &[(OwnText, Json)],
) -> Result<(), Found> {
    let Some(objects) = needed(members, "objects")?.as_object() else {
        return Err(Site::Member("objects").has(TopoFault::WrongKind));
    };
    let repeat = members_before_repeat(alloc, objects)?;
    for (number, object) in objects.iter().enumerate() {
        if number == repeat {
            return Err(Site::Repeated(number).has(TopoFault::Duplicate));
        }
        walk_object(alloc, transform, arcs, number, &object.1)?;
    }
    Ok(())
}

/// Looks at the arcs and the objects among these members.
fn walk_contents(
    alloc: Global,
    transform: Option<&Transform>,
    members: &[(OwnText, Json)],
) -> Result<(), Found> {
    let arcs = arcs_of(alloc, transform, members)?;
    walk_objects(alloc, transform, &arcs, members)
}

/// Looks at a topology in the order in which faults are answered.
pub(crate) fn walk_topology(alloc: Global, value: &Json) -> Result<(), Found> {
    let Some(members) = value.as_object() else {
        return Err(Site::Topology.has(TopoFault::NotTopology));
    };
    match needed(members, "type")?.as_text() {
        None => return Err(Site::Member("type").has(TopoFault::WrongKind)),
        Some("Topology") => {}
        Some(_) => return Err(Site::Member("type").has(TopoFault::NotTopology)),
    }
    let transform = transform_of(alloc, members)?;
    walk_contents(alloc, transform.as_ref(), members)
}

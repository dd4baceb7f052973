// Why the file of a topology is refused.
use crate::json_faults::json_fault;
use crate::read_faults::read_words;
use crate::topology_walk::{Found, Site, walk_topology};
use crate::trails::{file_line, part_line};
use crate::trees::{objects_of, parts_of, tree, type_of};
use crate::walk::Walk;
use geojson_meaning::{GeoFaultKind, geojson_type};
use inputs::FileFault;
use json_reading::TOPOLOGY_DEPTH;
use json_value::Json;
use std::alloc::{AllocError, Global};
use topojson_decoder::{label_of, quoted, shown};
use topojson_meaning::TopoFault;

/// What a file is that is JSON texts one after another.
const SEQUENCE: &str = "  the file is JSON texts one after another, and no topology\n";

/// The names of these objects, or that there are none.
fn objects_line(alloc: Global, topology: &Json) -> Result<String, AllocError> {
    let mut names = String::new(alloc);
    for object in objects_of(topology) {
        let name = quoted(alloc, object.0.as_str())?;
        if !names.is_empty() {
            names.push_str(", ")?;
        }
        names.push_str(name.as_str())?;
    }
    if names.is_empty() {
        return String::from_str(alloc, "  it has no objects\n");
    }
    format!(in alloc; "  its objects are {names}\n")
}

/// The name of the object of this number.
fn object_name(alloc: Global, topology: &Json, number: usize) -> Result<String, AllocError> {
    match objects_of(topology).get(number) {
        None => Ok(String::new(alloc)),
        Some(object) => quoted(alloc, object.0.as_str()),
    }
}

/// What the feature of this number of that object is called.
fn feature_label(
    alloc: Global,
    topology: &Json,
    number: usize,
    feature: usize,
) -> Result<String, AllocError> {
    let Some(object) = objects_of(topology).get(number) else {
        return Ok(String::new(alloc));
    };
    let Some(members) = object.1.as_object() else {
        return Ok(String::new(alloc));
    };
    match parts_of(members).get(feature) {
        None => Ok(String::new(alloc)),
        Some(value) => label_of(alloc, value),
    }
}

/// The words for a place in a topology.
fn site_text(alloc: Global, topology: &Json, site: Site) -> Result<String, AllocError> {
    match site {
        Site::Topology => String::from_str(alloc, "the topology"),
        Site::Member(name) => String::from_str(alloc, name),
        Site::Transform => String::from_str(alloc, "transform"),
        Site::Arc(index) => format!(in alloc; "arc {index}"),
        Site::Repeated(number) => {
            let name = object_name(alloc, topology, number)?;
            format!(in alloc; "object {name}")
        }
        Site::Object(number) => {
            let name = object_name(alloc, topology, number)?;
            format!(in alloc; "object {name}")
        }
        Site::Feature { object, feature } => {
            let name = object_name(alloc, topology, object)?;
            let label = feature_label(alloc, topology, object, feature)?;
            format!(in alloc; "object {name}, feature {feature}{label}")
        }
    }
}

/// What is wrong with the member of this name of a topology itself.
fn member_words(name: &str, fault: TopoFault) -> &'static str {
    match fault {
        TopoFault::Missing => "is missing",
        TopoFault::Duplicate => "stands there twice",
        _ => match name {
            "type" => "is no text",
            "arcs" => "is no array",
            _ => "is no object",
        },
    }
}

/// What is wrong with what is inside one.
fn inner_words(fault: TopoFault) -> &'static str {
    match fault {
        TopoFault::Missing => "a member that must be there is missing",
        TopoFault::Duplicate => "a member stands there twice",
        TopoFault::WrongKind => {
            "a value isn't of the kind of JSON value that it must be, or an arc index isn't whole"
        }
        TopoFault::UnknownType => "a type is none of the seven of TopoJSON",
        TopoFault::ShortArc => "it has fewer than two positions",
        TopoFault::IndexRange => "an arc index names no arc",
        TopoFault::Unjoined => "an arc of a line doesn't begin where the one before ends",
        TopoFault::OpenRing => "the arcs of a ring don't end where they begin",
        TopoFault::GridNumber => {
            "a number isn't whole or is too far from zero, and there is a transform"
        }
        TopoFault::Range => {
            "a number is beyond 3*10^8, or a coordinate that the transform makes of one"
        }
        TopoFault::NotTopology => "",
        TopoFault::Memory => "",
    }
}

/// The line for what is to be done about arcs that don't meet, in the file of another program.
fn way_out(fault: TopoFault) -> &'static str {
    match fault {
        TopoFault::Unjoined | TopoFault::OpenRing => {
            "  if another program made the file, build it again of its layers, or of what topojson-client decodes, with rings closed\n"
        }
        _ => "",
    }
}

/// The fault of a layer that is of the same name, of those that a value's kind alone shows.
fn kind_of(fault: TopoFault) -> Option<GeoFaultKind> {
    match fault {
        TopoFault::Missing => Some(GeoFaultKind::Missing),
        TopoFault::Duplicate => Some(GeoFaultKind::Duplicate),
        TopoFault::WrongKind => Some(GeoFaultKind::WrongKind),
        TopoFault::UnknownType => Some(GeoFaultKind::UnknownType),
        _ => None,
    }
}

/// Looks at the object of this number, or at a feature of it.
fn walk_object(
    walk: &mut Walk,
    topology: &Json,
    number: usize,
    feature: Option<usize>,
) -> Result<(), GeoFaultKind> {
    let Some(object) = objects_of(topology).get(number) else {
        return Ok(());
    };
    match feature {
        None => walk.topology_object(&object.1),
        Some(feature) => match object.1.as_object() {
            None => Ok(()),
            Some(members) => match parts_of(members).get(feature) {
                None => Ok(()),
                Some(value) => walk.topology_feature(value),
            },
        },
    }
}

/// Looks at the kinds of the values at a place in a topology.
fn walk_site(walk: &mut Walk, topology: &Json, site: Site) -> Result<(), GeoFaultKind> {
    let Some(members) = topology.as_object() else {
        return Ok(());
    };
    match site {
        Site::Transform => walk.transform(members),
        Site::Arc(number) => walk.arc(members, number),
        Site::Object(number) => walk_object(walk, topology, number, None),
        Site::Feature { object, feature } => walk_object(walk, topology, object, Some(feature)),
        Site::Topology | Site::Member(_) | Site::Repeated(_) => Ok(()),
    }
}

/// The line for a fault that the kinds of the values at its place show, or nothing where they don't.
fn kind_line(
    alloc: Global,
    topology: &Json,
    found: &Found,
    site: &str,
) -> Result<Option<String>, AllocError> {
    let mut walk = Walk::new(alloc, false);
    match walk_site(&mut walk, topology, found.site) {
        Ok(()) => Ok(None),
        Err(GeoFaultKind::Memory) => Err(AllocError),
        Err(kind) if kind_of(found.fault) != Some(kind) => Ok(None),
        Err(_) => match found.site {
            Site::Object(_) | Site::Feature { .. } => Ok(Some(part_line(alloc, site, &walk)?)),
            _ => Ok(Some(file_line(alloc, &walk)?)),
        },
    }
}

/// The line for a fault, where it is and what is wrong there.
fn found_line(alloc: Global, topology: &Json, found: &Found) -> Result<String, AllocError> {
    let site = site_text(alloc, topology, found.site)?;
    if let Site::Member(name) = found.site {
        let words = member_words(name, found.fault);
        return format!(in alloc; "  {site} {words}\n");
    }
    if let Some(line) = kind_line(alloc, topology, found, site.as_str())? {
        return Ok(line);
    }
    let words = match found.site {
        Site::Repeated(_) => "an object before it has the same name",
        _ => inner_words(found.fault),
    };
    let way_out = way_out(found.fault);
    format!(in alloc; "  {site}: {words}\n{way_out}")
}

/// The line for a value that is no object.
fn value_line(value: &Json) -> &'static str {
    match value {
        Json::Null => "  it is null, not an object\n",
        Json::Bool(true) => "  it is true, not an object\n",
        Json::Bool(false) => "  it is false, not an object\n",
        Json::Number(_) => "  it is a number, not an object\n",
        Json::Text(_) => "  it is a text, not an object\n",
        Json::Array(_) => "  it is an array, not an object\n",
        Json::Object(_) => "",
    }
}

/// The line for a value that is no topology: what it is instead.
fn other_line(alloc: Global, value: &Json) -> Result<String, AllocError> {
    let Some(name) = type_of(value) else {
        return String::from_str(alloc, value_line(value));
    };
    if geojson_type(name).is_some() {
        return String::from_str(alloc, "  this is GeoJSON, which mapchain build takes\n");
    }
    let name = quoted(alloc, name)?;
    format!(in alloc; "  its type is {name}, not \"Topology\"\n")
}

/// What is wrong with this value, which is no topology.
fn topo_fault(alloc: Global, value: &Json, fault: TopoFault) -> Result<String, AllocError> {
    if fault == TopoFault::NotTopology {
        return other_line(alloc, value);
    }
    let found = match walk_topology(alloc, value) {
        Ok(()) => return Ok(String::new(alloc)),
        Err(found) => found,
    };
    if found.fault == TopoFault::Memory {
        return Err(AllocError);
    }
    if found.fault != fault {
        return Ok(String::new(alloc));
    }
    found_line(alloc, value, &found)
}

/// What is wrong with the value that the bytes spell, for which this fault was answered.
fn value_fault(alloc: Global, bytes: &[u8], fault: &FileFault) -> Result<String, AllocError> {
    let Some(value) = tree(alloc, bytes, TOPOLOGY_DEPTH)? else {
        return Ok(String::new(alloc));
    };
    match fault {
        FileFault::Topo(fault) => topo_fault(alloc, &value, *fault),
        FileFault::NoObject => objects_line(alloc, &value),
        _ => Ok(String::new(alloc)),
    }
}

/// Why the file of this path is refused, with this fault: the place of the fault and what is wrong there, as far as that is found out.
/// `bytes` are those of the file, or none where it couldn't be read.
pub fn topology_fault(
    alloc: Global,
    path: &str,
    bytes: &[u8],
    fault: &FileFault,
) -> Result<String, AllocError> {
    let lines = match fault {
        FileFault::Write { .. } => return Ok(String::new(alloc)),
        FileFault::Memory => return Ok(String::new(alloc)),
        FileFault::Read(fault) => String::from_str(alloc, read_words(*fault))?,
        FileFault::Json(fault) => json_fault(alloc, bytes, TOPOLOGY_DEPTH, SEQUENCE, *fault)?,
        FileFault::Topo(_) => value_fault(alloc, bytes, fault)?,
        FileFault::NoObject => value_fault(alloc, bytes, fault)?,
        FileFault::ManyPositions { count } => format!(in alloc;
            "  the features of the object have {count} positions: --max-positions {count} lets them be written\n"
        )?,
    };
    let path = shown(alloc, path)?;
    format!(in alloc; "  the file {path}\n{lines}")
}

// What is in a topology.
use crate::brief::OBJECT_BEGINNING;
use crate::building::decimal_of_units;
use crate::owners::{OwnerCounts, count_owners, owners_of};
use geojson_types::{Geometry, Position};
use reports::{decoded_positions, features_in};
use std::alloc::{AllocError, Global};
use topojson_decoder::quoted;
use topojson_types::{TopoFeature, TopoObject, TopoShape, Topology, Transform};

/// The types of geometries (RFC 7946, section 1.4), and null.
const TYPES: [&str; 8] = [
    "Point",
    "MultiPoint",
    "LineString",
    "MultiLineString",
    "Polygon",
    "MultiPolygon",
    "GeometryCollection",
    "null",
];

/// The number among `TYPES` of a shape that may be null.
fn type_number(shape: &Option<TopoShape>) -> usize {
    match shape {
        Some(Geometry::Point(_)) => 0,
        Some(Geometry::MultiPoint(_)) => 1,
        Some(Geometry::Line(_)) => 2,
        Some(Geometry::Lines(_)) => 3,
        Some(Geometry::Area(_)) => 4,
        Some(Geometry::Areas(_)) => 5,
        Some(Geometry::Group(_)) => 6,
        None => 7,
    }
}

/// How many of these features are of each of `TYPES`.
fn type_counts(features: &[TopoFeature]) -> [u64; 8] {
    let mut counts: [u64; 8] = [0; 8];
    for feature in features {
        if let Some(count) = counts.get_mut(type_number(&feature.shape)) {
            *count = count.saturating_add(1);
        }
    }
    counts
}

/// How many features are Polygons or MultiPolygons.
fn count_polygons(topology: &Topology) -> u64 {
    let mut polygons: u64 = 0;
    for object in topology.objects() {
        let counts = type_counts(features_in(&object.1));
        polygons = polygons.saturating_add(counts[4]).saturating_add(counts[5]);
    }
    polygons
}

/// The line for polygons, two or more, where no arc is one of two features.
fn unshared_text(
    alloc: Global,
    topology: &Topology,
    counts: OwnerCounts,
) -> Result<String, AllocError> {
    let polygons = count_polygons(topology);
    if polygons < 2 || counts.several > 0 {
        return Ok(String::new(alloc));
    }
    format!(in alloc;
        "  none of {polygons} polygons shares an arc with another: if they have borders in common, decode the objects by mapchain geo and build them again\n"
    )
}

/// The line for polygons that share no arc, as they may in the file of another program.
pub(crate) fn unshared_line(alloc: Global, topology: &Topology) -> Result<String, AllocError> {
    let owners = owners_of(alloc, topology)?;
    unshared_text(alloc, topology, count_owners(owners.as_slice()))
}

/// Of how many features of which type an object is made, as in `: Polygon 3, null 1`.
fn types_text(alloc: Global, features: &[TopoFeature]) -> Result<String, AllocError> {
    let mut text = String::new(alloc);
    let counts = type_counts(features);
    for (name, count) in TYPES.iter().zip(counts.iter()) {
        if *count > 0 {
            let before = if text.is_empty() { ": " } else { ", " };
            write!(text, "{before}{name} {count}")?;
        }
    }
    Ok(text)
}

/// How many positions the features of an object have when they are decoded, where these aren't only Points.
fn positions_text(
    alloc: Global,
    topology: &Topology,
    object: &TopoObject,
) -> Result<String, AllocError> {
    let count = decoded_positions(topology, object);
    if count <= features_in(object).len() as u64 {
        return Ok(String::new(alloc));
    }
    format!(in alloc; ", {count} positions decoded")
}

/// The line for an object of this name, of which this is said of its first properties.
fn object_line(
    alloc: Global,
    topology: &Topology,
    name: &str,
    object: &TopoObject,
    properties: &str,
) -> Result<String, AllocError> {
    let name = quoted(alloc, name)?;
    let types = types_text(alloc, features_in(object))?;
    let positions = positions_text(alloc, topology, object)?;
    format!(in alloc; "{OBJECT_BEGINNING}{name}{types}{positions}{properties}\n")
}

/// The line for the least and the greatest coordinates.
fn bounds_line(alloc: Global, least: Position, greatest: Position) -> Result<String, AllocError> {
    let left = decimal_of_units(alloc, least.x())?;
    let bottom = decimal_of_units(alloc, least.y())?;
    let right = decimal_of_units(alloc, greatest.x())?;
    let top = decimal_of_units(alloc, greatest.y())?;
    format!(in alloc; "  x goes from {left} to {right}, and y from {bottom} to {top}\n")
}

/// The line for the step of the grid.
pub(crate) fn step_line(alloc: Global, transform: &Transform) -> Result<String, AllocError> {
    let across = transform.scale.0.text();
    let up = transform.scale.1.text();
    format!(in alloc; "  a step of the grid is {across} by {up}\n")
}

/// The lines for the arcs, by how many features use them.
fn arcs_lines(alloc: Global, topology: &Topology) -> Result<String, AllocError> {
    if topology.arcs().is_empty() {
        return Ok(String::new(alloc));
    }
    let owners = owners_of(alloc, topology)?;
    let counts = count_owners(owners.as_slice());
    let several = counts.several;
    let one = counts.one;
    let none = counts.none;
    let unshared = unshared_text(alloc, topology, counts)?;
    format!(in alloc;
        "  arcs of two features or more {several}, of one {one}, of none {none}\n{unshared}"
    )
}

/// What is in a topology: the types of each object's features, their positions, and the properties of its first feature that has any, of which
/// `samples` has what is said, object by object; the bounds of all positions; the step of the grid, if there is one; and how many arcs features share.
pub(crate) fn topology_lines(
    alloc: Global,
    topology: &Topology,
    samples: &[String],
) -> Result<String, AllocError> {
    let mut lines = String::new(alloc);
    for (number, object) in topology.objects().iter().enumerate() {
        let sample = samples.get(number).map_or("", |sample| sample.as_str());
        let line = object_line(alloc, topology, object.0.as_str(), &object.1, sample)?;
        lines.push_str(line.as_str())?;
    }
    if let Some((least, greatest)) = topology.bounds() {
        lines.push_str(bounds_line(alloc, least, greatest)?.as_str())?;
    }
    if let Some(transform) = topology.transform() {
        lines.push_str(step_line(alloc, transform)?.as_str())?;
    }
    lines.push_str(arcs_lines(alloc, topology)?.as_str())?;
    Ok(lines)
}

// Why a layer is refused.
use crate::json_faults::json_fault;
use crate::read_faults::read_words;
use crate::trails::file_line;
use crate::trees::{tree, type_of};
use crate::type_names::layer_words;
use crate::walk::{Member, Walk};
use geojson_meaning::{GeoFault, GeoFaultKind, GeoJsonType, geojson_type};
use inputs::BuildFault;
use json_reading::LAYER_DEPTH;
use json_value::{Json, OwnText, need};
use std::alloc::{AllocError, Global};
use topojson_decoder::{label_of, quoted, shown};

/// What to do with a layer that is JSON texts one after another.
const SEQUENCE: &str =
    "  the file is JSON texts one after another: make one FeatureCollection of them, as by ogr2ogr -f GeoJSON or jq -s\n";

/// Looks at what of a layer comes before its features.
fn walk_layer(walk: &mut Walk, value: &Json) -> Result<(), GeoFaultKind> {
    let Some(members) = value.as_object() else {
        return Err(walk.stop(GeoFaultKind::NotObject, "is no object"));
    };
    let name = walk.enter_type(members)?;
    match geojson_type(name) {
        None => Err(walk.stop_type(name, layer_words(name))),
        Some(GeoJsonType::FeatureCollection) => {
            walk.leave();
            let _features = walk.enter_array(members, Member::Features)?;
            Ok(())
        }
        Some(_) => Ok(()),
    }
}

/// The feature of this number of a FeatureCollection.
fn element_at<'a>(members: &'a [(OwnText, Json)], number: usize) -> Option<&'a Json> {
    match need(members, "features") {
        Ok(Json::Array(values)) => values.as_slice().get(number),
        _ => None,
    }
}

/// Looks at the feature of this number.
fn walk_feature(walk: &mut Walk, value: &Json, number: usize) -> Result<(), GeoFaultKind> {
    let Some(members) = value.as_object() else {
        return Ok(());
    };
    match type_of(value) {
        None => Ok(()),
        Some(name) => match geojson_type(name) {
            None => Ok(()),
            Some(GeoJsonType::FeatureCollection) => match element_at(members, number) {
                None => Ok(()),
                Some(element) => walk.feature_element(element),
            },
            Some(GeoJsonType::Feature) => walk.feature(members),
            Some(GeoJsonType::Geometry(kind)) => walk.typed_geometry(kind, members, LAYER_DEPTH),
        },
    }
}

/// What the feature of this number is called.
fn feature_label(alloc: Global, value: &Json, number: usize) -> Result<String, AllocError> {
    let labelled = match (type_of(value), value.as_object()) {
        (Some("FeatureCollection"), Some(members)) => element_at(members, number),
        (Some("Feature"), _) => Some(value),
        _ => None,
    };
    match labelled {
        None => Ok(String::new(alloc)),
        Some(feature) => label_of(alloc, feature),
    }
}

/// The line for the feature of this number, and that for its fault, if a walk meets this very fault.
fn feature_lines(
    alloc: Global,
    value: &Json,
    exact: bool,
    number: usize,
    kind: GeoFaultKind,
) -> Result<String, AllocError> {
    let label = feature_label(alloc, value, number)?;
    let mut lines = format!(in alloc; "  feature {number}{label}\n")?;
    let mut walk = Walk::new(alloc, exact);
    let met = walk_feature(&mut walk, value, number);
    add_met(alloc, &mut lines, &walk, met, kind)?;
    Ok(lines)
}

/// Adds the line for the place where a walk stopped, if it met this very fault.
fn add_met(
    alloc: Global,
    lines: &mut String,
    walk: &Walk,
    met: Result<(), GeoFaultKind>,
    kind: GeoFaultKind,
) -> Result<(), AllocError> {
    match met {
        Ok(()) => Ok(()),
        Err(GeoFaultKind::Memory) => Err(AllocError),
        Err(found) => {
            if found == kind {
                let line = file_line(alloc, walk)?;
                lines.push_str(line.as_str())?;
            }
            Ok(())
        }
    }
}

/// The line for a fault before any feature, if a walk meets this very fault.
fn layer_lines(
    alloc: Global,
    value: &Json,
    exact: bool,
    kind: GeoFaultKind,
) -> Result<String, AllocError> {
    if type_of(value) == Some("Topology") {
        return String::from_str(
            alloc,
            "  this is a topology, which mapchain simplify, geo and stat take\n",
        );
    }
    let mut lines = String::new(alloc);
    let mut walk = Walk::new(alloc, exact);
    let met = walk_layer(&mut walk, value);
    add_met(alloc, &mut lines, &walk, met, kind)?;
    Ok(lines)
}

/// What is wrong with the value that the bytes spell, which is no layer.
fn geo_fault(
    alloc: Global,
    exact: bool,
    bytes: &[u8],
    fault: GeoFault,
) -> Result<String, AllocError> {
    if fault.kind == GeoFaultKind::Memory {
        return Ok(String::new(alloc));
    }
    let Some(value) = tree(alloc, bytes, LAYER_DEPTH)? else {
        return Ok(String::new(alloc));
    };
    match fault.feature {
        None => layer_lines(alloc, &value, exact, fault.kind),
        Some(number) => feature_lines(alloc, &value, exact, number, fault.kind),
    }
}

/// Why this layer is refused, with this fault: its name and its file, the feature that the fault is in, the place in it and what is
/// wrong there, as far as that is found out. `bytes` are those of its file, which was read with this `exact`, or none where it couldn't be read.
pub fn layer_fault(
    alloc: Global,
    layer: usize,
    name: &str,
    path: &str,
    exact: bool,
    bytes: &[u8],
    fault: &BuildFault,
) -> Result<String, AllocError> {
    let lines = match fault {
        BuildFault::Write { .. } => return Ok(String::new(alloc)),
        BuildFault::Memory => return Ok(String::new(alloc)),
        BuildFault::EmptyName { .. } => {
            String::from_str(alloc, "  a layer needs a name before its =\n")?
        }
        BuildFault::DuplicateName { .. } => {
            String::from_str(alloc, "  two layers can't have one name\n")?
        }
        BuildFault::Read { fault, .. } => String::from_str(alloc, read_words(*fault))?,
        BuildFault::Json { fault, .. } => json_fault(alloc, bytes, LAYER_DEPTH, SEQUENCE, *fault)?,
        BuildFault::Geo { fault, .. } => geo_fault(alloc, exact, bytes, *fault)?,
    };
    let name = quoted(alloc, name)?;
    let path = shown(alloc, path)?;
    format!(in alloc; "  layer {layer} is {name}, the file {path}\n{lines}")
}

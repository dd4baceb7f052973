// What is said of an input that was taken: members that aren't read, and coordinates that seem to be something else.
use crate::bounds::seem_swapped;
use crate::brief::{SWAPPED_ENDING, SYSTEM_ENDING, UNREAD_ENDING};
use crate::unread::Unread;
use extraction::ExtractedLayer;
use json_reading::{Fault, LAYER_DEPTH, value_at};
use json_value::{Json, OwnText, find, need_text};
use std::alloc::{AllocError, Global};
use topojson_decoder::quoted;

/// Adds how many members of this kind there are, if there are any.
fn add_count(alloc: Global, counts: &mut String, kind: &str, count: u64) -> Result<(), AllocError> {
    if count == 0 {
        return Ok(());
    }
    if !counts.is_empty() {
        counts.push_str(", ")?;
    }
    let part = format!(in alloc; "{kind} {count}")?;
    counts.push_str(part.as_str())
}

/// The line for members that aren't read, if there are any. `place` is what stands before it: the layer, or nothing.
fn unread_line(alloc: Global, place: &str, unread: &Unread<'_>) -> Result<String, AllocError> {
    let mut counts = String::new(alloc);
    add_count(alloc, &mut counts, "\"bbox\"", unread.bbox)?;
    add_count(alloc, &mut counts, "\"crs\"", unread.crs)?;
    add_count(alloc, &mut counts, "other members", unread.others)?;
    counts.push_str(unread.names.text(alloc)?.as_str())?;
    if counts.is_empty() {
        return Ok(counts);
    }
    format!(in alloc; "  {place}{counts}{UNREAD_ENDING}\n")
}

/// The line for a layer whose positions seem to have their latitude first, if they do. `place` is what stands before it.
fn swapped_line(alloc: Global, place: &str, layer: &ExtractedLayer) -> Result<String, AllocError> {
    match layer.bounds() {
        Some(bounds) if seem_swapped(bounds) => format!(in alloc;
            "  {place}every x is from -90 to 90 and some y isn't: if these are degrees, latitude and longitude are swapped{SWAPPED_ENDING}\n"
        ),
        _ => Ok(String::new(alloc)),
    }
}

/// The coordinate reference systems of degrees that layers of GeoJSON of 2008 mostly have: how their names end. By their numbers in the list of the
/// EPSG they are WGS 84, ETRS89, NAD83, GDA94, GDA2020, CGCS2000, SIRGAS 2000, JGD2011 and NZGD2000.
const DEGREES: [&str; 11] = [
    "CRS84", ":4326", "/4326", ":4258", ":4269", ":4283", ":7844", ":4490", ":4674", ":6668",
    ":4167",
];

/// The name that the member `crs` of GeoJSON of 2008 gives, of this value.
fn crs_name(crs: &Json) -> Option<&str> {
    let Ok(Some(Json::Object(properties))) = find(crs.as_object()?, "properties") else {
        return None;
    };
    need_text(properties.as_slice(), "name").ok()
}

/// The line for a layer that names a coordinate reference system which isn't known to be of degrees. What stands from the value of its `crs` on is
/// given, and `place` is what stands before the line.
fn crs_line(alloc: Global, place: &str, bytes: &[u8]) -> Result<String, AllocError> {
    let value = match value_at(alloc, LAYER_DEPTH, bytes) {
        Ok((value, _)) => value,
        Err(Fault::Memory) => return Err(AllocError),
        Err(Fault::Malformed { .. }) => return Ok(String::new(alloc)),
    };
    let Some(name) = crs_name(&value) else {
        return Ok(String::new(alloc));
    };
    if DEGREES.iter().any(|ending| name.ends_with(*ending)) {
        return Ok(String::new(alloc));
    }
    let name = quoted(alloc, name)?;
    format!(in alloc;
        "  {place}its \"crs\" is {name}: coordinates are taken as they are, so areas are in square units of it{SYSTEM_ENDING}\n"
    )
}

/// What is said of the inputs that were read, line by line, with the lines of one kind beside each other.
#[derive(Drop)]
pub(crate) struct InputLines {
    unread: String,
    systems: String,
    swapped: String,
}

impl InputLines {
    /// Nothing yet.
    pub(crate) fn none(alloc: Global) -> InputLines {
        InputLines {
            unread: String::new(alloc),
            systems: String::new(alloc),
            swapped: String::new(alloc),
        }
    }

    /// Adds what is said of the layer of this number, which the bytes spell: a line for the members that aren't read; one where it says
    /// that its coordinates may not be degrees; and one where latitude and longitude seem to be swapped.
    pub(crate) fn add_layer(
        &mut self,
        alloc: Global,
        number: usize,
        bytes: &[u8],
        layer: &ExtractedLayer,
    ) -> Result<(), AllocError> {
        let place = format!(in alloc; "layer {number}: ")?;
        let place = place.as_str();
        let unread = Unread::of_layer(alloc, bytes)?;
        self.unread
            .push_str(unread_line(alloc, place, &unread)?.as_str())?;
        if let Some(crs) = unread.layer_crs {
            self.systems
                .push_str(crs_line(alloc, place, crs)?.as_str())?;
        }
        self.swapped
            .push_str(swapped_line(alloc, place, layer)?.as_str())
    }

    /// Adds what is said of the topology that the bytes spell: a line for the members that aren't read.
    pub(crate) fn add_file(&mut self, alloc: Global, bytes: &[u8]) -> Result<(), AllocError> {
        let unread = Unread::of_topology(alloc, bytes)?;
        self.unread
            .push_str(unread_line(alloc, "", &unread)?.as_str())
    }

    /// Adds all of it to these lines.
    pub(crate) fn add_to(&self, lines: &mut String) -> Result<(), AllocError> {
        lines.push_str(self.unread.as_str())?;
        lines.push_str(self.systems.as_str())?;
        lines.push_str(self.swapped.as_str())
    }
}

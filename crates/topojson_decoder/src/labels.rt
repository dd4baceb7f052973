// What a feature is called.
use crate::escaping::{add_quoted, add_text};
use crate::members::{member_at, next_member, rest_after};
use geojson_types::{Id, Properties, PropertiesForm};
use json_cursor::{Name, after_byte, string_at};
use json_reading::skip;
use json_value::{Json, OwnText, find};
use std::alloc::{AllocError, Global};
use topojson_types::TopoFeature;

/// The members that mostly hold what a feature is called, in any letter case, the best first.
const NAMES: [&str; 5] = ["name", "name_en", "admin", "title", "label"];

/// How far behind the best the property of this name is with this text, as what a feature is called. An empty text is no better than any.
fn rank(name: &str, text: &str) -> usize {
    if text.is_empty() {
        return NAMES.len();
    }
    for (number, wanted) in NAMES.iter().enumerate() {
        if name.eq_ignore_ascii_case(wanted) {
            return number;
        }
    }
    NAMES.len()
}

/// Adds a name and a text, after a comma.
fn add_named(label: &mut String, name: &str, text: &str) -> Result<(), AllocError> {
    label.push_str(", ")?;
    add_text(label, name)?;
    label.push_str(" ")?;
    add_quoted(label, text)
}

/// Adds an identifier that is a text, after a comma.
fn add_text_id(label: &mut String, text: &str) -> Result<(), AllocError> {
    label.push_str(", id ")?;
    add_quoted(label, text)
}

/// Adds an identifier that is a number of this text, after a comma.
fn add_number_id(label: &mut String, text: &str) -> Result<(), AllocError> {
    label.push_str(", id ")?;
    label.push_str(text)
}

/// The text among these properties that a person would take for a name, with its own name: or else the first of them that is a text.
fn name_among(properties: &[(OwnText, Json)]) -> Option<(&str, &str)> {
    let mut best = None;
    let mut best_rank = NAMES.len() + 1;
    for property in properties {
        let name = property.0.as_str();
        if let Some(text) = property.1.as_text() {
            let rank = rank(name, text);
            if rank < best_rank {
                best = Some((name, text));
                best_rank = rank;
            }
        }
    }
    best
}

/// The best text that was found among properties so far, after its own name, and how far behind the best it is.
#[derive(Drop)]
struct Best<'a> {
    found: Option<(Name<'a>, Name<'a>)>,
    rank: usize,
}

impl<'a> Best<'a> {
    /// With the property of this name, which is this text.
    fn see(&mut self, name: Name<'a>, text: Name<'a>) {
        let rank = rank(name.as_str(), text.as_str());
        if rank < self.rank {
            self.found = Some((name, text));
            self.rank = rank;
        }
    }

    /// What follows the property at the front, which is seen; nothing of what is none, or for want of memory.
    fn pass(&mut self, alloc: Global, bytes: &'a [u8]) -> Option<&'a [u8]> {
        let (name, value) = member_at(alloc, bytes)?;
        match string_at(alloc, value).ok()? {
            Some((text, after)) => {
                self.see(name, text);
                Some(after)
            }
            None => rest_after(alloc, value),
        }
    }
}

/// The same among the properties of this text, as far as memory lasts.
fn name_in<'a>(alloc: Global, text: &'a [u8]) -> Option<(Name<'a>, Name<'a>)> {
    let mut best = Best {
        found: None,
        rank: NAMES.len() + 1,
    };
    let mut rest = skip(after_byte(b'{', text)?);
    for _ in 0..text.len() {
        let after = best.pass(alloc, rest);
        if best.rank == 0 {
            break;
        }
        match after.and_then(next_member) {
            Some(more) => rest = more,
            None => break,
        }
    }
    best.found
}

/// Adds what is found among properties.
fn add_name(alloc: Global, label: &mut String, properties: &Properties) -> Result<(), AllocError> {
    match properties.form() {
        PropertiesForm::Values(members) => match name_among(members) {
            Some((name, text)) => add_named(label, name, text),
            None => Ok(()),
        },
        PropertiesForm::Text(text) => match name_in(alloc, text) {
            Some((name, text)) => add_named(label, name.as_str(), text.as_str()),
            None => Ok(()),
        },
    }
}

/// Adds what a feature of a topology is called: its identifier, and its name, or else the first of its properties that is a text.
pub fn add_label(
    alloc: Global,
    label: &mut String,
    feature: &TopoFeature,
) -> Result<(), AllocError> {
    match &feature.id {
        Some(Id::Text(text)) => add_text_id(label, text.as_str())?,
        Some(Id::Number(number)) => add_number_id(label, number.text())?,
        None => {}
    }
    match &feature.properties {
        Some(properties) => add_name(alloc, label, properties),
        None => Ok(()),
    }
}

/// What the feature that this value stands for is called, in the same way.
pub fn label_of(alloc: Global, value: &Json) -> Result<String, AllocError> {
    let mut label = String::new(alloc);
    let Some(members) = value.as_object() else {
        return Ok(label);
    };
    match find(members, "id") {
        Ok(Some(Json::Text(text))) => add_text_id(&mut label, text.as_str())?,
        Ok(Some(Json::Number(number))) => add_number_id(&mut label, number.text())?,
        _ => {}
    }
    if let Ok(Some(Json::Object(properties))) = find(members, "properties") {
        if let Some((name, text)) = name_among(properties.as_slice()) {
            add_named(&mut label, name, text)?;
        }
    }
    Ok(label)
}

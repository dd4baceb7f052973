// The first properties in each object of a topology, in the bytes of a file that was taken.
use crate::member_names::{MemberName, named_member};
use json_cursor::{after_byte, string_at};
use json_reading::{TOPOLOGY_DEPTH, skip, value_at};
use json_value::{Json, OwnText};
use std::alloc::{AllocError, Global};
use topojson_decoder::{after_mark, next_member, quoted, rest_after};

/// So many members of properties are shown at most.
const MOST_MEMBERS: usize = 10;

/// So many characters of a text are shown at most.
const MOST_LETTERS: usize = 40;

/// The front of a text as a JSON text, with dots after it where it isn't all.
pub(crate) fn front_of(alloc: Global, text: &str) -> Result<String, AllocError> {
    let mut front = String::new(alloc);
    for (number, letter) in text.chars().enumerate() {
        if number == MOST_LETTERS {
            let shown = quoted(alloc, front.as_str())?;
            return format!(in alloc; "{shown}..");
        }
        front.push(letter)?;
    }
    quoted(alloc, front.as_str())
}

/// A value of a property, as far as it is shown.
fn value_text(alloc: Global, value: &Json) -> Result<String, AllocError> {
    match value {
        Json::Null => String::from_str(alloc, "null"),
        Json::Bool(true) => String::from_str(alloc, "true"),
        Json::Bool(false) => String::from_str(alloc, "false"),
        Json::Number(number) => String::from_str(alloc, number.text()),
        Json::Text(text) => front_of(alloc, text.as_str()),
        Json::Array(_) => String::from_str(alloc, "[..]"),
        Json::Object(_) => String::from_str(alloc, "{..}"),
    }
}

/// The first of these members of properties, each with its value.
fn members_text(alloc: Global, members: &[(OwnText, Json)]) -> Result<String, AllocError> {
    let mut text = String::new(alloc);
    for (number, member) in members.iter().enumerate() {
        if number == MOST_MEMBERS {
            let more = members.len() - number;
            write!(text, " and {more} more")?;
            return Ok(text);
        }
        let before = if number == 0 { "" } else { ", " };
        let name = front_of(alloc, member.0.as_str())?;
        let value = value_text(alloc, &member.1)?;
        write!(text, "{before}{name} {value}")?;
    }
    Ok(text)
}

/// The value of the first member of this name of the object at the front, with what follows it, if there is one; nothing for want of memory, too.
fn member_of<'a>(alloc: Global, wanted: MemberName, bytes: &'a [u8]) -> Option<&'a [u8]> {
    let mut rest = skip(after_byte(b'{', bytes)?);
    for _ in 0..bytes.len() {
        let (name, value) = named_member(alloc, rest)?;
        if name == wanted {
            return Some(value);
        }
        rest = next_member(rest_after(alloc, value)?)?;
    }
    None
}

/// Whether the object at the front is a collection of features.
fn is_collection(alloc: Global, object: &[u8]) -> bool {
    match member_of(alloc, MemberName::Type, object) {
        None => false,
        Some(value) => match string_at(alloc, value) {
            Ok(Some((text, _))) => text.is("GeometryCollection"),
            _ => false,
        },
    }
}

/// What is said of the properties of the feature of this number, which is the object at the front, if it has any.
fn sample_of(alloc: Global, number: usize, feature: &[u8]) -> Result<Option<String>, AllocError> {
    let Some(properties) = member_of(alloc, MemberName::Properties, feature) else {
        return Ok(None);
    };
    match after_byte(b'{', properties) {
        Some(inside) if after_byte(b'}', skip(inside)).is_none() => {}
        _ => return Ok(None),
    }
    let Ok((value, _)) = value_at(alloc, TOPOLOGY_DEPTH, properties) else {
        return Err(AllocError);
    };
    let Some(members) = value.as_object() else {
        return Ok(None);
    };
    let text = members_text(alloc, members)?;
    let said = format!(in alloc; "; its feature {number} has the properties {text}")?;
    Ok(Some(said))
}

/// What is said of the first of the features in the array at the front that has properties.
fn sample_among(alloc: Global, features: &[u8]) -> Result<String, AllocError> {
    let Some(inside) = after_byte(b'[', features) else {
        return Ok(String::new(alloc));
    };
    let mut rest = skip(inside);
    for number in 0..features.len() {
        if let Some(said) = sample_of(alloc, number, rest)? {
            return Ok(said);
        }
        match rest_after(alloc, rest).and_then(next_member) {
            Some(more) => rest = more,
            None => break,
        }
    }
    Ok(String::new(alloc))
}

/// What is said of the first properties in the object at the front.
fn sample_in(alloc: Global, object: &[u8]) -> Result<String, AllocError> {
    if !is_collection(alloc, object) {
        return Ok(sample_of(alloc, 0, object)?.unwrap_or(String::new(alloc)));
    }
    match member_of(alloc, MemberName::Geometries, object) {
        Some(features) => sample_among(alloc, features),
        None => Ok(String::new(alloc)),
    }
}

/// What is said of the first properties in each object of the topology that the bytes spell, in the order of the objects.
pub(crate) fn samples_in(alloc: Global, bytes: &[u8]) -> Result<Vec<String>, AllocError> {
    let mut samples = Vec::new(alloc);
    let topology = skip(after_mark(bytes));
    let objects = member_of(alloc, MemberName::Objects, topology).and_then(|at| after_byte(
        b'{', at,
    ));
    let Some(inside) = objects else {
        return Ok(samples);
    };
    let mut rest = skip(inside);
    for _ in 0..inside.len() {
        let Some((_, object)) = named_member(alloc, rest) else {
            break;
        };
        samples.push(sample_in(alloc, object)?)?;
        match rest_after(alloc, object).and_then(next_member) {
            Some(more) => rest = more,
            None => break,
        }
    }
    Ok(samples)
}

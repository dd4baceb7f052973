// Texts as trees.
ghost use Rattle.std.specs.Prelude.{◌≤◌};

use json_reading::{Fault, JsonFault, Why, parse, skip, value_at};
use json_value::{Json, OwnText, find, need_text};
use std::alloc::{AllocError, Global};
use topojson_decoder::after_mark;

/// The value that the bytes spell, or nothing where they spell none.
pub(crate) fn tree(alloc: Global, bytes: &[u8], deepest: u32) -> Result<Option<Json>, AllocError>
    requires { deepest ≤ 255 }
{
    match parse(alloc, bytes, deepest) {
        Ok(value) => Ok(Some(value)),
        Err(JsonFault::Memory) => Err(AllocError),
        Err(_) => Ok(None),
    }
}

/// Where reading stops, and why, where the bytes are UTF-8 and spell no value.
pub(crate) fn stop(
    alloc: Global,
    bytes: &[u8],
    deepest: u32,
) -> Result<Option<(usize, Why)>, AllocError>
    requires { deepest ≤ 255 }
{
    match parse(alloc, bytes, deepest) {
        Ok(_) => Ok(None),
        Err(JsonFault::Memory) => Err(AllocError),
        Err(JsonFault::NotUtf8 { .. }) => Ok(None),
        Err(JsonFault::Malformed { at, why }) => Ok(Some((at, why))),
    }
}

/// Whether the text is JSON values one after another: a record separator (RFC 7464, section 2.2) begins it, or stands after its first
/// value, or an object does.
pub(crate) fn is_sequence(alloc: Global, bytes: &[u8], deepest: u32) -> Result<bool, AllocError> {
    let text = skip(after_mark(bytes));
    if let [0x1e, ..] = text {
        return Ok(true);
    }
    match value_at(alloc, deepest, text) {
        Ok((_, rest)) => Ok(matches!(skip(rest), [0x1e | b'{', ..])),
        Err(Fault::Memory) => Err(AllocError),
        Err(Fault::Malformed { .. }) => Ok(false),
    }
}

/// The objects of a topology by their names, or none where they aren't there.
pub(crate) fn objects_of(topology: &Json) -> &[(OwnText, Json)] {
    let Some(members) = topology.as_object() else {
        return &[];
    };
    match find(members, "objects") {
        Ok(Some(Json::Object(objects))) => objects.as_slice(),
        _ => &[],
    }
}

/// The geometries of a collection with these members, or none where they aren't there.
pub(crate) fn parts_of(members: &[(OwnText, Json)]) -> &[Json] {
    match find(members, "geometries") {
        Ok(Some(Json::Array(values))) => values.as_slice(),
        _ => &[],
    }
}

/// The text of the member `type`.
pub(crate) fn type_of(value: &Json) -> Option<&str> {
    let members = value.as_object()?;
    match need_text(members, "type") {
        Ok(name) => Some(name),
        Err(_) => None,
    }
}

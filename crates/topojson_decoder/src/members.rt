// The members of objects (RFC 8259, section 4) in bytes that were read before.
use crate::leaping::leap;
use json_cursor::{Kind, Name, after_byte, kind_at, name_at};
use json_reading::{TOPOLOGY_DEPTH, after_value, plain_at, rest_after_first, skip};
use std::alloc::Global;

/// What stands after the byte order mark, if there is one.
pub fn after_mark(bytes: &[u8]) -> &[u8] {
    match bytes {
        [0xef, 0xbb, 0xbf, rest @ ..] => rest,
        _ => bytes,
    }
}

/// The name of the member at the front, and where its value begins; nothing of what is none, or for want of memory.
pub fn member_at(alloc: Global, bytes: &[u8]) -> Option<(Name<'_>, &[u8])> {
    name_at(alloc, bytes).ok()
}

/// The member or the element after the comma that stands here, if one does.
pub fn next_member(bytes: &[u8]) -> Option<&[u8]> {
    let more = after_byte(b',', skip(bytes))?;
    Some(skip(more))
}

/// The bytes before the first that is this one, or all of them.
fn before_first(byte: u8, bytes: &[u8]) -> &[u8] {
    let following = match rest_after_first(byte, bytes) {
        Some(rest) => rest.len().saturating_add(1),
        None => 0,
    };
    bytes
        .get(..bytes.len().saturating_sub(following))
        .unwrap_or(bytes)
}

/// The bytes up to the last bracket of an array that they end with, but for white space and a comma, if they do.
fn up_to_bracket(bytes: &[u8]) -> Option<&[u8]> {
    let mut front = bytes;
    while let [before @ .., last] = front {
        match last {
            b']' => return Some(front),
            b' ' | b'\t' | b'\n' | b'\r' | b',' => front = before,
            _ => return None,
        }
    }
    None
}

/// Whether a name stands at the front as it is.
fn is_plain_name(bytes: &[u8]) -> bool {
    let Some(inside) = after_byte(b'"', bytes) else {
        return false;
    };
    match plain_at(inside) {
        Some((_, name_end)) => after_byte(b':', skip(name_end)).is_some(),
        None => false,
    }
}

/// What follows the array that a member has at the front, where there is neither a text nor an object in it, as in most coordinates. That is
/// looked for from its end: the next quotation mark begins the name of the next member, or there is none before the brace of the object.
fn after_plain_array(bytes: &[u8]) -> Option<&[u8]> {
    let before_quote = before_first(b'"', bytes);
    let before_brace = before_first(b'}', before_quote);
    let array = up_to_bracket(before_brace)?;
    let rest = bytes.get(array.len()..)?;
    if before_brace.len() < before_quote.len() {
        return Some(rest);
    }
    if is_plain_name(next_member(rest)?) {
        Some(rest)
    } else {
        None
    }
}

/// What follows the number or the word at the front: what ends one.
fn after_scalar(bytes: &[u8]) -> &[u8] {
    let mut rest = bytes;
    while let [first, more @ ..] = rest {
        if matches!(first, b',' | b'}' | b']' | b' ' | b'\t' | b'\n' | b'\r') {
            break;
        }
        rest = more;
    }
    rest
}

/// What follows the array at the front.
fn after_array(bytes: &[u8]) -> Option<&[u8]> {
    match after_plain_array(bytes) {
        Some(rest) => Some(rest),
        None => leap(bytes),
    }
}

/// What follows the text at the front; nothing for want of memory.
#[inline(always)]
fn after_text(alloc: Global, bytes: &[u8]) -> Option<&[u8]> {
    match plain_at(after_byte(b'"', bytes)?) {
        Some((_, rest)) => Some(rest),
        None => after_value(alloc, TOPOLOGY_DEPTH, bytes).ok(),
    }
}

/// What follows the value of a member at the front; nothing of what is none, or for want of memory. What was taken as a value is passed over
/// by its marks alone.
#[inline(always)]
pub fn rest_after(alloc: Global, bytes: &[u8]) -> Option<&[u8]> {
    match kind_at(bytes) {
        Kind::Object => leap(bytes),
        Kind::Array => after_array(bytes),
        Kind::Text => after_text(alloc, bytes),
        Kind::Null | Kind::Bool | Kind::Number => Some(after_scalar(bytes)),
    }
}

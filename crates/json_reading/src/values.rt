// Values, arrays and objects (RFC 8259, sections 3 to 5).
ghost use Rattle.std.specs.Prelude.{◌≡◌, length};
ghost use Rattle.json_reading.specs.Gives.{Gives, StopsBefore};
ghost use Rattle.std.specs.Str.{is_utf8};
ghost use Rattle.json_value.specs.Reading as spec;

use crate::bytes::{after_word, next, skip, unlike};
use crate::fault::{Fault, Why, stopped};
use crate::numbers::number_at;
use crate::strings::string_at;
use json_value::{Items, Json, OwnText};
use std::alloc::Global;

// The room that an array is given first. Most arrays of geographic data are positions, of two numbers.
const POSITION: usize = 2;

/// A word after its first letter.
#[tactic(auto, unfolding(json_value::specs::Reading::word_at))]
fn word_at<'a>(word: &[u8], value: Json, bytes: &'a [u8]) -> Result<(Json, &'a [u8]), Fault>
    ensures { Gives (λ x. (x.0, x.1.now)) result (spec.word_at word.now value bytes.now) }
{
    match after_word(word, bytes) {
        Some(rest) => Ok((value, rest)),
        None => Err(unlike(word, bytes)),
    }
}

/// An array or object opens past the depth.
fn too_deep(bytes: &[u8]) -> Fault
    ensures { StopsBefore (length bytes.now) result }
{
    Fault::Malformed {
        left: bytes.len(),
        why: Why::Deep,
    }
}

/// A value at the front of the bytes, and the bytes after it.
#[cycle(reader)]
pub fn value_at<'a>(alloc: Global, deepest: u32, bytes: &'a [u8]) -> Result<(Json, &'a [u8]), Fault>
    ensures { Gives (λ x. (x.0, x.1.now)) result (spec.value_at is_utf8 deepest bytes.now) }
{
    let Some((first, rest)) = next(bytes) else {
        return Err(stopped(bytes));
    };
    match first {
        b'n' => return word_at(b"ull", Json::Null, rest),
        b't' => return word_at(b"rue", Json::Bool(true), rest),
        b'f' => return word_at(b"alse", Json::Bool(false), rest),
        b'"' => {
            let (text, rest) = string_at(alloc, rest)?;
            return Ok((Json::Text(text), rest));
        }
        b'[' => {
            if deepest == 0 {
                return Err(too_deep(bytes));
            }
            let (items, rest) = array_at(alloc, deepest - 1, rest)?;
            return Ok((Json::Array(Items::of(items)), rest));
        }
        b'{' => {
            if deepest == 0 {
                return Err(too_deep(bytes));
            }
            let (members, rest) = object_at(alloc, deepest - 1, rest)?;
            return Ok((Json::Object(Items::of(members)), rest));
        }
        _ => {}
    }
    let (number, rest) = number_at(alloc, bytes)?;
    Ok((Json::Number(number), rest))
}

/// The elements of an array, after the bracket that opens it.
#[tactic(auto, unfolding(json_value::specs::Reading::items_at, json_value::specs::Reading::items_unless, json_value::specs::Reading::closes))]
#[cycle(reader)]
fn array_at<'a>(
    alloc: Global,
    deepest: u32,
    bytes: &'a [u8],
) -> Result<(Vec<Json>, &'a [u8]), Fault>
    ensures { Gives (λ x. (x.0.items, x.1.now)) result (spec.array_at is_utf8 deepest bytes.now) }
{
    if let Some(rest) = after_word(b"]", skip(bytes)) {
        return Ok((Vec::new(alloc), rest));
    }
    elements_at(alloc, deepest, bytes)
}

#[cycle(reader)]
fn elements_at<'a>(
    alloc: Global,
    deepest: u32,
    bytes: &'a [u8],
) -> Result<(Vec<Json>, &'a [u8]), Fault>
    ensures { Gives (λ x. (x.0.items, x.1.now)) result (spec.elements_at is_utf8 deepest (length bytes.now) bytes.now) }
{
    let mut items = Vec::with_capacity(alloc, POSITION)?;
    let mut rest = bytes;
    for _ in 0..bytes.len() {
        let (item, after) = value_at(alloc, deepest, skip(rest))?;
        items.push(item)?;
        let after = skip(after);
        let Some((mark, more)) = next(after) else {
            return Err(stopped(after));
        };
        if mark == b']' {
            items.shrink_to_fit();
            return Ok((items, more));
        }
        if mark != b',' {
            return Err(stopped(after));
        }
        rest = more;
    }
    Err(stopped(rest))
}

/// The members of an object, after the brace that opens it.
#[tactic(auto, unfolding(json_value::specs::Reading::items_at, json_value::specs::Reading::items_unless, json_value::specs::Reading::closes))]
#[cycle(reader)]
fn object_at<'a>(
    alloc: Global,
    deepest: u32,
    bytes: &'a [u8],
) -> Result<(Vec<(OwnText, Json)>, &'a [u8]), Fault>
    ensures { Gives (λ x. (x.0.items, x.1.now)) result (spec.object_at is_utf8 deepest bytes.now) }
{
    if let Some(rest) = after_word(b"}", skip(bytes)) {
        return Ok((Vec::new(alloc), rest));
    }
    members_at(alloc, deepest, bytes)
}

#[cycle(reader)]
fn members_at<'a>(
    alloc: Global,
    deepest: u32,
    bytes: &'a [u8],
) -> Result<(Vec<(OwnText, Json)>, &'a [u8]), Fault>
    ensures { Gives (λ x. (x.0.items, x.1.now)) result (spec.members_at is_utf8 deepest (length bytes.now) bytes.now) }
{
    let mut members = Vec::new(alloc);
    let mut rest = bytes;
    for _ in 0..bytes.len() {
        let (name, value, after) = member_at(alloc, deepest, skip(rest))?;
        members.push((name, value))?;
        let after = skip(after);
        let Some((mark, more)) = next(after) else {
            return Err(stopped(after));
        };
        if mark == b'}' {
            return Ok((members, more));
        }
        if mark != b',' {
            return Err(stopped(after));
        }
        rest = more;
    }
    Err(stopped(rest))
}

/// The member at the front of the bytes (a name, a colon and a value), and the bytes after it.
#[tactic(auto, unfolding(json_value::specs::Reading::member_at))]
#[cycle(reader)]
pub fn member_at<'a>(
    alloc: Global,
    deepest: u32,
    bytes: &'a [u8],
) -> Result<(OwnText, Json, &'a [u8]), Fault>
    ensures { Gives (λ x. ((x.0, x.1), x.2.now)) result (spec.member_at is_utf8 (spec.value_at is_utf8 deepest) bytes.now) }
{
    let (name, rest) = name_at(alloc, bytes)?;
    let rest = skip(rest);
    let Some(rest) = after_word(b":", rest) else {
        return Err(stopped(rest));
    };
    let (value, rest) = value_at(alloc, deepest, skip(rest))?;
    Ok((name, value, rest))
}

#[tactic(auto, unfolding(json_value::specs::Reading::name_at))]
fn name_at<'a>(alloc: Global, bytes: &'a [u8]) -> Result<(OwnText, &'a [u8]), Fault>
    ensures { Gives (λ x. (x.0, x.1.now)) result (spec.name_at is_utf8 bytes.now) }
{
    let Some(rest) = after_word(b"\"", bytes) else {
        return Err(stopped(bytes));
    };
    string_at(alloc, rest)
}

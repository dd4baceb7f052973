// Values, arrays and objects (RFC 8259, sections 3 to 7): what follows them.
ghost use Rattle.std.specs.Prelude.{◌≡◌, length};
ghost use Rattle.std.specs.Str.{is_utf8};
ghost use Rattle.json_reading.specs.Gives.{StopsBefore};
ghost use Rattle.json_value.specs.Reading as spec;
ghost use Rattle.json_reading.specs.Passes.{Passes};

use crate::bytes::{after_word, next, skip};
use crate::checked_bytes::{expected, expected_word, stopped};
use crate::checked_strings::after_string;
use crate::fault::{Fault, Why};
use crate::numbers::after_number;
use std::alloc::Global;

/// An array or object opens past the depth.
fn too_deep(bytes: &[u8]) -> Fault
    ensures { StopsBefore (length bytes.now) result }
{
    Fault::Malformed {
        why: Why::Deep,
        left: bytes.len(),
    }
}

/// What follows the value at the front, in which arrays and objects may nest so deep. Where it is neither, nothing is called for it.
#[cycle(passing)]
#[inline(always)]
fn passed_value<'a>(alloc: Global, deepest: u32, bytes: &'a [u8]) -> Result<&'a [u8], Fault>
    ensures { Passes result (spec.value_at is_utf8 deepest bytes.now) }
{
    let Some((first, rest)) = next(bytes) else {
        return Err(stopped(bytes));
    };
    match first {
        b'n' => return expected_word(b"ull", rest),
        b't' => return expected_word(b"rue", rest),
        b'f' => return expected_word(b"alse", rest),
        b'"' => return after_string(alloc, rest),
        b'[' => {
            if deepest == 0 {
                return Err(too_deep(bytes));
            }
            return after_array(alloc, deepest - 1, rest);
        }
        b'{' => {
            if deepest == 0 {
                return Err(too_deep(bytes));
            }
            return after_object(alloc, deepest - 1, rest);
        }
        _ => {}
    }
    after_number(bytes)
}

/// What follows the value at the front, in which arrays and objects may nest so deep. No value is made.
pub fn after_value<'a>(alloc: Global, deepest: u32, bytes: &'a [u8]) -> Result<&'a [u8], Fault>
    ensures { Passes result (spec.value_at is_utf8 deepest bytes.now) }
{
    passed_value(alloc, deepest, bytes)
}

/// What follows the array, after the bracket that opens it.
#[cycle(passing)]
#[inline(never)]
fn after_array<'a>(alloc: Global, deepest: u32, bytes: &'a [u8]) -> Result<&'a [u8], Fault>
    ensures { Passes result (spec.array_at is_utf8 deepest bytes.now) }
{
    if let Some(rest) = after_word(b"]", skip(bytes)) {
        return Ok(rest);
    }
    after_elements(alloc, deepest, bytes)
}

/// What follows the array, from one of its elements on.
#[cycle(passing)]
fn after_elements<'a>(alloc: Global, deepest: u32, bytes: &'a [u8]) -> Result<&'a [u8], Fault>
    ensures { Passes result (spec.elements_at is_utf8 deepest (length bytes.now) bytes.now) }
{
    let mut rest = bytes;
    for _ in 0..bytes.len() {
        let after = passed_value(alloc, deepest, skip(rest))?;
        let after = skip(after);
        let Some((mark, more)) = next(after) else {
            return Err(stopped(after));
        };
        if mark == b']' {
            return Ok(more);
        }
        if mark != b',' {
            return Err(stopped(after));
        }
        rest = more;
    }
    Err(stopped(rest))
}

/// What follows the object, after the brace that opens it.
#[cycle(passing)]
#[inline(never)]
fn after_object<'a>(alloc: Global, deepest: u32, bytes: &'a [u8]) -> Result<&'a [u8], Fault>
    ensures { Passes result (spec.object_at is_utf8 deepest bytes.now) }
{
    if let Some(rest) = after_word(b"}", skip(bytes)) {
        return Ok(rest);
    }
    after_members(alloc, deepest, bytes)
}

/// What follows the object, from one of its members on.
#[cycle(passing)]
fn after_members<'a>(alloc: Global, deepest: u32, bytes: &'a [u8]) -> Result<&'a [u8], Fault>
    ensures { Passes result (spec.members_at is_utf8 deepest (length bytes.now) bytes.now) }
{
    let mut rest = bytes;
    for _ in 0..bytes.len() {
        let after = after_member(alloc, deepest, skip(rest))?;
        let after = skip(after);
        let Some((mark, more)) = next(after) else {
            return Err(stopped(after));
        };
        if mark == b'}' {
            return Ok(more);
        }
        if mark != b',' {
            return Err(stopped(after));
        }
        rest = more;
    }
    Err(stopped(rest))
}

/// What follows the member: a name, a colon and a value.
#[cycle(passing)]
fn after_member<'a>(alloc: Global, deepest: u32, bytes: &'a [u8]) -> Result<&'a [u8], Fault>
    ensures { Passes result (spec.member_at is_utf8 (spec.value_at is_utf8 deepest) bytes.now) }
{
    let rest = after_name(alloc, bytes)?;
    let rest = expected(b':', skip(rest))?;
    passed_value(alloc, deepest, skip(rest))
}

/// What follows the string, with its quotation marks.
fn after_name<'a>(alloc: Global, bytes: &'a [u8]) -> Result<&'a [u8], Fault>
    ensures { Passes result (spec.name_at is_utf8 bytes.now) }
{
    let rest = expected(b'"', bytes)?;
    after_string(alloc, rest)
}

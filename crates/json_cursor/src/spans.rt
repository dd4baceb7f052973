// Values that stand in the text as they are written (RFC 8259, sections 3 to 7): with no white space, no escape and no other characters than
// ASCII in them.
ghost use Rattle.std.specs.Prelude.{◌≡◌, ◌++◌, IfSome, length};
ghost use Rattle.json_value.specs.Text.{json_text, quoted};
ghost use Rattle.json_value.specs.Reading as reading;
ghost use Rattle.json_cursor.specs.Copying.{any, elements_text, members_text, whole_member};
ghost use Rattle.json_cursor.specs.Spans.{Spans, SpansFirst};

use crate::marks::after_byte;
use json_reading::{after_number, after_word, next, plain_at, skip};

/// What follows the word, where it stands at the front.
#[inline(always)]
#[tactic(auto, using(json_reading::proofs::Words::after_word_takes))]
fn rest_after_word<'a>(word: &[u8], bytes: &'a [u8]) -> Option<&'a [u8]>
    ensures { IfSome result (λ rest. bytes.now ≡ word.now ++ rest.now) }
{
    let rest = after_word(word, bytes)?;
    Some(rest)
}

/// What follows the number, which always stands as it is written.
fn rest_after_number(bytes: &[u8]) -> Option<&[u8]>
    ensures { IfSome result (λ rest. SpansFirst reading.number_at (λ t. t) bytes.now rest.now) }
{
    if skip(bytes).len() != bytes.len() {
        return None;
    }
    match after_number(bytes) {
        Ok(rest) => Some(rest),
        Err(_) => None,
    }
}

/// What follows the string, where it stands as it is written.
#[inline(always)]
fn rest_after_string(bytes: &[u8]) -> Option<&[u8]>
    ensures { IfSome result (λ rest. SpansFirst (reading.name_at any) quoted bytes.now rest.now) }
{
    let (quote, inside) = next(bytes)?;
    if quote != b'"' {
        return None;
    }
    let (_, rest) = plain_at(inside)?;
    Some(rest)
}

/// What follows the value at the front, in which arrays and objects may nest so deep, where it stands as it is written.
#[cycle(spanning)]
#[inline(always)]
pub(crate) fn rest_after_value(deepest: u32, bytes: &[u8]) -> Option<&[u8]>
    ensures { IfSome result (λ rest. SpansFirst (reading.value_at any deepest) json_text bytes.now rest.now) }
{
    let (first, inside) = next(bytes)?;
    if first == b'"' {
        let rest = rest_after_string(bytes)?;
        return Some(rest);
    }
    if first == b'{' {
        if deepest == 0 {
            return None;
        }
        let rest = rest_after_object(deepest - 1, inside)?;
        return Some(rest);
    }
    if first == b'[' {
        if deepest == 0 {
            return None;
        }
        let rest = rest_after_array(deepest - 1, inside)?;
        return Some(rest);
    }
    if first == b'n' {
        let rest = rest_after_word(b"null", bytes)?;
        return Some(rest);
    }
    if first == b't' {
        let rest = rest_after_word(b"true", bytes)?;
        return Some(rest);
    }
    if first == b'f' {
        let rest = rest_after_word(b"false", bytes)?;
        return Some(rest);
    }
    let rest = rest_after_number(bytes)?;
    Some(rest)
}

/// What follows the elements of an array after its bracket, where they stand as they are written.
#[cycle(spanning)]
#[inline(never)]
fn rest_after_array(deepest: u32, inside: &[u8]) -> Option<&[u8]>
    ensures { IfSome result (λ rest. Spans (reading.array_at any deepest) elements_text inside.now rest.now) }
{
    if let Some(rest) = after_byte(b']', inside) {
        return Some(rest);
    }
    let rest = rest_after_elements(deepest, inside)?;
    Some(rest)
}

/// What follows one element or more of an array, where they stand as they are written.
#[cycle(spanning)]
fn rest_after_elements(deepest: u32, inside: &[u8]) -> Option<&[u8]>
    ensures { IfSome result (λ rest. SpansFirst (reading.elements_at any deepest (length inside.now)) elements_text inside.now rest.now) }
{
    let mut rest = inside;
    for _ in 0..inside.len() {
        let following = rest_after_value(deepest, rest)?;
        let (mark, more) = next(following)?;
        if mark == b']' {
            return Some(more);
        }
        if mark != b',' {
            return None;
        }
        rest = more;
    }
    None
}

/// What follows the members of an object after its brace, where they stand as they are written.
#[cycle(spanning)]
#[inline(never)]
fn rest_after_object(deepest: u32, inside: &[u8]) -> Option<&[u8]>
    ensures { IfSome result (λ rest. Spans (reading.object_at any deepest) members_text inside.now rest.now) }
{
    if let Some(rest) = after_byte(b'}', inside) {
        return Some(rest);
    }
    let rest = rest_after_members(deepest, inside)?;
    Some(rest)
}

/// What follows one member or more of an object, where they stand as they are written.
#[cycle(spanning)]
fn rest_after_members(deepest: u32, inside: &[u8]) -> Option<&[u8]>
    ensures { IfSome result (λ rest. SpansFirst (reading.members_at any deepest (length inside.now)) members_text inside.now rest.now) }
{
    let mut rest = inside;
    for _ in 0..inside.len() {
        let following = rest_after_member(deepest, rest)?;
        let (mark, more) = next(following)?;
        if mark == b'}' {
            return Some(more);
        }
        if mark != b',' {
            return None;
        }
        rest = more;
    }
    None
}

/// What follows a member, where it stands as it is written.
#[cycle(spanning)]
fn rest_after_member(deepest: u32, bytes: &[u8]) -> Option<&[u8]>
    ensures { IfSome result (λ rest. SpansFirst (reading.member_at any (reading.value_at any deepest)) whole_member bytes.now rest.now) }
{
    let name_end = rest_after_string(bytes)?;
    let following = rest_after_word(b":", name_end)?;
    let rest = rest_after_value(deepest, following)?;
    Some(rest)
}

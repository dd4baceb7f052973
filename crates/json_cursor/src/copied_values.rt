// Values (RFC 8259, sections 3 to 6).
ghost use Rattle.std.specs.Prelude.{◌≡◌, ◌++◌, MatchResult, length};
ghost use Rattle.json_value.specs.Text.{json_text};
ghost use Rattle.json_value.specs.Reading as reading;
ghost use Rattle.json_reading.specs.Gives.{Fails, IsMalformed};
ghost use Rattle.json_cursor.specs.Copying.{CopiesOr, any, elements_text, members_text, whole_member};

use crate::copied_strings::copy_string;
use json_reading::{Fault, Why, after_number, after_word, next, skip};
use std::alloc::Global;

/// The fault of bytes that go on as no value does.
pub(crate) fn broken(left: &[u8]) -> Fault
    ensures { IsMalformed result }
{
    Fault::Malformed {
        why: Why::Syntax,
        left: left.len(),
    }
}

/// Copies the word at the front, and gives what follows it.
#[tactic(auto, using(json_reading::proofs::Words::after_word_takes))]
fn copy_word<'a>(word: &[u8], bytes: &'a [u8], text: &mut Vec<u8>) -> Result<&'a [u8], Fault>
    ensures { MatchResult result (λ rest. (bytes.now ≡ word.now ++ rest.now) × (text.new.items ≡ text.old.items ++ word.now)) (λ fault. Fails fault (reading.after_word word.now bytes.now)) }
{
    let Some(rest) = after_word(word, bytes) else {
        return Err(broken(bytes));
    };
    text.extend_from_slice(word)?;
    Ok(rest)
}

/// Copies the number at the front by its own text, and gives what follows it.
#[tactic(auto, using(json_reading::proofs::NumbersRead::shorter, crate::proofs::Copied::number_copied, crate::proofs::Failed::number_fails))]
fn copy_number<'a>(bytes: &'a [u8], text: &mut Vec<u8>) -> Result<&'a [u8], Fault>
    ensures { CopiesOr reading.number_at (λ t. t) bytes.now text.old.items text.new.items result }
{
    let rest = after_number(bytes)?;
    let (number, _) = bytes.split_at(bytes.len() - rest.len());
    text.extend_from_slice(number)?;
    Ok(rest)
}

/// Copies the value at the front, in which arrays and objects may nest so deep, and gives what follows it. White space is left out, and a
/// string is written as `write_text` writes it. Where it isn't copied, the text may have a part of it at its end.
#[cycle(copier)]
pub fn copy_value<'a>(
    alloc: Global,
    deepest: u32,
    bytes: &'a [u8],
    text: &mut Vec<u8>,
) -> Result<&'a [u8], Fault>
    ensures { CopiesOr (reading.value_at any deepest) json_text bytes.now text.old.items text.new.items result }
{
    let Some((first, inside)) = next(bytes) else {
        return Err(broken(bytes));
    };
    match first {
        b'n' => return copy_word(b"null", bytes, text),
        b't' => return copy_word(b"true", bytes, text),
        b'f' => return copy_word(b"false", bytes, text),
        b'"' => return copy_string(alloc, bytes, text),
        b'[' => {
            if deepest == 0 {
                return Err(broken(bytes));
            }
            text.push(b'[')?;
            return copy_array(alloc, deepest - 1, inside, text);
        }
        b'{' => {
            if deepest == 0 {
                return Err(broken(bytes));
            }
            text.push(b'{')?;
            return copy_object(alloc, deepest - 1, inside, text);
        }
        _ => {}
    }
    copy_number(bytes, text)
}

/// Copies the elements of an array after its bracket, and gives what follows it.
#[cycle(copier)]
fn copy_array<'a>(
    alloc: Global,
    deepest: u32,
    inside: &'a [u8],
    text: &mut Vec<u8>,
) -> Result<&'a [u8], Fault>
    ensures { CopiesOr (reading.array_at any deepest) elements_text inside.now text.old.items text.new.items result }
{
    if let Some(rest) = after_word(b"]", skip(inside)) {
        text.push(b']')?;
        return Ok(rest);
    }
    copy_elements(alloc, deepest, inside, text)
}

/// Copies one element or more of an array and the bracket after them, and gives what follows it.
#[cycle(copier)]
fn copy_elements<'a>(
    alloc: Global,
    deepest: u32,
    inside: &'a [u8],
    text: &mut Vec<u8>,
) -> Result<&'a [u8], Fault>
    ensures { CopiesOr (reading.elements_at any deepest (length inside.now)) elements_text inside.now text.old.items text.new.items result }
{
    let mut rest = inside;
    for _ in 0..inside.len() {
        let following = copy_value(alloc, deepest, skip(rest), text)?;
        let after = skip(following);
        let Some((mark, more)) = next(after) else {
            return Err(broken(after));
        };
        text.push(mark)?;
        if mark == b']' {
            return Ok(more);
        }
        if mark != b',' {
            return Err(broken(after));
        }
        rest = more;
    }
    Err(broken(rest))
}

/// Copies the members of an object after its brace, and gives what follows it.
#[cycle(copier)]
fn copy_object<'a>(
    alloc: Global,
    deepest: u32,
    inside: &'a [u8],
    text: &mut Vec<u8>,
) -> Result<&'a [u8], Fault>
    ensures { CopiesOr (reading.object_at any deepest) members_text inside.now text.old.items text.new.items result }
{
    if let Some(rest) = after_word(b"}", skip(inside)) {
        text.push(b'}')?;
        return Ok(rest);
    }
    copy_members(alloc, deepest, inside, text)
}

/// Copies one member or more of an object and the brace after them, and gives what follows it.
#[cycle(copier)]
fn copy_members<'a>(
    alloc: Global,
    deepest: u32,
    inside: &'a [u8],
    text: &mut Vec<u8>,
) -> Result<&'a [u8], Fault>
    ensures { CopiesOr (reading.members_at any deepest (length inside.now)) members_text inside.now text.old.items text.new.items result }
{
    let mut rest = inside;
    for _ in 0..inside.len() {
        let following = copy_member(alloc, deepest, skip(rest), text)?;
        let after = skip(following);
        let Some((mark, more)) = next(after) else {
            return Err(broken(after));
        };
        text.push(mark)?;
        if mark == b'}' {
            return Ok(more);
        }
        if mark != b',' {
            return Err(broken(after));
        }
        rest = more;
    }
    Err(broken(rest))
}

/// Copies the member at the front, and gives what follows it.
#[cycle(copier)]
fn copy_member<'a>(
    alloc: Global,
    deepest: u32,
    bytes: &'a [u8],
    text: &mut Vec<u8>,
) -> Result<&'a [u8], Fault>
    ensures { CopiesOr (reading.member_at any (reading.value_at any deepest)) whole_member bytes.now text.old.items text.new.items result }
{
    let name_end = copy_string(alloc, bytes, text)?;
    let colon = skip(name_end);
    let Some(following) = after_word(b":", colon) else {
        return Err(broken(colon));
    };
    text.push(b':')?;
    copy_value(alloc, deepest, skip(following), text)
}

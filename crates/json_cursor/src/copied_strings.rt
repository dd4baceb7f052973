// Strings (RFC 8259, section 7).
ghost use Rattle.std.specs.Prelude.{◌≡◌, ◌++◌, MatchResult};
ghost use Rattle.std.specs.List.{prefix_len};
ghost use Rattle.json_value.specs.Text.{quoted};
ghost use Rattle.json_value.specs.Reading.{name_at, string_at as string_prefix};
ghost use Rattle.json_reading.specs.declared.fault.Fault.TheVariants.{Memory};
ghost use Rattle.json_cursor.specs.Copying.{CopiesOr, any, is_simple};

use crate::copied_values::broken;
use crate::marks::after_byte;
use byte_ends::{MemoryDrain, Sink};
use json_reading::{Fault, next, plain_run, string_at};
use json_writer::write_text;
use simdutf8::compat;
use std::alloc::Global;

/// An ASCII byte that stands for itself.
fn is_simple(byte: u8) -> bool
    ensures { result ≡ is_simple byte }
{
    byte <= 127 && (byte >= 32 && (byte != b'"' && byte != b'\\'))
}

/// How many ASCII bytes in front stand for themselves.
fn simple_len(bytes: &[u8]) -> usize
    ensures { result ≡ prefix_len is_simple bytes.now }
{
    for (i, byte) in bytes.iter().enumerate() {
        if !is_simple(*byte) {
            return i;
        }
    }
    bytes.len()
}

/// Puts the string that is written for the characters after the text.
fn push_quoted(alloc: Global, characters: &str, text: &mut Vec<u8>) -> Result<(), Fault>
    ensures { MatchResult result (λ _. text.new.items ≡ text.old.items ++ quoted characters.now) (λ fault. fault ≡ Memory) }
{
    let mut sink = Sink::new(MemoryDrain::new(alloc));
    if write_text(characters, &mut sink).is_err() {
        return Err(Fault::Memory);
    }
    let drain = sink.into_inner();
    text.extend_from_slice(drain.as_slice())?;
    Ok(())
}

/// Copies a string with escapes, after its first quotation mark, by its characters.
fn copy_escaped<'a>(alloc: Global, inside: &'a [u8], text: &mut Vec<u8>) -> Result<&'a [u8], Fault>
    ensures { CopiesOr (string_prefix any) quoted inside.now text.old.items text.new.items result }
{
    let (characters, rest) = string_at(alloc, inside)?;
    push_quoted(alloc, characters.as_str(), text)?;
    Ok(rest)
}

/// Copies a string after its first quotation mark: at once, where no escape is in it.
#[tactic(auto, using(crate::proofs::Openings::first_byte, crate::proofs::Quoted::characters_copied))]
fn copy_characters<'a>(
    alloc: Global,
    inside: &'a [u8],
    text: &mut Vec<u8>,
) -> Result<&'a [u8], Fault>
    ensures { CopiesOr (string_prefix any) quoted inside.now text.old.items text.new.items result }
{
    let (run, following) = plain_run(inside);
    let Some(rest) = after_byte(b'"', following) else {
        return copy_escaped(alloc, inside, text);
    };
    if compat::from_utf8(run).is_err() {
        return copy_escaped(alloc, inside, text);
    }
    text.push(b'"')?;
    text.extend_from_slice(run)?;
    text.push(b'"')?;
    Ok(rest)
}

/// Copies the string at the front, with its quotation marks, and gives what follows it.
pub fn copy_string<'a>(
    alloc: Global,
    bytes: &'a [u8],
    text: &mut Vec<u8>,
) -> Result<&'a [u8], Fault>
    ensures { CopiesOr (name_at any) quoted bytes.now text.old.items text.new.items result }
{
    let Some((quote, inside)) = next(bytes) else {
        return Err(broken(bytes));
    };
    if quote != b'"' {
        return Err(broken(bytes));
    }
    let length = simple_len(inside);
    let (_, following) = inside.split_at(length);
    let Some(rest) = after_byte(b'"', following) else {
        return copy_characters(alloc, inside, text);
    };
    let (string, _) = bytes.split_at(length + 2);
    text.extend_from_slice(string)?;
    Ok(rest)
}

// Strings (RFC 8259, section 7).
ghost use Rattle.std.specs.Prelude.{◌≡◌, ◌++◌, ◌<◌, ℕ, length, IfOk, IfSome, IsTrue, MatchResult, OnOk, Some, encode_utf8, false};
ghost use Rattle.json_value.specs.Grammar.{hex_value, is_high, is_low, unescape, paired};
ghost use Rattle.json_reading.specs.Gives.{Fails, Gives, IsMalformed, StopsBefore};
ghost use Rattle.std.specs.Str.{is_utf8};
ghost use Rattle.json_value.specs.Reading as spec;

use crate::bytes::{after_word, next};
use crate::fault::{Fault, Why, stopped};
use json_value::{OwnText, plain_len};
use std::alloc::{AllocError, Global};

/// What a letter after a reverse solidus stands for, but for `u`.
fn unescape(letter: u8) -> Option<char>
    ensures { result ≡ unescape letter }
{
    match letter {
        b'"' => Some('"'),
        b'\\' => Some('\\'),
        b'/' => Some('/'),
        b'b' => Some('\u{8}'),
        b'f' => Some('\u{c}'),
        b'n' => Some('\n'),
        b'r' => Some('\r'),
        b't' => Some('\t'),
        _ => None,
    }
}

/// The number that a hexadecimal digit writes.
fn hex_value(digit: u8) -> Option<u32>
    ensures value { result ≡ hex_value digit }
    ensures bound { IfSome result (λ n. n < 16) }
{
    match digit {
        b'0'..=b'9' => Some(u32::from(digit - b'0')),
        b'A'..=b'F' => Some(u32::from(digit - b'A') + 10),
        b'a'..=b'f' => Some(u32::from(digit - b'a') + 10),
        _ => None,
    }
}

#[tactic(auto, unfolding(json_value::specs::Reading::hex_at))]
fn hex_at(bytes: &[u8]) -> Result<(u32, &[u8]), Fault>
    ensures value { Gives (λ x. (x.0, x.1.now)) result (spec.hex_at bytes.now) }
    ensures bound { IfOk result (λ x. x.0 < 16) }
{
    let Some((digit, rest)) = next(bytes) else {
        return Err(stopped(bytes));
    };
    match hex_value(digit) {
        Some(n) => Ok((n, rest)),
        None => Err(stopped(bytes)),
    }
}

/// The number of four hexadecimal digits.
#[tactic(auto, unfolding(json_value::specs::Reading::unit_at))]
fn unit_at(bytes: &[u8]) -> Result<(u32, &[u8]), Fault>
    ensures value { Gives (λ x. (x.0, x.1.now)) result (spec.unit_at bytes.now) }
    ensures bound { IfOk result (λ x. x.0 < 65536) }
{
    let (w, rest) = hex_at(bytes)?;
    let (x, rest) = hex_at(rest)?;
    let (y, rest) = hex_at(rest)?;
    let (z, rest) = hex_at(rest)?;
    Ok((((w * 16 + x) * 16 + y) * 16 + z, rest))
}

fn is_high(unit: u32) -> bool
    ensures { result ≡ is_high unit }
{
    matches!(unit, 0xD800..=0xDBFF)
}

fn is_low(unit: u32) -> bool
    ensures { result ≡ is_low unit }
{
    matches!(unit, 0xDC00..=0xDFFF)
}

/// The character of a surrogate pair.
fn paired(high: u32, low: u32) -> char
    requires high { IsTrue (is_high high) }
    requires low { IsTrue (is_low low) }
    ensures { result ≡ paired high low }
{
    char::from_u32(0x10000 + ((high - 0xD800) * 0x400 + (low - 0xDC00))).unwrap()
}

/// A lone half of a surrogate pair, found before the rest.
fn lone(rest: &[u8]) -> Fault
    ensures { StopsBefore (length rest.now) result }
{
    Fault::Malformed {
        left: rest.len(),
        why: Why::Surrogate,
    }
}

/// No low half stands after a high one.
fn no_low(rest: &[u8]) -> Fault
    ensures { IsMalformed result }
{
    match rest {
        [] | [b'\\'] => stopped(&[]),
        _ => lone(rest),
    }
}

/// The character of a surrogate pair, after its first half.
#[tactic(auto, unfolding(json_value::specs::Reading::low_at))]
fn low_at(high: u32, bytes: &[u8]) -> Result<(char, &[u8]), Fault>
    requires { IsTrue (is_high high) }
    ensures { Gives (λ x. (x.0, x.1.now)) result (spec.low_at high bytes.now) }
{
    let Some(digits) = after_word(b"\\u", bytes) else {
        return Err(no_low(bytes));
    };
    let (low, rest) = unit_at(digits)?;
    if !is_low(low) {
        return Err(lone(digits));
    }
    Ok((paired(high, low), rest))
}

/// The character of one unit that is no half of a surrogate pair.
fn single(unit: u32) -> char
    requires range { unit < 65536 }
    requires high { is_high unit ≡ false }
    requires low { is_low unit ≡ false }
    ensures { result ≡ unit }
{
    char::from_u32(unit).unwrap()
}

/// The character of an escape, after `\u`.
#[tactic(auto, unfolding(json_value::specs::Reading::unicode_at))]
fn unicode_at(bytes: &[u8]) -> Result<(char, &[u8]), Fault>
    ensures { Gives (λ x. (x.0, x.1.now)) result (spec.unicode_at bytes.now) }
{
    let (unit, rest) = unit_at(bytes)?;
    if is_high(unit) {
        return low_at(unit, rest);
    }
    if is_low(unit) {
        return Err(lone(bytes));
    }
    Ok((single(unit), rest))
}

/// The character of an escape, after the reverse solidus.
#[tactic(auto, unfolding(json_value::specs::Reading::escape_at))]
fn escape_at(bytes: &[u8]) -> Result<(char, &[u8]), Fault>
    ensures { Gives (λ x. (x.0, x.1.now)) result (spec.escape_at bytes.now) }
{
    let Some((letter, rest)) = next(bytes) else {
        return Err(stopped(bytes));
    };
    if letter == b'u' {
        return unicode_at(rest);
    }
    match unescape(letter) {
        Some(character) => Ok((character, rest)),
        None => Err(stopped(bytes)),
    }
}

/// The bytes at the front that stand for themselves, and what follows them.
#[tactic(auto, using(crate::proofs::StringsRead::plain_back, crate::proofs::StringsRead::plain_front))]
pub fn plain_run(bytes: &[u8]) -> (&[u8], &[u8])
    ensures prefix { result.0.now ≡ spec.plain_prefix bytes.now }
    ensures rest { result.1.now ≡ spec.after_plain bytes.now }
{
    bytes.split_at(plain_len(bytes))
}

/// Appends the character's UTF-8.
fn push_character(text: &mut Vec<u8>, character: char) -> Result<(), AllocError>
    ensures { OnOk result (text.new.items ≡ text.old.items ++ encode_utf8 character) }
{
    let mut buffer = [0u8; 4];
    text.extend_from_slice(character.encode_utf8(&mut buffer).as_bytes())
}

/// Appends the character of an escape, after the reverse solidus, and gives what follows it.
fn push_escape<'a>(text: &mut Vec<u8>, bytes: &'a [u8]) -> Result<&'a [u8], Fault>
    ensures { MatchResult result
        (λ rest. (c : ℕ) × ((spec.escape_at bytes.now ≡ Some (c, rest.now)) × (text.new.items ≡ text.old.items ++ encode_utf8 c)))
        (λ fault. Fails fault (spec.escape_at bytes.now)) }
{
    let (character, rest) = escape_at(bytes)?;
    push_character(text, character)?;
    Ok(rest)
}

fn chars_at<'a>(alloc: Global, bytes: &'a [u8]) -> Result<(Vec<u8>, &'a [u8]), Fault>
    ensures { Gives (λ x. (x.0.items, x.1.now)) result (spec.chars_at (length bytes.now) bytes.now) }
{
    let mut text = Vec::new(alloc);
    let mut rest = bytes;
    for _ in 0..bytes.len() {
        let (run, following) = plain_run(rest);
        text.extend_from_slice(run)?;
        let Some((first, after)) = next(following) else {
            return Err(stopped(following));
        };
        if first == b'"' {
            return Ok((text, after));
        }
        if first != b'\\' {
            return Err(stopped(following));
        }
        rest = push_escape(&mut text, after)?;
    }
    Err(stopped(rest))
}

/// A string after its first quotation mark.
#[tactic(auto, unfolding(json_value::specs::Reading::string_at, json_value::specs::Reading::if_text))]
pub fn string_at<'a>(alloc: Global, bytes: &'a [u8]) -> Result<(OwnText, &'a [u8]), Fault>
    ensures { Gives (λ x. (x.0, x.1.now)) result (spec.string_at is_utf8 bytes.now) }
{
    let (text, rest) = chars_at(alloc, bytes)?;
    match String::from_utf8(text) {
        Ok(text) => Ok((OwnText::of(text), rest)),
        Err(_) => Err(stopped(bytes)),
    }
}

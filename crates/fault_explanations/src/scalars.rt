// Numbers and words that JSON hasn't.
use crate::place::prefix;
use crate::slips::{self, Slip};
use json_reading::{after_number, after_word};

/// The words of JSON.
const WORDS: [&str; 3] = ["true", "false", "null"];

/// Words that programs write in the place of numbers and of those of JSON.
const OTHER_WORDS: [(&str, Slip); 12] = [
    ("NaN", slips::NOT_A_NUMBER),
    ("NAN", slips::NOT_A_NUMBER),
    ("Nan", slips::NOT_A_NUMBER),
    ("nan", slips::NOT_A_NUMBER),
    ("Infinity", slips::INFINITE),
    ("infinity", slips::INFINITE),
    ("Inf", slips::INFINITE),
    ("inf", slips::INFINITE),
    ("INF", slips::INFINITE),
    ("None", slips::PYTHON_WORD),
    ("True", slips::PYTHON_WORD),
    ("False", slips::PYTHON_WORD),
];

/// Whether a scalar ends before this byte.
fn ends_scalar(byte: u8) -> bool {
    matches!(
        byte,
        b' ' | b'\t' | b'\n' | b'\r' | b',' | b':' | b'[' | b']' | b'{' | b'}' | b'"'
    )
}

/// The bytes at the front that are a scalar, whether it is one of JSON or not.
fn scalar_at(bytes: &[u8]) -> &[u8] {
    for (length, byte) in bytes.iter().enumerate() {
        if ends_scalar(*byte) {
            return prefix(bytes, length);
        }
    }
    bytes
}

/// Whether the bytes are a number of JSON, or a word of it.
fn is_of_json(scalar: &[u8]) -> bool {
    for word in WORDS.iter() {
        if scalar == word.as_bytes() {
            return true;
        }
    }
    matches!(after_number(scalar), Ok([]))
}

/// Whether a number or a word of JSON stands at the front.
pub(crate) fn known_scalar(bytes: &[u8]) -> bool {
    is_of_json(scalar_at(bytes))
}

/// What the bytes are that stand after the sign of a scalar, where they are one of the words that programs write.
fn other_word(bytes: &[u8]) -> Option<Slip> {
    for (word, slip) in OTHER_WORDS.iter() {
        if bytes == word.as_bytes() {
            return Some(*slip);
        }
    }
    None
}

/// What a scalar is that is this after its minus sign, and isn't one of JSON. `before` is all that is read.
fn scalar_form(scalar: &[u8], before: &[u8]) -> Option<Slip> {
    match scalar {
        [b'+', b'0'..=b'9' | b'.', ..] => Some(slips::PLUS_SIGN),
        [b'.', b'0'..=b'9', ..] => Some(slips::FRONT_POINT),
        [b'0', b'0'..=b'9', ..] => Some(slips::FRONT_ZERO),
        [b'1', b'.', b'#', b'I', b'N', b'F', ..] => Some(slips::INFINITE),
        [b'1', b'.', b'#', ..] => Some(slips::NOT_A_NUMBER),
        [b'0'..=b'9', ..] if matches!(before, [.., b'.']) => Some(slips::LAST_POINT),
        [] | [b'-' | b'+' | b'0'..=b'9', ..] => Some(slips::OTHER_NUMBER),
        [b'a'..=b'z' | b'A'..=b'Z' | b'_' | b'$' | 0x80..=0xff, ..] => Some(slips::BARE_WORD),
        _ => None,
    }
}

/// What the scalar at the front is, where there is one and it is none of JSON. `before` is all that is read.
pub(crate) fn scalar_slip(bytes: &[u8], before: &[u8]) -> Option<Slip> {
    let scalar = scalar_at(bytes);
    if scalar.is_empty() || is_of_json(scalar) {
        return None;
    }
    let (is_minus, rest) = match scalar {
        [b'-', rest @ ..] => (true, rest),
        [b'+', rest @ ..] => (false, rest),
        _ => (false, scalar),
    };
    match other_word(rest) {
        Some(slip) => Some(slip),
        None if is_minus => scalar_form(rest, before),
        None => scalar_form(scalar, before),
    }
}

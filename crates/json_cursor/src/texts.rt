// Whole texts.
ghost use Rattle.std.specs.Prelude.{◌≡◌, ◌≤◌, None, Err, IsFalse, IsTrue, IsUtf8};
ghost use Rattle.std.specs.Str.{is_utf8};
ghost use Rattle.json_value.specs.Grammar.{mark};
ghost use Rattle.json_value.specs.Reading as reading;
ghost use Rattle.json_reading.specs.Outcome.{SaysUtf8, SpellsNothing};

use json_reading::{JsonFault, after_word, check};
use simdutf8::compat;
use std::alloc::Global;

/// Why a text isn't read.
#[derive(Clone, Copy, Debug, PartialEq, Eq)]
pub enum Refusal<E> {
    /// It spells no value.
    Text(JsonFault),
    /// The value that it spells has this first fault.
    Meaning(E),
    Memory,
}

/// The bytes after a byte order mark, if there is one.
pub fn text_of(bytes: &[u8]) -> &[u8]
    ensures { result.now ≡ reading.without bytes.now (reading.after_word mark bytes.now) }
{
    match after_word(&[0xef, 0xbb, 0xbf], bytes) {
        Some(rest) => rest,
        None => bytes,
    }
}

/// Whether the bytes are UTF-8.
pub fn are_utf8(bytes: &[u8]) -> bool
    ensures yes { IsTrue result → IsUtf8 bytes.now }
    ensures no { IsFalse result → ¬ (IsUtf8 bytes.now) }
{
    compat::from_utf8(bytes).is_ok()
}

/// The fault of a text that spells no value.
pub fn malformed(alloc: Global, bytes: &[u8], deepest: u32) -> JsonFault
    requires { (deepest ≤ 255) × (IsUtf8 bytes.now → reading.text_at is_utf8 deepest bytes.now ≡ None) }
    ensures utf8 { SaysUtf8 bytes.now (Err result) }
    ensures nothing { SpellsNothing deepest bytes.now (Err result) }
{
    match check(alloc, bytes, deepest) {
        Err(fault) => fault,
        Ok(()) => unreachable!(),
    }
}

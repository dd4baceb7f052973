// Whole texts.
ghost use Rattle.std.specs.Prelude.{◌≡◌, ◌≤◌, IfErr, IsUtf8, OnOk};
ghost use Rattle.std.specs.Str.{is_utf8};
ghost use Rattle.json_value.specs.declared.json.Json.{Json as Value};
ghost use Rattle.json_value.specs.Grammar.{Reads};
ghost use Rattle.json_value.specs.Reading as spec;
ghost use Rattle.json_reading.specs.Outcome.{SaysUtf8, SpellsNothing};
ghost use Rattle.json_reading.specs.Passes.{Checks};

use crate::bytes::{after_word, skip};
use crate::checked_bytes::stopped;
use crate::checked_values::after_value;
use crate::fault::{Fault, JsonFault};
use simdutf8::compat;
use std::alloc::Global;

/// A value with white space around it, and nothing else.
fn document(alloc: Global, deepest: u32, bytes: &[u8]) -> Result<(), Fault>
    ensures { Checks result (spec.document is_utf8 deepest bytes.now) }
{
    let rest = after_value(alloc, deepest, skip(bytes))?;
    let rest = skip(rest);
    if !rest.is_empty() {
        return Err(stopped(rest));
    }
    Ok(())
}

/// A value with white space around it, and nothing else, after at most one byte order mark (RFC 8259, section 8.1).
fn text_at(alloc: Global, deepest: u32, bytes: &[u8]) -> Result<(), Fault>
    ensures { Checks result (spec.text_at is_utf8 deepest bytes.now) }
{
    match after_word(&[0xef, 0xbb, 0xbf], bytes) {
        Some(rest) => document(alloc, deepest, rest),
        None => document(alloc, deepest, bytes),
    }
}

/// Checks that the bytes spell a value (RFC 8259), in which arrays and objects nest no deeper than `deepest`, without making it. One byte
/// order mark before it is skipped. It stops where `parse` stops, for the same reason.
#[tactic(auto, using(crate::proofs::TextsRead::text_takes, crate::proofs::TextsFound::not_read))]
pub fn check(alloc: Global, bytes: &[u8], deepest: u32) -> Result<(), JsonFault>
    requires { deepest ≤ 255 }
    // Where nothing is wrong, the bytes spell a value.
    ensures read { OnOk result (IsUtf8 bytes.now × ((v : Value) × Reads deepest bytes.now v)) }
    // What is wrong is reported as `parse` reports it.
    ensures utf8 { IfErr result (λ fault. SaysUtf8 bytes.now (Err fault)) }
    ensures none { IfErr result (λ fault. SpellsNothing deepest bytes.now (Err fault)) }
{
    if let Err(error) = compat::from_utf8(bytes) {
        return Err(JsonFault::NotUtf8 {
            at: error.valid_up_to(),
        });
    }
    match text_at(alloc, deepest, bytes) {
        Ok(()) => Ok(()),
        Err(Fault::Malformed { left, why }) => Err(JsonFault::Malformed {
            at: bytes.len().saturating_sub(left),
            why,
        }),
        Err(Fault::Memory) => Err(JsonFault::Memory),
    }
}

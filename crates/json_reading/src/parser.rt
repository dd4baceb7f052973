// Whole texts.
ghost use Rattle.std.specs.Prelude.{◌≡◌, ◌≤◌, ℕ, List, IfOk, IsUtf8};
ghost use Rattle.json_value.specs.declared.json.Json.{Json as Value};
ghost use Rattle.json_value.specs.Grammar.{Reads};
ghost use Rattle.json_value.specs.WellFormed.{IsWellFormed};
ghost use Rattle.json_reading.specs.Gives.{Gives};
ghost use Rattle.json_reading.specs.Outcome.{IsReadAs, SaysUtf8, SpellsNothing};
ghost use Rattle.std.specs.Str.{is_utf8};
ghost use Rattle.json_value.specs.Reading as spec;

use crate::bytes::{after_word, skip};
use crate::fault::{Fault, JsonFault, stopped};
use crate::values::value_at;
use json_value::Json;
use simdutf8::compat;
use std::alloc::Global;

/// How deep arrays and objects of a layer may nest.
pub const LAYER_DEPTH: u32 = 127;

/// How deep arrays and objects of a topology may nest.
pub const TOPOLOGY_DEPTH: u32 = 255;

/// A value with white space around it, and nothing else.
#[tactic(auto, unfolding(json_value::specs::Reading::document, json_value::specs::Reading::ended))]
fn document(alloc: Global, deepest: u32, bytes: &[u8]) -> Result<Json, Fault>
    ensures { Gives (λ v. v) result (spec.document is_utf8 deepest bytes.now) }
{
    let (value, rest) = value_at(alloc, deepest, skip(bytes))?;
    let rest = skip(rest);
    if !rest.is_empty() {
        return Err(stopped(rest));
    }
    Ok(value)
}

/// A value with white space around it, and nothing else, after at most one byte order mark (RFC 8259, section 8.1).
fn text_at(alloc: Global, deepest: u32, bytes: &[u8]) -> Result<Json, Fault>
    ensures { Gives (λ v. v) result (spec.text_at is_utf8 deepest bytes.now) }
{
    match after_word(&[0xef, 0xbb, 0xbf], bytes) {
        Some(rest) => document(alloc, deepest, rest),
        None => document(alloc, deepest, bytes),
    }
}

/// The value that the bytes spell (RFC 8259), in which arrays and objects nest no deeper than `deepest`. One byte order
/// mark before it is skipped.
#[tactic(auto, using(json_value::proofs::SpelledTexts::reads_well_formed, crate::proofs::TextsRead::text_takes, crate::proofs::TextsFound::is_read, crate::proofs::TextsFound::not_read))]
pub fn parse(alloc: Global, bytes: &[u8], deepest: u32) -> Result<Json, JsonFault>
    requires { deepest ≤ 255 }
    // What is read is spelled so.
    ensures read { IfOk result (λ v. Reads deepest bytes.now v) }
    // What is spelled so is read, unless memory runs out.
    ensures only { (v : Value) → IsUtf8 bytes.now → Reads deepest bytes.now v → IsReadAs v result }
    ensures formed { IfOk result (λ v. IsWellFormed v) }
    // Which error it is.
    ensures utf8 { SaysUtf8 bytes.now result }
    ensures none { SpellsNothing deepest bytes.now result }
{
    if let Err(error) = compat::from_utf8(bytes) {
        return Err(JsonFault::NotUtf8 {
            at: error.valid_up_to(),
        });
    }
    match text_at(alloc, deepest, bytes) {
        Ok(value) => Ok(value),
        Err(Fault::Malformed { left, why }) => Err(JsonFault::Malformed {
            at: bytes.len().saturating_sub(left),
            why,
        }),
        Err(Fault::Memory) => Err(JsonFault::Memory),
    }
}

/// Bytes spell one value at most, whatever the depths.
pub fn one_value()
    ensures { (d e : ℕ) (b : List ℕ) (v w : Value) → Reads d b v → Reads e b w → v ≡ w }
{}

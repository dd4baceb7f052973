// Strings (RFC 8259, section 7): what follows them.
ghost use Rattle.std.specs.Prelude.{◌≡◌, IfSome, length};
ghost use Rattle.std.specs.List.{prefix_len};
ghost use Rattle.std.specs.Str.{is_utf8};
ghost use Rattle.json_value.specs.Reading as spec;
ghost use Rattle.json_reading.specs.Passes.{Passes};
ghost use Rattle.json_reading.specs.Strings.{EndsPlain, PassesSimple};
ghost use Rattle.json_reading.specs.Strings as strings;

use crate::fault::Fault;
use crate::strings::string_at;
use json_value::{LANES, first_lanes};
use std::alloc::Global;
use std::simd::prelude::*;

/// Whether a byte is an ASCII character that stands for itself in a string.
#[inline(always)]
fn is_simple(byte: u8) -> bool
    ensures { result ≡ strings.is_simple byte }
{
    byte <= 127 && byte >= 32 && byte != b'"' && byte != b'\\'
}

/// How many of them come before the first that is no such character.
#[inline(always)]
fn simple_lanes(lanes: u8x16) -> usize
    requires { length lanes ≡ 16 }
    ensures { result ≡ prefix_len strings.is_simple lanes }
{
    let marks = lanes.simd_eq(u8x16::splat(b'"')) | lanes.simd_eq(u8x16::splat(b'\\'));
    let others = lanes.simd_lt(u8x16::splat(32)) | lanes.simd_gt(u8x16::splat(127));
    let found = (marks | others).to_bitmask();
    if found == 0 {
        return LANES;
    }
    found.trailing_zeros() as usize
}

/// The bytes without some such characters at the front.
#[inline(always)]
#[tactic(auto, using(crate::proofs::PlainStrings::few, crate::proofs::PlainStrings::prefix_passed))]
fn after_simple(bytes: &[u8]) -> &[u8]
    ensures { PassesSimple bytes.now result.now }
{
    if bytes.len() < LANES {
        return bytes;
    }
    let simple = simple_lanes(first_lanes(bytes));
    let (_, rest) = bytes.split_at(simple);
    rest
}

/// The front of a string up to its quotation mark, and what follows that, where only such characters stand before it.
#[tactic(auto, using(json_value::proofs::PlainLanes::split, crate::proofs::PlainStrings::one_passed, crate::proofs::PlainStrings::shorter, crate::proofs::PlainStrings::string_ends))]
pub fn plain_at(inside: &[u8]) -> Option<(&[u8], &[u8])>
    ensures { IfSome result (λ x. EndsPlain inside.now x.0.now x.1.now) }
{
    let mut rest = inside;
    while let [first, more @ ..] = after_simple(rest) {
        if *first == b'"' {
            let (text, _) = inside.split_at(inside.len() - more.len() - 1);
            return Some((text, more));
        }
        if !is_simple(*first) {
            return None;
        }
        rest = more;
    }
    None
}

/// What follows the string, after its first quotation mark. Its text is made only where it has escapes or other characters than ASCII,
/// and freed.
pub(crate) fn after_string<'a>(alloc: Global, bytes: &'a [u8]) -> Result<&'a [u8], Fault>
    ensures { Passes result (spec.string_at is_utf8 bytes.now) }
{
    if let Some((_, rest)) = plain_at(bytes) {
        return Ok(rest);
    }
    let (_, rest) = string_at(alloc, bytes)?;
    Ok(rest)
}

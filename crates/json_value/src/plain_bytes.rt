// Bytes that stand for themselves in a string (RFC 8259, section 7), sixteen of them at once.
ghost use Rattle.std.specs.List.{prefix_len};
ghost use Rattle.std.specs.Prelude.{◌≡◌, ◌+◌, ◌≤◌, length, take};
ghost use Rattle.json_value.specs.Grammar as grammar;

use std::simd::prelude::*;

/// How many bytes are looked at together.
pub const LANES: usize = 16;

/// The first bytes, of which there have to be enough.
#[inline(always)]
pub fn first_lanes(bytes: &[u8]) -> u8x16
    requires { 16 ≤ length bytes.now }
    ensures { result ≡ take 16 bytes.now }
{
    u8x16::from_slice(bytes)
}

/// Whether a byte stands for itself between quotation marks.
#[inline(always)]
fn is_plain(byte: u8) -> bool
    ensures { result ≡ grammar.is_plain byte }
{
    byte >= 32 && (byte != b'"' && byte != b'\\')
}

/// How many of them come before the first that doesn't stand for itself.
#[inline(always)]
fn plain_lanes(lanes: u8x16) -> usize
    requires { length lanes ≡ 16 }
    ensures { result ≡ prefix_len grammar.is_plain lanes }
{
    let marks = lanes.simd_eq(u8x16::splat(b'"')) | lanes.simd_eq(u8x16::splat(b'\\'));
    let found = (marks | lanes.simd_lt(u8x16::splat(32))).to_bitmask();
    if found == 0 {
        return LANES;
    }
    found.trailing_zeros() as usize
}

/// The bytes without some at the front that stand for themselves.
#[inline(always)]
fn after_lanes(bytes: &[u8]) -> &[u8]
    ensures passes { prefix_len grammar.is_plain bytes.now + length result.now ≡ prefix_len grammar.is_plain result.now + length bytes.now }
    ensures shorter { length result.now ≤ length bytes.now }
{
    if bytes.len() < LANES {
        return bytes;
    }
    let (_, rest) = bytes.split_at(plain_lanes(first_lanes(bytes)));
    rest
}

/// How many bytes at the front stand for themselves.
pub fn plain_len(bytes: &[u8]) -> usize
    ensures { result ≡ prefix_len grammar.is_plain bytes.now }
{
    let mut rest = bytes;
    while let [first, more @ ..] = after_lanes(rest) {
        if !is_plain(*first) {
            return bytes.len() - more.len() - 1;
        }
        rest = more;
    }
    bytes.len()
}

// Arrays and objects that are leaped over: brackets and strings alone are looked at.
ghost use Rattle.std.specs.Int.RustNames.{count_ones};
ghost use Rattle.std.specs.Prelude.{◌≡◌, ◌==◌, ◌||◌, ◌∷◌, ◌<◌, ◌≤◌, ℕ, Bool, List, not, suc, IfSome, Some, length, map};
ghost use Rattle.std.specs.Simd.Lanes.{mask_l};
ghost use Rattle.topojson_decoder.specs.Leaping as spec;
ghost use Rattle.topojson_decoder.specs.Leaping.{Ends, at_depth, end_of, level};

use json_value::{LANES, first_lanes};
use std::simd::prelude::*;

/// Whether the byte opens an array or an object.
#[inline(always)]
fn is_opening(byte: u8) -> bool
    ensures { result ≡ spec.is_opening byte }
{
    byte == b'[' || byte == b'{'
}

/// Whether the byte closes an array or an object.
#[inline(always)]
fn is_closing(byte: u8) -> bool
    ensures { result ≡ spec.is_closing byte }
{
    byte == b']' || byte == b'}'
}

/// What follows the byte that a reverse solidus escapes.
#[inline(always)]
fn after_escaped(bytes: &[u8]) -> Option<&[u8]>
    ensures { IfSome result (λ rest. (byte : ℕ) × (bytes.now ≡ byte ∷ rest.now)) }
{
    match bytes {
        [] => None,
        [_, rest @ ..] => Some(rest),
    }
}

/// Which of the bytes are brackets or reverse solidi, a bit for each.
#[inline(always)]
fn marks_among(lanes: u8x16) -> u64
    requires { length lanes ≡ 16 }
    ensures { result ≡ mask_l (map spec.is_mark lanes) }
{
    let opening = lanes.simd_eq(u8x16::splat(b'[')) | lanes.simd_eq(u8x16::splat(b'{'));
    let closing = lanes.simd_eq(u8x16::splat(b']')) | lanes.simd_eq(u8x16::splat(b'}'));
    (opening | closing | lanes.simd_eq(u8x16::splat(b'\\'))).to_bitmask()
}

/// Which of the bytes are quotation marks, a bit for each.
#[inline(always)]
fn quotes_among(lanes: u8x16) -> u64
    requires { length lanes ≡ 16 }
    ensures { result ≡ mask_l (map spec.is_quote lanes) }
{
    lanes.simd_eq(u8x16::splat(b'"')).to_bitmask()
}

/// Whether what follows the quotation marks of these bits is in a string.
#[inline(always)]
fn turned(quoted: bool, quotes: u64) -> bool
    ensures { result ≡ spec.turned quoted (count_ones quotes) }
{
    quoted != (quotes.count_ones() % 2 == 1)
}

/// The bytes without some at the front that are neither brackets nor reverse solidi, and whether what is left begins in a string. Sixteen
/// with neither are passed without a look for the first, which would keep the next sixteen waiting.
#[inline(always)]
fn after_unmarked(bytes: &[u8], quoted: bool) -> (&[u8], bool)
    ensures passes { (n : ℕ) → end_of (level (suc n) quoted) bytes.now ≡ end_of (level (suc n) result.1) result.0.now }
    ensures shorter { length result.0.now ≤ length bytes.now }
{
    let mut rest = bytes;
    let mut in_string = quoted;
    while rest.len() >= LANES {
        let lanes = first_lanes(rest);
        let marks = marks_among(lanes);
        let quotes = quotes_among(lanes);
        if marks != 0 {
            let before = marks.trailing_zeros();
            let (_, marked) = rest.split_at(before as usize);
            return (marked, turned(in_string, quotes % (1 << before)));
        }
        in_string = turned(in_string, quotes);
        (_, rest) = rest.split_at(LANES);
    }
    (rest, in_string)
}

/// How many bytes make a block.
const BLOCK: usize = 64;

/// Which of a block's bytes are this one or that one, a bit for each.
#[inline(always)]
fn either_among(one: u8, other: u8, lanes: u8x64) -> u64
    requires { length lanes ≡ 64 }
    ensures { result ≡ mask_l (map (λ b. b == one || b == other) lanes) }
{
    (lanes.simd_eq(u8x64::splat(one)) | lanes.simd_eq(u8x64::splat(other))).to_bitmask()
}

/// Which of a block's bytes are this one, a bit for each.
#[inline(always)]
fn among(byte: u8, lanes: u8x64) -> u64
    requires { length lanes ≡ 64 }
    ensures { result ≡ mask_l (map (λ b. b == byte) lanes) }
{
    lanes.simd_eq(u8x64::splat(byte)).to_bitmask()
}

/// Which of a block's bytes are followed by what is in no string, a bit for each, if nothing is escaped there.
#[inline(always)]
fn outside_strings(quotes: u64, quoted: bool) -> u64
    ensures { (ms : List Bool) → length ms ≡ 64 → quotes ≡ mask_l ms → result ≡ mask_l (spec.outsides (not quoted) ms) }
{
    let first = quotes ^ u64::from(!quoted);
    let after_one = first ^ (first << 1);
    let after_two = after_one ^ (after_one << 2);
    let after_four = after_two ^ (after_two << 4);
    let after_eight = after_four ^ (after_four << 8);
    let after_sixteen = after_eight ^ (after_eight << 16);
    after_sixteen ^ (after_sixteen << 32)
}

/// The bytes without the blocks at the front in which nothing is escaped and fewer brackets close than are open, how many are open then, and
/// whether what is left begins in a string.
#[inline(always)]
fn after_blocks(bytes: &[u8], depth: u64, quoted: bool) -> (&[u8], u64, bool)
    requires { 0 < depth }
    ensures passes { end_of (level depth quoted) bytes.now ≡ end_of (level result.1 result.2) result.0.now }
    ensures still_open { 0 < result.1 }
    ensures shorter { length result.0.now ≤ length bytes.now }
{
    let mut rest = bytes;
    let mut left = depth;
    let mut in_string = quoted;
    while rest.len() >= BLOCK {
        let lanes = u8x64::from_slice(rest);
        let escapes = among(b'\\', lanes);
        let quotes = among(b'"', lanes);
        let outside = outside_strings(quotes, in_string);
        let opened = u64::from((either_among(b'[', b'{', lanes) & outside).count_ones());
        let closed = u64::from((either_among(b']', b'}', lanes) & outside).count_ones());
        if escapes != 0 || closed >= left {
            return (rest, left, in_string);
        }
        let Some(most) = left.checked_add(opened) else {
            return (rest, left, in_string);
        };
        left = most - closed;
        in_string = turned(in_string, quotes);
        (_, rest) = rest.split_at(BLOCK);
    }
    (rest, left, in_string)
}

/// What follows the bracket that closes the one that was opened just before.
#[inline(never)]
fn after_closing(inside: &[u8]) -> Option<&[u8]>
    ensures { IfSome result (λ rest. end_of (at_depth 1) inside.now ≡ Some rest.now) }
{
    let mut depth = 1u64;
    let mut quoted = false;
    let mut rest = inside;
    loop {
        let (after, left, in_block) = after_blocks(rest, depth, quoted);
        let ([first, more @ ..], in_string) = after_unmarked(after, in_block) else {
            return None;
        };
        depth = left;
        quoted = in_string;
        rest = more;
        if in_string {
            if *first == b'\\' {
                rest = after_escaped(more)?;
            } else {
                quoted = *first != b'"';
            }
        } else if is_opening(*first) {
            depth = depth.checked_add(1)?;
        } else if is_closing(*first) {
            depth -= 1;
            if depth == 0 {
                return Some(more);
            }
        } else {
            quoted = *first == b'"';
        }
    }
}

/// What follows the array or the object at the front, if one stands there: whether one does isn't known before it is read. None of what is
/// neither, and where no end is found.
pub fn leap(bytes: &[u8]) -> Option<&[u8]>
    ensures { IfSome result (λ rest. Ends bytes.now rest.now) }
{
    match bytes {
        [] => None,
        [first, inside @ ..] => {
            if !is_opening(*first) {
                return None;
            }
            let rest = after_closing(inside)?;
            Some(rest)
        }
    }
}

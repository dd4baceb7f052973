// Sixteen bytes at once.
ghost use Rattle.std.specs.List.{prefix_len};
ghost use Rattle.std.specs.Option.{option_copied};
ghost use Rattle.std.specs.Prelude.{◌≡◌, ◌==◌, ◌≤◌, length, not, take};
ghost use Rattle.json_reading.specs.Finding.{after_first};

use json_value::{LANES, first_lanes};
use std::simd::prelude::*;

/// How many of them come before the first that is this byte.
#[inline(always)]
fn lanes_before(byte: u8, lanes: u8x16) -> usize
    requires { length lanes ≡ 16 }
    ensures { result ≡ prefix_len (λ x. not (x == byte)) lanes }
{
    let found = lanes.simd_eq(u8x16::splat(byte)).to_bitmask();
    if found == 0 {
        return LANES;
    }
    found.trailing_zeros() as usize
}

/// The bytes without some at the front that aren't this one.
#[inline(always)]
fn after_others(byte: u8, bytes: &[u8]) -> &[u8]
    ensures passes { after_first byte bytes.now ≡ after_first byte result.now }
    ensures shorter { length result.now ≤ length bytes.now }
{
    if bytes.len() < LANES {
        return bytes;
    }
    let (_, rest) = bytes.split_at(lanes_before(byte, first_lanes(bytes)));
    rest
}

/// What follows the first byte that is this one, if there is one.
#[inline(always)]
pub fn rest_after_first(byte: u8, bytes: &[u8]) -> Option<&[u8]>
    ensures { option_copied result ≡ after_first byte bytes.now }
{
    let mut rest = bytes;
    while let [first, more @ ..] = after_others(byte, rest) {
        if *first == byte {
            return Some(more);
        }
        rest = more;
    }
    None
}

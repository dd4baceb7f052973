// The two numbers of a position or a cell.
ghost use Rattle.std.specs.Prelude.{◌≡◌, ◌≤◌, ◌<◌, ◌^◌, IfOk, IfSome, length, unsigned_abs};
ghost use Rattle.geojson_types.specs.declared.counts.Counts.{Counts};
ghost use Rattle.json_cursor.specs.Answers.{Answers, Reads};
ghost use Rattle.json_cursor.specs.Arrays.{prefix_elements, prefix_value};
ghost use Rattle.unit_scanning.specs.Pairs.{ArePlainPair};
ghost use Rattle.topojson_decoder.specs.Numbers.{IsPlainNumber, scale_limit};
ghost use Rattle.topojson_decoder.specs.Pairs.{both, pair, plain_pair, second};

use crate::numbers::{Scale, number_at, textless_bound};
use json_cursor::{Mark, Opening, Stop, after_byte, after_elements, mark_at, opening_at};
use json_reading::skip;
use std::alloc::Global;
use topojson_meaning::TopoFault;
use unit_scanning::{Units, units_pair_at, whole_pair_at};

/// Two numbers, each if it is in range, and whether elements stand after them.
#[derive(Clone, Copy, Debug, PartialEq, Eq)]
pub(crate) struct Pair {
    pub x: Option<Units>,
    pub y: Option<Units>,
    pub more: bool,
}

/// The pair whose second number and further elements stand after the comma, and what follows its bracket.
#[tactic(auto, using(json_cursor::proofs::Lists::no_turn))]
fn second_at<'a>(
    alloc: Global,
    depth_left: u32,
    scale: Scale,
    turns: usize,
    x: Option<Units>,
    bytes: &'a [u8],
) -> Result<(Pair, &'a [u8]), Stop<TopoFault>>
    requires { scale_limit scale < 2 ^ 63 }
    ensures answers { (counts : Counts) → Answers (λ p. p) (second scale x) (prefix_elements depth_left turns bytes.now) counts counts result }
    ensures within { IfOk result (λ p. IfSome p.0.y (λ u. unsigned_abs u.value ≤ scale_limit scale)) }
    ensures same { IfOk result (λ p. p.0.x ≡ x) }
{
    if turns == 0 {
        return Err(Stop::NoValue);
    }
    match number_at(alloc, depth_left, scale, skip(bytes)) {
        Err(stop) => Err(stop),
        Ok((y, after)) => {
            let (mark, more) = mark_at(after);
            match mark {
                Mark::Neither => Err(Stop::NoValue),
                Mark::Close => Ok((Pair { x, y, more: false }, more)),
                Mark::Comma => {
                    let end = after_elements(alloc, depth_left, turns - 1, more)?;
                    Ok((Pair { x, y, more: true }, end))
                }
            }
        }
    }
}

/// The pair whose elements stand after the bracket, and what follows it.
#[tactic(auto, using(json_cursor::proofs::Lists::no_turn))]
fn both_at<'a>(
    alloc: Global,
    depth_left: u32,
    scale: Scale,
    turns: usize,
    inside: &'a [u8],
) -> Result<(Pair, &'a [u8]), Stop<TopoFault>>
    requires { scale_limit scale < 2 ^ 63 }
    ensures answers { (counts : Counts) → Answers (λ p. p) (both scale) (prefix_elements depth_left turns inside.now) counts counts result }
    ensures x { IfOk result (λ p. IfSome p.0.x (λ u. unsigned_abs u.value ≤ scale_limit scale)) }
    ensures y { IfOk result (λ p. IfSome p.0.y (λ u. unsigned_abs u.value ≤ scale_limit scale)) }
{
    if turns == 0 {
        return Err(Stop::NoValue);
    }
    match number_at(alloc, depth_left, scale, skip(inside)) {
        Err(stop) => Err(stop),
        Ok((x, after)) => {
            let (mark, more) = mark_at(after);
            match mark {
                Mark::Neither => Err(Stop::NoValue),
                Mark::Close => Err(Stop::Fault(TopoFault::WrongKind)),
                Mark::Comma => second_at(alloc, depth_left, scale, turns - 1, x, more),
            }
        }
    }
}

/// Two numbers with a comma between them, as most are written, none of them rounded; whether more elements follow, and what follows the
/// comma or the bracket after them.
#[inline(always)]
fn plain_numbers_at(scale: Scale, inside: &[u8]) -> Option<(i64, i64, bool, &[u8])>
    requires { scale_limit scale < 2 ^ 63 }
    ensures pair { IfSome result (λ p. ArePlainPair (IsPlainNumber scale) inside.now p.0 p.1 p.2 p.3.now) }
    ensures x { IfSome result (λ p. unsigned_abs p.0 ≤ scale_limit scale) }
    ensures y { IfSome result (λ p. unsigned_abs p.1 ≤ scale_limit scale) }
{
    match scale {
        Scale::Units => {
            let (x, y, more, rest) = units_pair_at(inside)?;
            Some((x, y, more, rest))
        }
        Scale::Whole(bound) => {
            let (x, y, more, rest) = whole_pair_at(textless_bound(bound), inside)?;
            Some((x, y, more, rest))
        }
    }
}

/// The pair that the array at the front begins with, where it is written as most are, none of its numbers rounded: whether elements stand after
/// them, and what follows the array.
#[inline(always)]
pub(crate) fn plain_pair_at<'a>(
    alloc: Global,
    depth_left: u32,
    scale: Scale,
    bytes: &'a [u8],
) -> Option<(i64, i64, bool, &'a [u8])>
    requires { scale_limit scale < 2 ^ 63 }
    ensures reads { IfSome result (λ p. (counts : Counts) → Reads (pair scale) (prefix_value depth_left bytes.now) (plain_pair p.0 p.1 p.2) p.3.now counts counts) }
    ensures x { IfSome result (λ p. unsigned_abs p.0 ≤ scale_limit scale) }
    ensures y { IfSome result (λ p. unsigned_abs p.1 ≤ scale_limit scale) }
{
    let inside = after_byte(b'[', bytes)?;
    if depth_left == 0 {
        return None;
    }
    let (x, y, more, rest) = plain_numbers_at(scale, inside)?;
    if inside.len() < 2 {
        return None;
    }
    if !more {
        return Some((x, y, false, rest));
    }
    let Ok(end) = after_elements(alloc, depth_left - 1, inside.len() - 2, rest) else {
        return None;
    };
    Some((x, y, true, end))
}

/// The pair that the array at the front begins with, however it is written, and what follows it.
pub(crate) fn pair_at<'a>(
    alloc: Global,
    depth_left: u32,
    scale: Scale,
    bytes: &'a [u8],
) -> Result<(Pair, &'a [u8]), Stop<TopoFault>>
    requires { scale_limit scale < 2 ^ 63 }
    ensures answers { (counts : Counts) → Answers (λ p. p) (pair scale) (prefix_value depth_left bytes.now) counts counts result }
    ensures x { IfOk result (λ p. IfSome p.0.x (λ u. unsigned_abs u.value ≤ scale_limit scale)) }
    ensures y { IfOk result (λ p. IfSome p.0.y (λ u. unsigned_abs u.value ≤ scale_limit scale)) }
{
    let (opening, inside) = opening_at(depth_left, bytes);
    match opening {
        Opening::NoArray => Err(Stop::Fault(TopoFault::WrongKind)),
        Opening::TooDeep => Err(Stop::NoValue),
        Opening::Empty => Err(Stop::Fault(TopoFault::WrongKind)),
        Opening::Filled(below) => both_at(alloc, below, scale, inside.len(), inside),
    }
}

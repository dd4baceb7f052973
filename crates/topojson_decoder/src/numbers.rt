// Numbers at a scale.
ghost use Rattle.std.specs.Prelude.{◌≡◌, ◌≤◌, ◌<◌, ◌^◌, IfOk, IfSome, unsigned_abs};
ghost use Rattle.geojson_types.specs.declared.counts.Counts.{Counts};
ghost use Rattle.json_cursor.specs.Answers.{Answers};
ghost use Rattle.json_cursor.specs.Arrays.{prefix_value};
ghost use Rattle.topojson_decoder.specs.Numbers.{scale_limit, scaled_at, number};

use geojson_types::{PLACES, POSITION_LIMIT};
use json_cursor::{Kind, Stop, kind_at};
use json_reading::value_at;
use std::alloc::Global;
use topojson_meaning::TopoFault;
use unit_scanning::{Units, long_units_at, whole_number_at};

/// At how many decimals a number is taken, and how far from zero it may be.
#[derive(Clone, Copy, Debug, PartialEq, Eq)]
pub(crate) enum Scale {
    /// Units of positions.
    Units,
    /// Whole numbers up to a bound.
    Whole(u64),
}

/// The greatest bound up to which whole numbers are read without their text.
const TEXTLESS_LIMIT: u64 = 1_000_000_000_000_000_000;

/// The number at the front by the value that stands there, for what isn't written as most numbers are.
#[cold]
#[inline(never)]
#[tactic(auto, using(json_cursor::proofs::Steps::found_stops, crate::proofs::NumberParts::no_number, crate::proofs::NumberParts::is_number, crate::proofs::NumberParts::other_kind))]
fn value_number_at<'a>(
    alloc: Global,
    depth_left: u32,
    places: u32,
    limit: u64,
    bytes: &'a [u8],
) -> Result<(Option<Units>, &'a [u8]), Stop<TopoFault>>
    requires places { places ≤ 20 }
    requires limit { limit < 2 ^ 63 }
    ensures answers { (counts : Counts) → Answers (λ x. x) (scaled_at places limit) (prefix_value depth_left bytes.now) counts counts result }
    ensures within { IfOk result (λ x. IfSome x.0 (λ u. unsigned_abs u.value ≤ limit)) }
{
    match kind_at(bytes) {
        Kind::Number => {}
        _ => return Err(Stop::Fault(TopoFault::WrongKind)),
    }
    let (value, rest) = value_at(alloc, depth_left, bytes)?;
    let Some(number) = value.as_number() else {
        return Err(Stop::Fault(TopoFault::WrongKind));
    };
    match number.scaled(places, i128::from(limit)) {
        Err(_) => Ok((None, rest)),
        Ok(scaled) => {
            let units = Units {
                value: scaled.value as i64,
                exact: scaled.exact,
            };
            Ok((Some(units), rest))
        }
    }
}

/// The bound itself, or as far as whole numbers are read without their text.
#[inline(always)]
pub(crate) fn textless_bound(bound: u64) -> u64
    ensures within { result ≤ bound }
    ensures small { result ≤ 10 ^ 18 }
{
    if bound < TEXTLESS_LIMIT {
        bound
    } else {
        TEXTLESS_LIMIT
    }
}

/// The number at the front at this scale, if it is within the limit, and what follows it.
#[inline(always)]
#[tactic(auto, using(crate::proofs::NumberParts::number_reads))]
pub(crate) fn number_at<'a>(
    alloc: Global,
    depth_left: u32,
    scale: Scale,
    bytes: &'a [u8],
) -> Result<(Option<Units>, &'a [u8]), Stop<TopoFault>>
    requires { scale_limit scale < 2 ^ 63 }
    ensures answers { (counts : Counts) → Answers (λ x. x) (number scale) (prefix_value depth_left bytes.now) counts counts result }
    ensures within { IfOk result (λ x. IfSome x.0 (λ u. unsigned_abs u.value ≤ scale_limit scale)) }
{
    match scale {
        Scale::Units => match long_units_at(bytes) {
            Some((units, rest)) => Ok((Some(units), rest)),
            None => value_number_at(alloc, depth_left, PLACES, POSITION_LIMIT, bytes),
        },
        Scale::Whole(bound) => match whole_number_at(textless_bound(bound), bytes) {
            Some((value, rest)) => Ok((Some(Units { value, exact: true }), rest)),
            None => value_number_at(alloc, depth_left, 0, bound, bytes),
        },
    }
}

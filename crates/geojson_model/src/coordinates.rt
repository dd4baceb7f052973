// One coordinate of a position.
ghost use Rattle.std.specs.Prelude.{◌≡◌, ◌≤◌, ◌&&◌, not, IfOk, unsigned_abs};
ghost use Rattle.geometry.specs.Units.{input_limit};
ghost use Rattle.geojson_meaning.specs.Coordinates.{coordinate};
ghost use Rattle.json_cursor.specs.Answers.{Answers};
ghost use Rattle.json_cursor.specs.Arrays.{prefix_value};

use geojson_meaning::GeoFaultKind;
use geojson_types::Counts;
use geometry::{INPUT_LIMIT, PLACES};
use json_cursor::{Kind, Stop, kind_at};
use json_reading::value_at;
use std::alloc::Global;
use unit_scanning::units_at;

/// The greatest magnitude in units.
const LIMIT: i128 = INPUT_LIMIT as i128;

/// Whether a number is refused for being rounded.
#[inline(always)]
pub(crate) fn is_refused(exact: bool, whole: bool) -> bool
    ensures { result ≡ (exact && not whole) }
{
    exact && !whole
}

/// A coordinate by the text of the number that stands there, however it is written. Of what is no number nothing is read.
#[cold]
#[inline(never)]
fn value_coordinate_at<'a>(
    alloc: Global,
    depth_left: u32,
    bytes: &'a [u8],
    exact: bool,
    counts: &mut Counts,
) -> Result<(i64, &'a [u8]), Stop<GeoFaultKind>>
    ensures answers { Answers (λ x. x) (coordinate exact) (prefix_value depth_left bytes.now) counts.old counts.new result }
    ensures within { IfOk result (λ x. unsigned_abs x.0 ≤ input_limit) }
{
    let Kind::Number = kind_at(bytes) else {
        return Err(Stop::Fault(GeoFaultKind::WrongKind));
    };
    let (value, rest) = value_at(alloc, depth_left, bytes)?;
    let Some(number) = value.as_number() else {
        drop(value);
        return Err(Stop::Fault(GeoFaultKind::WrongKind));
    };
    let Ok(scaled) = number.scaled(PLACES, LIMIT) else {
        drop(value);
        return Err(Stop::Fault(GeoFaultKind::Range));
    };
    drop(value);
    if is_refused(exact, scaled.exact) {
        return Err(Stop::Fault(GeoFaultKind::Inexact));
    }
    counts.count_rounded(!scaled.exact);
    Ok((scaled.value as i64, rest))
}

/// The coordinate at the front in whole units, and what follows it. `exact` refuses what would have to be rounded.
#[inline(always)]
pub(crate) fn coordinate_at<'a>(
    alloc: Global,
    depth_left: u32,
    bytes: &'a [u8],
    exact: bool,
    counts: &mut Counts,
) -> Result<(i64, &'a [u8]), Stop<GeoFaultKind>>
    ensures answers { Answers (λ x. x) (coordinate exact) (prefix_value depth_left bytes.now) counts.old counts.new result }
    ensures within { IfOk result (λ x. unsigned_abs x.0 ≤ input_limit) }
{
    let Some((units, rest)) = units_at(bytes) else {
        return value_coordinate_at(alloc, depth_left, bytes, exact, counts);
    };
    if is_refused(exact, units.exact) {
        return Err(Stop::Fault(GeoFaultKind::Inexact));
    }
    counts.count_rounded(!units.exact);
    Ok((units.value, rest))
}

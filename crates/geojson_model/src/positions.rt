// Positions.
ghost use Rattle.std.specs.Prelude.{◌≡◌, ◌≤◌, IfSome, unsigned_abs, length};
ghost use Rattle.geojson_meaning.specs.Coordinates as spec;
ghost use Rattle.json_cursor.specs.Answers.{Answers};
ghost use Rattle.json_value.specs.Readers.{gather};
ghost use Rattle.json_cursor.specs.Arrays.{always, prefix_elements, prefix_value, some_array_by};
ghost use Rattle.geojson_meaning.specs.declared.fault.GeoFaultKind.TheVariants.{WrongKind};
ghost use Rattle.geometry.specs.Units.{input_limit};
ghost use Rattle.json_cursor.specs.Folds.{one};
ghost use Rattle.geojson_model.specs.Positions.{ArePair, second_position};

use crate::coordinates::{coordinate_at, is_refused};
use geojson_meaning::GeoFaultKind;
use geojson_types::{Counts, Position};
use json_cursor::{
    Element, Mark, Opening, Stop, after_elements, mark_at, opening_at, some_array_at,
};
use json_reading::{after_value, skip};
use json_value::Items;
use std::alloc::Global;
use unit_scanning::{Units, long_units_in_place, units_pair_at};

/// The position whose second coordinate and further elements stand after the comma, and what follows its bracket.
#[inline(always)]
#[tactic(auto, using(json_cursor::proofs::Lists::no_turn))]
fn second_at<'a>(
    alloc: Global,
    depth_left: u32,
    turns: usize,
    x: i64,
    bytes: &'a [u8],
    exact: bool,
    counts: &mut Counts,
) -> Result<(Position, &'a [u8]), Stop<GeoFaultKind>>
    requires { unsigned_abs x ≤ input_limit }
    ensures { Answers (λ p. p) (second_position exact x) (prefix_elements depth_left turns bytes.now) counts.old counts.new result }
{
    if turns == 0 {
        return Err(Stop::NoValue);
    }
    match coordinate_at(alloc, depth_left, skip(bytes), exact, counts) {
        Err(stop) => Err(stop),
        Ok((y, after)) => {
            let (mark, more) = mark_at(after);
            match mark {
                Mark::Neither => Err(Stop::NoValue),
                Mark::Close => Ok((Position::at(x, y), more)),
                Mark::Comma => {
                    let end = after_elements(alloc, depth_left, turns - 1, more)?;
                    counts.count_extra(true);
                    Ok((Position::at(x, y), end))
                }
            }
        }
    }
}

/// The position whose elements stand after the bracket, however they are written and whatever their fault is, and what follows it. A
/// first element that stands alone is reported as that, whatever it is.
#[cold]
#[inline(never)]
#[tactic(auto, using(json_cursor::proofs::Lists::no_turn))]
fn any_numbers_at<'a>(
    alloc: Global,
    depth_left: u32,
    turns: usize,
    inside: &'a [u8],
    exact: bool,
    counts: &mut Counts,
) -> Result<(Position, &'a [u8]), Stop<GeoFaultKind>>
    ensures { Answers (λ p. p) (spec.elements_position exact) (prefix_elements depth_left turns inside.now) counts.old counts.new result }
{
    if turns == 0 {
        return Err(Stop::NoValue);
    }
    let first = skip(inside);
    match coordinate_at(alloc, depth_left, first, exact, counts) {
        Err(Stop::NoValue) => Err(Stop::NoValue),
        Err(Stop::Memory) => Err(Stop::Memory),
        Err(Stop::Fault(kind)) => {
            let following = after_value(alloc, depth_left, first)?;
            let (mark, _) = mark_at(following);
            match mark {
                Mark::Neither => Err(Stop::NoValue),
                Mark::Close => Err(Stop::Fault(GeoFaultKind::ShortPosition)),
                Mark::Comma => Err(Stop::Fault(kind)),
            }
        }
        Ok((x, after)) => {
            let (next, more) = mark_at(after);
            match next {
                Mark::Neither => Err(Stop::NoValue),
                Mark::Close => Err(Stop::Fault(GeoFaultKind::ShortPosition)),
                Mark::Comma => second_at(alloc, depth_left, turns - 1, x, more, exact, counts),
            }
        }
    }
}

/// Two numbers with a comma between them, and what follows them.
#[inline(always)]
fn pair_at(bytes: &[u8]) -> Option<(Units, Units, &[u8])>
    ensures pair { IfSome result (λ p. ArePair bytes.now p.0 p.1 p.2.now) }
    ensures first { IfSome result (λ p. unsigned_abs p.0.value ≤ input_limit) }
    ensures second { IfSome result (λ p. unsigned_abs p.1.value ≤ input_limit) }
{
    let (x, after) = long_units_in_place(skip(bytes))?;
    let (mark, more) = mark_at(after);
    let Mark::Comma = mark else {
        return None;
    };
    let (y, rest) = long_units_in_place(skip(more))?;
    Some((x, y, rest))
}

/// The position whose elements stand after the bracket, and what follows it, where the first two are read as they stand.
#[inline(never)]
fn two_numbers_at<'a>(
    alloc: Global,
    depth_left: u32,
    turns: usize,
    inside: &'a [u8],
    exact: bool,
    counts: &mut Counts,
) -> Result<(Position, &'a [u8]), Stop<GeoFaultKind>>
    ensures { Answers (λ p. p) (spec.elements_position exact) (prefix_elements depth_left turns inside.now) counts.old counts.new result }
{
    if turns < 2 {
        return any_numbers_at(alloc, depth_left, turns, inside, exact, counts);
    }
    let Some((x, y, after)) = pair_at(inside) else {
        return any_numbers_at(alloc, depth_left, turns, inside, exact, counts);
    };
    if is_refused(exact, x.exact) || is_refused(exact, y.exact) {
        return any_numbers_at(alloc, depth_left, turns, inside, exact, counts);
    }
    let (mark, more) = mark_at(after);
    match mark {
        Mark::Neither => Err(Stop::NoValue),
        Mark::Close => {
            counts.count_rounded(!x.exact);
            counts.count_rounded(!y.exact);
            Ok((Position::at(x.value, y.value), more))
        }
        Mark::Comma => {
            let end = after_elements(alloc, depth_left, turns - 2, more)?;
            counts.count_rounded(!x.exact);
            counts.count_rounded(!y.exact);
            counts.count_extra(true);
            Ok((Position::at(x.value, y.value), end))
        }
    }
}

/// The position whose elements stand after the bracket, and what follows it.
#[inline(always)]
pub(crate) fn numbers_at<'a>(
    alloc: Global,
    depth_left: u32,
    turns: usize,
    inside: &'a [u8],
    exact: bool,
    counts: &mut Counts,
) -> Result<(Position, &'a [u8]), Stop<GeoFaultKind>>
    ensures { Answers (λ p. p) (spec.elements_position exact) (prefix_elements depth_left turns inside.now) counts.old counts.new result }
{
    if turns < 2 {
        return two_numbers_at(alloc, depth_left, turns, inside, exact, counts);
    }
    let Some((x, y, goes_on, rest)) = units_pair_at(inside) else {
        return two_numbers_at(alloc, depth_left, turns, inside, exact, counts);
    };
    if goes_on {
        let end = after_elements(alloc, depth_left, turns - 2, rest)?;
        counts.count_extra(true);
        return Ok((Position::at(x, y), end));
    }
    Ok((Position::at(x, y), rest))
}

/// The position at the front (RFC 7946, section 3.1.1), x (longitude) first, and what follows it.
#[inline(always)]
pub(crate) fn position_at<'a>(
    alloc: Global,
    depth_left: u32,
    bytes: &'a [u8],
    exact: bool,
    counts: &mut Counts,
) -> Result<(Position, &'a [u8]), Stop<GeoFaultKind>>
    ensures { Answers (λ p. p) (spec.position exact) (prefix_value depth_left bytes.now) counts.old counts.new result }
{
    let (opening, inside) = opening_at(depth_left, bytes);
    match opening {
        Opening::NoArray => Err(Stop::Fault(GeoFaultKind::WrongKind)),
        Opening::TooDeep => Err(Stop::NoValue),
        Opening::Empty => Err(Stop::Fault(GeoFaultKind::ShortPosition)),
        Opening::Filled(below) => { numbers_at(alloc, below, inside.len(), inside, exact, counts) }
    }
}

/// The same. It isn't tried first whether its numbers are short.
#[inline(always)]
fn long_position_at<'a>(
    alloc: Global,
    depth_left: u32,
    bytes: &'a [u8],
    exact: bool,
    counts: &mut Counts,
) -> Result<(Position, &'a [u8]), Stop<GeoFaultKind>>
    ensures { Answers (λ p. p) (spec.position exact) (prefix_value depth_left bytes.now) counts.old counts.new result }
{
    let (opening, inside) = opening_at(depth_left, bytes);
    match opening {
        Opening::NoArray => Err(Stop::Fault(GeoFaultKind::WrongKind)),
        Opening::TooDeep => Err(Stop::NoValue),
        Opening::Empty => Err(Stop::Fault(GeoFaultKind::ShortPosition)),
        Opening::Filled(below) => {
            two_numbers_at(alloc, below, inside.len(), inside, exact, counts)
        }
    }
}

/// Where an array of positions begins with a long number, these of its bytes are digits: the first of them is a decimal, and the last isn't past the
/// number's end.
const FIRST_OF_LONG: usize = 10;

const END_OF_LONG: usize = 18;

/// The numbers of the array of positions at the front seem to have more decimals than are kept. It says only what is tried first.
fn seem_long(bytes: &[u8]) -> bool {
    if bytes.len() < END_OF_LONG {
        return false;
    }
    'bytes: for at in FIRST_OF_LONG..END_OF_LONG {
        if !bytes[at].is_ascii_digit() {
            return false;
        }
    }
    true
}

/// How the positions of an array are read.
#[derive(Clone, Copy)]
struct Positions {
    exact: bool,
}

impl Element for Positions {
    type Read = Position;

    type Fault = GeoFaultKind;

    ghost reads = { λ r. one (spec.position r.exact) };

    #[inline(always)]
    fn read<'a>(
        self,
        alloc: Global,
        depth_left: u32,
        bytes: &'a [u8],
        counts: &mut Counts,
    ) -> Result<(Option<Position>, &'a [u8]), Stop<GeoFaultKind>> {
        match position_at(alloc, depth_left, bytes, self.exact, counts) {
            Ok((position, rest)) => Ok((Some(position), rest)),
            Err(stop) => Err(stop),
        }
    }
}

/// How the positions of an array are read that seem to be long.
#[derive(Clone, Copy)]
struct LongPositions {
    exact: bool,
}

impl Element for LongPositions {
    type Read = Position;

    type Fault = GeoFaultKind;

    ghost reads = { λ r. one (spec.position r.exact) };

    #[inline(always)]
    fn read<'a>(
        self,
        alloc: Global,
        depth_left: u32,
        bytes: &'a [u8],
        counts: &mut Counts,
    ) -> Result<(Option<Position>, &'a [u8]), Stop<GeoFaultKind>> {
        match long_position_at(alloc, depth_left, bytes, self.exact, counts) {
            Ok((position, rest)) => Ok((Some(position), rest)),
            Err(stop) => Err(stop),
        }
    }
}

/// The positions of the array at the front, which is to have some, and what follows it. There is a loop for those that seem to be long, so that the
/// one for others has no test for it.
pub(crate) fn positions_at<'a>(
    alloc: Global,
    depth_left: u32,
    bytes: &'a [u8],
    exact: bool,
    counts: &mut Counts,
) -> Result<(Option<Items<Position>>, &'a [u8]), Stop<GeoFaultKind>>
    ensures { Answers (λ x. x) (some_array_by WrongKind (always (gather (one (spec.position exact))))) (prefix_value depth_left bytes.now) counts.old counts.new result }
{
    let wrong = GeoFaultKind::WrongKind;
    if seem_long(bytes) {
        let by = LongPositions { exact };
        return some_array_at::<LongPositions>(alloc, depth_left, bytes, wrong, by, counts);
    }
    some_array_at::<Positions>(alloc, depth_left, bytes, wrong, Positions { exact }, counts)
}

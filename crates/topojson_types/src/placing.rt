// Where cells lie.
ghost use Rattle.std.specs.Prelude.{◌≡◌, ◌≤◌, ◌^◌, ℤ, ◌+ℤ◌, ◌*ℤ◌, IfSome, IfNone, Some, ◌<◌, ◌↔◌, IsTrue, unsigned_abs};
ghost use Rattle.std.specs.Option.{option_copied};
ghost use Rattle.decimal_text.specs.Rounding.{nearest};
ghost use Rattle.geometry.specs.Units.{fine_units, position_limit};
ghost use Rattle.topojson_types.specs.Transforms as spec;
ghost use Rattle.topojson_types.specs.TransformNumbers.{to_units, stands_for};
ghost use Rattle.topojson_types.specs.Validity.{IsPlace};
ghost use Rattle.topojson_types.specs.Widening.{widened};

use crate::cell::Cell;
use crate::summing::GRID_LIMIT;
use crate::transform::Transform;
use crate::transform_number::TransformNumber;
use geojson_types::{PLACES, POSITION_LIMIT, Position};
use geometry::{FINE_UNITS, TRANSFORM_PLACES};

/// The greatest power of two that divides `FINE_UNITS`, which is a power of ten.
const EVEN_PART: u128 = 1 << (TRANSFORM_PLACES - PLACES);

/// What is left of `FINE_UNITS` without it.
const ODD_PART: u64 = (FINE_UNITS / EVEN_PART) as u64;

/// So many units of 10^-20 in units of coordinates, rounded to the nearest, halves up. After the first division, which is a shift, most
/// numbers lie in 64 bits, whose division is the faster.
fn nearest_units(size: u128) -> u128
    requires { size ≤ 2 ^ 127 }
    ensures { result ≡ nearest size fine_units }
{
    let shifted = (size + FINE_UNITS / 2) / EVEN_PART;
    if shifted <= u128::from(u64::MAX) {
        return u128::from(shifted as u64 / ODD_PART);
    }
    shifted / u128::from(ODD_PART)
}

/// So many units of 10^-20 in units of coordinates, rounded to the nearest, halves away from zero, if that is a coordinate.
#[tactic(auto, unfolding(crate::specs::TransformNumbers::to_units))]
fn coordinate_of(value: i128) -> Option<i64>
    ensures some { IfSome result (λ u. (u ≡ to_units value) × (unsigned_abs u ≤ position_limit)) }
    ensures none { IfNone result (position_limit < unsigned_abs (to_units value)) }
{
    let units = nearest_units(value.unsigned_abs());
    if units > u128::from(POSITION_LIMIT) {
        return None;
    }
    let units = units as i64;
    Some(if value < 0 { -units } else { units })
}

/// The number of the grid times the scale, if it lies in 128 bits. Most scales lie in 64 bits, and such a product needs no test.
#[tactic(auto, using(geometry::proofs::Products::widened_is, geometry::proofs::Products::product_fits, geometry::proofs::Products::product_is, crate::proofs::FarUnits::large))]
fn product(number: i64, scale: i128) -> Option<i128>
    ensures some { IfSome result (λ p. p ≡ number *ℤ scale) }
    ensures none { IfNone result (2 ^ 127 ≤ unsigned_abs (number *ℤ scale)) }
{
    match i64::try_from(scale) {
        Ok(scale) => Some(i128::from(number) * i128::from(scale)),
        Err(_) => i128::from(number).checked_mul(scale),
    }
}

/// The coordinate that a number of the grid stands for, if it is one.
#[inline(never)]
#[tactic(auto, using(crate::proofs::FarUnits::product_far, crate::proofs::FarUnits::sum_far), unfolding(crate::specs::TransformNumbers::stands_for))]
fn fine_coordinate_on(
    scale: &TransformNumber,
    translate: &TransformNumber,
    number: i64,
) -> Option<i64>
    ensures some { IfSome result (λ u. (u ≡ stands_for scale.now translate.now number) × (unsigned_abs u ≤ position_limit)) }
    ensures none { IfNone result (position_limit < unsigned_abs (stands_for scale.now translate.now number)) }
{
    let scale = scale.value();
    let translate = translate.value();
    let product = product(number, scale)?;
    let sum = product.checked_add(translate)?;
    coordinate_of(sum)
}

/// What a number of the grid stands for, where scale and translation are whole numbers of units and the sum lies in 64 bits. As nothing
/// has to be rounded there, this is the quicker way.
#[inline(always)]
fn whole_number_on(scale: &TransformNumber, translate: &TransformNumber, number: i64) -> Option<i64>
    ensures { IfSome result (λ u. u ≡ stands_for scale.now translate.now number) }
{
    let product = number.checked_mul(scale.units()?)?;
    product.checked_add(translate.units()?)
}

/// The coordinate that a number of the grid stands for, if it is one.
#[inline(always)]
fn coordinate_on(scale: &TransformNumber, translate: &TransformNumber, number: i64) -> Option<i64>
    ensures some { IfSome result (λ u. (u ≡ stands_for scale.now translate.now number) × (unsigned_abs u ≤ position_limit)) }
    ensures none { IfNone result (position_limit < unsigned_abs (stands_for scale.now translate.now number)) }
{
    let Some(units) = whole_number_on(scale, translate, number) else {
        return fine_coordinate_on(scale, translate, number);
    };
    if units.unsigned_abs() > POSITION_LIMIT {
        return None;
    }
    Some(units)
}

/// The position that a cell stands for, if it is one: with a transform (TopoJSON 1.0, section 2.1.2) each number times the scale and
/// the translation added, rounded to units, halves away from zero.
#[inline(always)]
#[tactic(auto, unfolding(crate::specs::Transforms::placed, crate::specs::Transforms::place_on, crate::specs::Transforms::is_within))]
pub fn placed(transform: Option<&Transform>, cell: Cell) -> Option<Position>
    ensures { result ≡ spec.placed (option_copied transform.entry) cell }
{
    let Some(transform) = transform else {
        return Position::new(cell.x(), cell.y());
    };
    let x = coordinate_on(&transform.scale.0, &transform.translate.0, cell.x())?;
    let y = coordinate_on(&transform.scale.1, &transform.translate.1, cell.y())?;
    Some(Position::at(x, y))
}

/// The greatest number of the grid.
const GRID_END: i64 = GRID_LIMIT as i64;

/// Whether each cell of the grid lies at a position. What a number of the grid stands for is between what the least and the greatest of them
/// stand for, so no other cell is placed.
pub fn places_all_cells(transform: &Transform) -> bool
    ensures { IsTrue result ↔ spec.PlacesAll transform.now }
{
    let least = placed(Some(transform), Cell::at(-GRID_END, -GRID_END));
    let greatest = placed(Some(transform), Cell::at(GRID_END, GRID_END));
    least.is_some() && greatest.is_some()
}

/// Where a cell that may stand in a topology lies.
#[inline(always)]
#[tactic(auto, unfolding(crate::specs::Transforms::placed, crate::specs::Transforms::is_within))]
pub fn position_at(transform: Option<&Transform>, cell: Cell) -> Position
    requires { IsPlace (option_copied transform) cell }
    ensures { result ≡ spec.place (option_copied transform.entry) cell }
{
    match placed(transform, cell) {
        Some(position) => position,
        None => unreachable!(),
    }
}

/// The corner of the lesser numbers of two positions, and that of the greater.
pub fn ordered(one: Position, other: Position) -> (Position, Position)
    ensures { result ≡ widened (Some (one, one)) other }
{
    (
        Position::at(one.x().min(other.x()), one.y().min(other.y())),
        Position::at(one.x().max(other.x()), one.y().max(other.y())),
    )
}

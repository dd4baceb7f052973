// Numbers in whole units of coordinates, and whole numbers.
ghost use Rattle.std.specs.Prelude.{◌≡◌, ◌++◌, ◌*◌, ◌^◌, ◌<◌, ◌≤◌, Bool, Ok, IfSome, unsigned_abs};
ghost use Rattle.decimal_text.specs.Rounding.{signed, rounded_of};
ghost use Rattle.geometry.specs.Units.{units_in_one, input_limit};
ghost use Rattle.unit_scanning.specs.Numbers.{IsUnits, IsWholeNumber, ends};

use crate::cut::cut_units_at;
use crate::digits::{digits_at, fraction_at, is_whole, with_zeros};
use crate::ends::is_end;
use crate::plain::{plain_units_at, whole_digits_at};
use crate::signs::{sign_at, with_sign};
use geometry::{INPUT_LIMIT, PLACES};

/// How many decimals are kept.
const KEPT: usize = PLACES as usize;

/// A number in whole units.
#[derive(Clone, Copy, Debug, PartialEq, Eq)]
pub struct Units {
    pub value: i64,
    /// Nothing was rounded.
    pub exact: bool,
}

/// So many decimals, rounded to those that are kept, halves up, and whether nothing was rounded. None past the limit.
#[inline(always)]
#[tactic(auto, using(crate::proofs::Rounded::whole_units, crate::proofs::Rounded::rounded_units, crate::proofs::Rounded::step_some))]
fn rounded(value: u64, places: usize) -> Option<(u64, bool)>
    requires value { value < 10 ^ 18 }
    requires places { places ≤ 17 }
    ensures value { IfSome result (λ x. (negative : Bool) → rounded_of negative (value * units_in_one) (10 ^ places) input_limit ≡ Ok (record { value = signed negative x.0; exact = x.1 })) }
    ensures small { IfSome result (λ x. x.0 ≤ input_limit) }
{
    if places <= KEPT {
        let size = with_zeros(value, KEPT - places)?;
        return Some((size, true));
    }
    let step = with_zeros(1, places - KEPT)?;
    let size = (2 * value + step) / (2 * step);
    if size > INPUT_LIMIT {
        return None;
    }
    Some((size, value % step == 0))
}

/// The number at the front in whole units, however many digits it has, and what follows it. None where it has an exponent, and where it
/// isn't read this way for its size.
#[cold]
#[inline(never)]
fn any_units_at(bytes: &[u8]) -> Option<(Units, &[u8])>
    ensures units { IfSome result (λ x. IsUnits bytes.now x.0.value x.0.exact x.1.now) }
    ensures within { IfSome result (λ x. unsigned_abs x.0.value ≤ input_limit) }
{
    let (negative, prefix) = sign_at(bytes);
    if !is_whole(prefix) {
        return None;
    }
    let (whole, following) = digits_at(0, prefix)?;
    let (value, places, rest) = fraction_at(whole, following)?;
    if !is_end(rest) {
        return None;
    }
    let (size, exact) = rounded(value, places)?;
    let units = Units {
        value: with_sign(negative, size),
        exact,
    };
    Some((units, rest))
}

/// The number at the front in whole units, however many decimals are written. It stands in the code of its caller: `long_units_at` is a call.
#[inline(always)]
pub fn long_units_in_place(bytes: &[u8]) -> Option<(Units, &[u8])>
    ensures units { IfSome result (λ x. IsUnits bytes.now x.0.value x.0.exact x.1.now) }
    ensures within { IfSome result (λ x. unsigned_abs x.0.value ≤ input_limit) }
{
    if let Some((units, rest)) = cut_units_at(bytes) {
        return Some((units, rest));
    }
    any_units_at(bytes)
}

/// The number at the front in whole units, however many decimals are written. `units_at` is faster where no more are written than are kept.
#[cold]
#[inline(never)]
pub fn long_units_at(bytes: &[u8]) -> Option<(Units, &[u8])>
    ensures units { IfSome result (λ x. IsUnits bytes.now x.0.value x.0.exact x.1.now) }
    ensures within { IfSome result (λ x. unsigned_abs x.0.value ≤ input_limit) }
{
    long_units_in_place(bytes)
}

/// The number at the front in whole units, and what follows it. None where it has an exponent, and where it isn't read this
/// way for its size.
#[inline(always)]
pub fn units_at(bytes: &[u8]) -> Option<(Units, &[u8])>
    ensures units { IfSome result (λ x. IsUnits bytes.now x.0.value x.0.exact x.1.now) }
    ensures within { IfSome result (λ x. unsigned_abs x.0.value ≤ input_limit) }
{
    let Some((value, rest)) = plain_units_at(bytes) else {
        return long_units_at(bytes);
    };
    if !is_end(rest) {
        return long_units_at(bytes);
    }
    let units = Units { value, exact: true };
    Some((units, rest))
}

/// The whole number at the front whose decimals are all zeros, no farther from zero than the limit, and what follows it. None where one is
/// another digit, where it has an exponent, and where it isn't read this way for its size.
#[cold]
#[inline(never)]
#[tactic(auto, using(crate::proofs::NumberParts::number_is_at, crate::proofs::Rounded::step_some, crate::proofs::Rounded::zero_decimals))]
fn whole_decimals_at(limit: u64, bytes: &[u8]) -> Option<(i64, &[u8])>
    requires { limit ≤ 10 ^ 18 }
    ensures whole { IfSome result (λ x. IsWholeNumber limit bytes.now x.0 x.1.now) }
    ensures within { IfSome result (λ x. unsigned_abs x.0 ≤ limit) }
{
    let (negative, prefix) = sign_at(bytes);
    if !is_whole(prefix) {
        return None;
    }
    let (whole, following) = digits_at(0, prefix)?;
    let (value, places, rest) = fraction_at(whole, following)?;
    if !is_end(rest) {
        return None;
    }
    let one = with_zeros(1, places)?;
    let size = value / one;
    if value % one != 0 || size > limit {
        return None;
    }
    Some((with_sign(negative, size), rest))
}

/// The whole number at the front, no farther from zero than the limit, and what follows it. None where a decimal is no zero, where it has an
/// exponent, and where it isn't read this way for its size.
#[inline(always)]
pub fn whole_number_at(limit: u64, bytes: &[u8]) -> Option<(i64, &[u8])>
    requires { limit ≤ 10 ^ 18 }
    ensures whole { IfSome result (λ x. IsWholeNumber limit bytes.now x.0 x.1.now) }
    ensures within { IfSome result (λ x. unsigned_abs x.0 ≤ limit) }
{
    let (negative, prefix) = sign_at(bytes);
    if !is_whole(prefix) {
        return None;
    }
    let (size, rest) = whole_digits_at(prefix)?;
    if !is_end(rest) {
        return whole_decimals_at(limit, bytes);
    }
    if size > limit {
        return None;
    }
    Some((with_sign(negative, size), rest))
}

// Numbers of few digits, with no exponent, as most coordinates are written.
ghost use Rattle.std.specs.Prelude.{◌≡◌, ◌+◌, ◌-◌, ◌*◌, ◌^◌, ◌<◌, ◌≤◌, true, IfSome, unsigned_abs};
ghost use Rattle.json_value.specs.Reading.{after_digits};
ghost use Rattle.decimal_text.specs.Digits.{digits_value_after};
ghost use Rattle.geometry.specs.Units.{input_limit};
ghost use Rattle.unit_scanning.specs.Numbers.{AreDigits, IsDigitFirst, IsFractionOf, IsUnits, digits_prefix, ends};

use crate::digits::{after_byte, digits_at, is_whole, starts_with_digit};
use crate::signs::{sign_at, with_sign};
use geometry::INPUT_LIMIT;

/// How many digits are read this way, before the point and after it.
pub const FEW: usize = 9;

/// The bytes of the longest number that is read this way, and the one after it: a sign, digits, the point and digits again.
pub const LONGEST: usize = 21;

/// The units in one of the last of so many decimals.
const UNITS_OF_PLACE: [u64; 10] = [
    1_000_000_000,
    100_000_000,
    10_000_000,
    1_000_000,
    100_000,
    10_000,
    1_000,
    100,
    10,
    1,
];

/// The value with the digit at the front after it, if there is one, and what follows it.
#[inline(always)]
fn with_digit(value: u64, bytes: &[u8]) -> Option<(u64, &[u8])>
    requires { value ≤ 10 ^ 18 }
    ensures { IfSome result (λ x. IsDigitFirst bytes.now value x.0 x.1.now) }
{
    match bytes {
        [] => None,
        [first, rest @ ..] => {
            let digit = u64::from(*first).wrapping_sub(u64::from(b'0'));
            if digit > 9 {
                return None;
            }
            Some((value * 10 + digit, rest))
        }
    }
}

/// The digits at the front, or the first few of them: what they write after `start`, how many they are, and what follows them.
#[inline(always)]
#[tactic(auto, using(crate::proofs::FewDigits::digits_go_on, crate::proofs::FewDigits::digits_stay_small))]
pub fn few_digits_at(start: u64, bytes: &[u8]) -> (u64, usize, &[u8])
    requires { start < 10 ^ 9 }
    ensures digits { AreDigits bytes.now start result.0 result.1 result.2.now }
    ensures few { result.1 ≤ 9 }
    ensures small { result.0 < (start + 1) * 10 ^ result.1 }
{
    let mut value = start;
    let mut count = 0;
    let mut rest = bytes;
    for _turn in 0..FEW {
        let Some((longer, following)) = with_digit(value, rest) else {
            break;
        };
        value = longer;
        count += 1;
        rest = following;
    }
    (value, count, rest)
}

/// The digits at the front, however many they are: what they write, and what follows them. None past 10^18.
#[cold]
#[inline(never)]
fn many_digits_at(bytes: &[u8]) -> Option<(u64, &[u8])>
    ensures value { IfSome result (λ x. x.0 ≡ digits_value_after 0 (digits_prefix bytes.now)) }
    ensures rest { IfSome result (λ x. x.1.now ≡ after_digits bytes.now) }
    ensures small { IfSome result (λ x. x.0 < 10 ^ 18) }
{
    digits_at(0, bytes)
}

/// The units in one of the last of so many decimals: 10^(9 - places).
#[inline(always)]
pub fn units_of_place(places: usize) -> u64
    requires { places ≤ 9 }
    ensures { result ≡ 10 ^ (9 - places) }
{
    UNITS_OF_PLACE[places]
}

/// A fraction, or the first few digits of it, if there is one: what it writes after `start`, how many digits those are, and what follows
/// them. None where no digit stands after the point.
#[inline(always)]
pub fn few_decimals_at(start: u64, bytes: &[u8]) -> Option<(u64, usize, &[u8])>
    requires { start < 10 ^ 9 }
    ensures fraction { IfSome result (λ x. IsFractionOf bytes.now start x.0 x.1 x.2.now) }
    ensures few { IfSome result (λ x. x.1 ≤ 9) }
    ensures small { IfSome result (λ x. x.0 < 10 ^ 9 * 10 ^ x.1) }
{
    let Some(digits) = after_byte(b'.', bytes) else {
        return Some((start, 0, bytes));
    };
    let (value, places, rest) = few_digits_at(start, digits);
    if places == 0 {
        return None;
    }
    Some((value, places, rest))
}

/// The number at the front in whole units, none of it rounded, and what follows it: it is a number only where that is the end of one.
/// None where it has no digits or very many, and where few bytes follow it.
#[inline(always)]
#[tactic(auto, using(crate::proofs::PlainNumbers::plain_is, crate::proofs::PlainNumbers::product_small))]
pub fn plain_units_at(bytes: &[u8]) -> Option<(i64, &[u8])>
    ensures units { IfSome result (λ x. ends x.1.now ≡ true → IsUnits bytes.now x.0 true x.1.now) }
    ensures within { IfSome result (λ x. unsigned_abs x.0 ≤ input_limit) }
{
    if bytes.len() < LONGEST {
        return None;
    }
    let (negative, prefix) = sign_at(bytes);
    if !is_whole(prefix) {
        return None;
    }
    let (whole, _, following) = few_digits_at(0, prefix);
    let (value, places, rest) = few_decimals_at(whole, following)?;
    let size = value * units_of_place(places);
    if size > INPUT_LIMIT {
        return None;
    }
    Some((with_sign(negative, size), rest))
}

/// The digits at the front: what they write, and what follows them. None past 10^18. A few are read without a look at how many they are.
#[inline(always)]
pub fn whole_digits_at(bytes: &[u8]) -> Option<(u64, &[u8])>
    ensures value { IfSome result (λ x. x.0 ≡ digits_value_after 0 (digits_prefix bytes.now)) }
    ensures rest { IfSome result (λ x. x.1.now ≡ after_digits bytes.now) }
    ensures small { IfSome result (λ x. x.0 < 10 ^ 18) }
{
    if bytes.len() <= FEW {
        return many_digits_at(bytes);
    }
    let (value, _, rest) = few_digits_at(0, bytes);
    if starts_with_digit(rest) {
        return many_digits_at(bytes);
    }
    Some((value, rest))
}

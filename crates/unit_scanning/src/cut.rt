// Numbers of more decimals than are kept, or of fewer, with no exponent.
ghost use Rattle.std.specs.Prelude.{◌≡◌, ◌+◌, ◌*◌, ◌^◌, ◌<◌, ◌≤◌, Bool, Ok, IfSome, unsigned_abs};
ghost use Rattle.decimal_text.specs.Rounding.{nearest, rounded_of, signed};
ghost use Rattle.geometry.specs.Units.{input_limit, units_in_one};
ghost use Rattle.unit_scanning.specs.Numbers.{IsUnits};

use crate::digits::is_whole;
use crate::ends::is_end;
use crate::plain::{FEW, few_decimals_at, few_digits_at, units_of_place};
use crate::signs::{sign_at, with_sign};
use crate::units::Units;
use geometry::INPUT_LIMIT;

/// The bytes of the longest number that is read this way, and the one after it: a sign, digits, the point, and twice digits again.
const LONGEST: usize = 30;

/// Whole units and some parts of one, of which so many are a unit, rounded to units, halves up.
#[inline(always)]
fn nearest_units(units: u64, some: u64, parts: u64) -> u64
    requires units { units < 10 ^ 18 }
    requires some { some < parts }
    requires parts { parts ≤ 10 ^ 9 }
    ensures { result ≡ nearest (units * parts + some) parts }
{
    if 2 * some < parts {
        return units;
    }
    units + 1
}

/// So many decimals, and more after them, rounded to those that are kept, and whether nothing was rounded. None past the limit, and where
/// more decimals stand after fewer than are kept.
#[inline(always)]
#[tactic(auto, using(crate::proofs::CutNumbers::more_rounded, crate::proofs::CutNumbers::none_more, crate::proofs::CutNumbers::parts_are, crate::proofs::PlainNumbers::product_small))]
fn rounded_at(kept: u64, places: usize, cut: u64, more: usize) -> Option<(u64, bool)>
    requires places { places ≤ 9 }
    requires kept { kept < 10 ^ 9 * 10 ^ places }
    requires more { more ≤ 9 }
    requires cut { cut < 10 ^ more }
    ensures value { IfSome result (λ x. (negative : Bool) → rounded_of negative ((kept * 10 ^ more + cut) * units_in_one) (10 ^ (places + more)) input_limit ≡ Ok (record { value = signed negative x.0; exact = x.1 })) }
    ensures small { IfSome result (λ x. x.0 ≤ input_limit) }
    ensures both { IfSome result (λ x. 0 < more → 0 < places) }
{
    if more == 0 {
        let size = kept * units_of_place(places);
        if size > INPUT_LIMIT {
            return None;
        }
        return Some((size, true));
    }
    if places < FEW {
        return None;
    }
    let size = nearest_units(kept, cut, units_of_place(FEW - more));
    if size > INPUT_LIMIT {
        return None;
    }
    Some((size, cut == 0))
}

/// The number at the front in whole units, with no more than twice the decimals that are kept, and what follows it. None where it has an
/// exponent or more digits, and where few bytes follow it.
#[inline(always)]
pub fn cut_units_at(bytes: &[u8]) -> Option<(Units, &[u8])>
    ensures units { IfSome result (λ x. IsUnits bytes.now x.0.value x.0.exact x.1.now) }
    ensures within { IfSome result (λ x. unsigned_abs x.0.value ≤ input_limit) }
{
    if bytes.len() < LONGEST {
        return None;
    }
    let (negative, prefix) = sign_at(bytes);
    if !is_whole(prefix) {
        return None;
    }
    let (whole, _, following) = few_digits_at(0, prefix);
    let (kept, places, next) = few_decimals_at(whole, following)?;
    let (cut, more, rest) = few_digits_at(0, next);
    if !is_end(rest) {
        return None;
    }
    let (size, exact) = rounded_at(kept, places, cut, more)?;
    let units = Units {
        value: with_sign(negative, size),
        exact,
    };
    Some((units, rest))
}

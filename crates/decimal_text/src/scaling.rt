// The parts of a number text as a whole number at some decimal places.
ghost use Rattle.std.specs.Prelude.{◌≡◌, ◌<◌, ◌≤◌, ◌^◌, pos, ◌≤ℤ◌, unsigned_abs};
ghost use Rattle.decimal_text.specs.PartsInCode.{parts_in, HoldsDigits};
ghost use Rattle.decimal_text.specs.Rounding.{Rounds, rounded_of};
ghost use Rattle.decimal_text.specs.Scaling.{denominator, numerator};

use crate::digits::{extend, write_zero};
use crate::num_text::{Range, Scaled};
use crate::number_parts::NumberParts;
use crate::rounding::{Magnitude, shift};

/// An exponent past this one takes a number far above each limit, or far below a half, unless its digits write zero.
const FAR: u128 = 1_000_000_000_000_000_000_000_000_000_000;

/// The magnitude of the number with these parts at `places` decimal places.
fn scaled_magnitude(parts: NumberParts<'_>, places: u32, limit: u128) -> Result<Magnitude, Range>
    requires digits { HoldsDigits parts }
    requires places { places ≤ 20 }
    requires limit { limit ≤ 10 ^ 37 }
    ensures { Rounds (numerator (parts_in parts.entry) places) (denominator (parts_in parts.entry)) limit result }
{
    let NumberParts {
        whole,
        fraction,
        exponent_negative,
        exponent,
        ..
    } = parts;
    let ahead = whole.len() as u128;
    let following = fraction.len() as u128;
    let places = u128::from(places);
    let Ok(e) = extend(0, exponent, FAR) else {
        prove!(ahead + following < FAR);
        if write_zero(whole, fraction) {
            return Ok(Magnitude {
                value: 0,
                exact: true,
            });
        }
        if exponent_negative {
            return Ok(Magnitude {
                value: 0,
                exact: false,
            });
        }
        return Err(Range);
    };
    if exponent_negative {
        shift(whole, fraction, places, following + e, limit)
    } else {
        shift(whole, fraction, places + e, following, limit)
    }
}

/// The number with these parts at `places` decimal places.
pub fn scaled_number(parts: NumberParts<'_>, places: u32, limit: i128) -> Result<Scaled, Range>
    requires digits { HoldsDigits parts }
    requires places { places ≤ 20 }
    requires low { pos 0 ≤ℤ limit }
    requires high { limit ≤ℤ pos (10 ^ 37) }
    ensures { result ≡ rounded_of parts.entry.negative
        (numerator (parts_in parts.entry) places) (denominator (parts_in parts.entry)) (unsigned_abs limit) }
{
    let Ok(found) = scaled_magnitude(parts, places, limit.unsigned_abs()) else {
        return Err(Range);
    };
    let size = found.value as i128;
    Ok(Scaled {
        value: if parts.negative { -size } else { size },
        exact: found.exact,
    })
}

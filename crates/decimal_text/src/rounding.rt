// Digits times a power of ten, rounded.
ghost use Rattle.std.specs.Prelude.{◌≡◌, ℕ, ◌*◌, ◌^◌, ◌<◌, ◌≤◌, ◌++◌, All, length};
ghost use Rattle.decimal_text.specs.Digits.{IsDigit, digits_value};
ghost use Rattle.decimal_text.specs.Rounding.{Rounds};

use crate::digits::{extend, is_half, with_zeros, write_zero};
use crate::num_text::Range;

/// A rounded number without its sign.
#[derive(Clone, Copy, Debug, PartialEq, Eq)]
pub struct Magnitude {
    pub value: u128,
    /// Nothing was rounded.
    pub exact: bool,
}

/// The number that the kept digits write, rounded by the cut ones.
fn cut_at(
    kept_whole: &[u8],
    kept_fraction: &[u8],
    cut_whole: &[u8],
    cut_fraction: &[u8],
    limit: u128,
) -> Result<Magnitude, Range>
    requires kept_whole { All IsDigit kept_whole.now }
    requires kept_fraction { All IsDigit kept_fraction.now }
    requires cut_whole { All IsDigit cut_whole.now }
    requires cut_fraction { All IsDigit cut_fraction.now }
    requires some { 0 < length (cut_whole.now ++ cut_fraction.now) }
    requires limit { limit ≤ 10 ^ 37 }
    ensures { Rounds (digits_value ((kept_whole.now ++ kept_fraction.now) ++ (cut_whole.now ++ cut_fraction.now)))
        (10 ^ length (cut_whole.now ++ cut_fraction.now)) limit result }
{
    let Ok(prefix) = extend(0, kept_whole, limit) else {
        return Err(Range);
    };
    let Ok(down) = extend(prefix, kept_fraction, limit) else {
        return Err(Range);
    };
    let exact = write_zero(cut_whole, cut_fraction);
    if !is_half(cut_whole, cut_fraction) {
        return Ok(Magnitude { value: down, exact });
    }
    if down == limit {
        return Err(Range);
    }
    Ok(Magnitude {
        value: down + 1,
        exact,
    })
}

/// The digits' number with zeros after it.
fn shift_left(whole: &[u8], fraction: &[u8], zeros: u128, limit: u128) -> Result<Magnitude, Range>
    requires whole { All IsDigit whole.now }
    requires fraction { All IsDigit fraction.now }
    requires limit { limit ≤ 10 ^ 37 }
    ensures { Rounds (digits_value (whole.now ++ fraction.now) * 10 ^ zeros) 1 limit result }
{
    let Ok(prefix) = extend(0, whole, limit) else {
        return Err(Range);
    };
    let Ok(value) = extend(prefix, fraction, limit) else {
        return Err(Range);
    };
    let Ok(value) = with_zeros(value, zeros, limit) else {
        return Err(Range);
    };
    Ok(Magnitude { value, exact: true })
}

/// The digits' number with its last `cut` digits, one or more, after the point.
fn shift_right(whole: &[u8], fraction: &[u8], cut: u128, limit: u128) -> Result<Magnitude, Range>
    requires whole { All IsDigit whole.now }
    requires fraction { All IsDigit fraction.now }
    requires cut { 0 < cut }
    requires limit { limit ≤ 10 ^ 37 }
    ensures { Rounds (digits_value (whole.now ++ fraction.now)) (10 ^ cut) limit result }
{
    let ahead = whole.len() as u128;
    let total = ahead + fraction.len() as u128;
    if cut > total {
        return Ok(Magnitude {
            value: 0,
            exact: write_zero(whole, fraction),
        });
    }
    let keep = total - cut;
    if keep <= ahead {
        let (kept, rest) = whole.split_at(keep as usize);
        cut_at(kept, &[], rest, fraction, limit)
    } else {
        let (kept, rest) = fraction.split_at((keep - ahead) as usize);
        cut_at(whole, kept, &[], rest, limit)
    }
}

/// The digits' number times `10^up` through `10^down`.
pub fn shift(
    whole: &[u8],
    fraction: &[u8],
    up: u128,
    down: u128,
    limit: u128,
) -> Result<Magnitude, Range>
    requires whole { All IsDigit whole.now }
    requires fraction { All IsDigit fraction.now }
    requires limit { limit ≤ 10 ^ 37 }
    ensures { Rounds (digits_value (whole.now ++ fraction.now) * 10 ^ up) (10 ^ down) limit result }
{
    if up >= down {
        shift_left(whole, fraction, up - down, limit)
    } else {
        shift_right(whole, fraction, down - up, limit)
    }
}

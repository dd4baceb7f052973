// Digits, walked once.
ghost use Rattle.std.specs.Prelude.{◌≡◌, ℕ, ◌+◌, ◌*◌, ◌^◌, ◌<◌, ◌≤◌, ◌↔◌, ◌++◌, All, IfOk, OnErr, IsTrue, length, slice_index};
ghost use Rattle.decimal_text.specs.Digits.{IsDigit, digits_value_after, digits_value};

use crate::num_text::Range;

/// Up to here a limit and ten times a number within it lie in 64 bits, whose arithmetic is the faster.
const SMALL: u128 = 1_000_000_000_000_000_000;

/// As `extend`, with a small limit.
#[tactic(auto, using(crate::proofs::DigitsValue::past_limit))]
fn extend_small(start: u64, digits: &[u8], limit: u64) -> Result<u64, Range>
    requires digits { All IsDigit digits.now }
    requires limit { limit ≤ 10 ^ 18 }
    requires start { start ≤ limit }
    ensures value { IfOk result (λ v. v ≡ digits_value_after start digits.now) }
    ensures ok { IfOk result (λ v. v ≤ limit) }
    ensures err { OnErr result (limit < digits_value_after start digits.now) }
{
    let mut value = start;
    for c in digits {
        value = value * 10 + u64::from(*c - b'0');
        if value > limit {
            return Err(Range);
        }
    }
    Ok(value)
}

/// As `extend`, with any limit.
#[tactic(auto, using(crate::proofs::DigitsValue::past_limit))]
fn extend_large(start: u128, digits: &[u8], limit: u128) -> Result<u128, Range>
    requires digits { All IsDigit digits.now }
    requires limit { limit ≤ 10 ^ 37 }
    requires start { start ≤ limit }
    ensures value { IfOk result (λ v. v ≡ digits_value_after start digits.now) }
    ensures ok { IfOk result (λ v. v ≤ limit) }
    ensures err { OnErr result (limit < digits_value_after start digits.now) }
{
    let mut value = start;
    for c in digits {
        value = value * 10 + u128::from(*c - b'0');
        if value > limit {
            return Err(Range);
        }
    }
    Ok(value)
}

/// The number that digits write after those of `start`, if it is no more than `limit`.
pub fn extend(start: u128, digits: &[u8], limit: u128) -> Result<u128, Range>
    requires digits { All IsDigit digits.now }
    requires limit { limit ≤ 10 ^ 37 }
    requires start { start ≤ limit }
    ensures value { IfOk result (λ v. v ≡ digits_value_after start digits.now) }
    ensures ok { IfOk result (λ v. v ≤ limit) }
    ensures err { OnErr result (limit < digits_value_after start digits.now) }
{
    if limit > SMALL {
        return extend_large(start, digits, limit);
    }
    match extend_small(start as u64, digits, limit as u64) {
        Ok(value) => Ok(u128::from(value)),
        Err(Range) => Err(Range),
    }
}

/// As `with_zeros`, with a small limit.
#[tactic(auto, using(crate::proofs::DigitsValue::past_zeros, crate::proofs::DigitsValue::more_zeros))]
fn with_zeros_small(start: u64, zeros: u128, limit: u64) -> Result<u64, Range>
    requires limit { limit ≤ 10 ^ 18 }
    requires start { start ≤ limit }
    ensures value { IfOk result (λ v. v ≡ start * 10 ^ zeros) }
    ensures ok { IfOk result (λ v. v ≤ limit) }
    ensures err { OnErr result (limit < start * 10 ^ zeros) }
{
    if start == 0 {
        return Ok(0);
    }
    let mut value = start;
    for _done in 0..zeros {
        value *= 10;
        if value > limit {
            return Err(Range);
        }
    }
    Ok(value)
}

/// As `with_zeros`, with any limit.
#[tactic(auto, using(crate::proofs::DigitsValue::past_zeros, crate::proofs::DigitsValue::more_zeros))]
fn with_zeros_large(start: u128, zeros: u128, limit: u128) -> Result<u128, Range>
    requires limit { limit ≤ 10 ^ 37 }
    requires start { start ≤ limit }
    ensures value { IfOk result (λ v. v ≡ start * 10 ^ zeros) }
    ensures ok { IfOk result (λ v. v ≤ limit) }
    ensures err { OnErr result (limit < start * 10 ^ zeros) }
{
    if start == 0 {
        return Ok(0);
    }
    let mut value = start;
    for _done in 0..zeros {
        value *= 10;
        if value > limit {
            return Err(Range);
        }
    }
    Ok(value)
}

/// The number with this many zeros after it, if it is no more than `limit`.
pub fn with_zeros(start: u128, zeros: u128, limit: u128) -> Result<u128, Range>
    requires limit { limit ≤ 10 ^ 37 }
    requires start { start ≤ limit }
    ensures value { IfOk result (λ v. v ≡ start * 10 ^ zeros) }
    ensures ok { IfOk result (λ v. v ≤ limit) }
    ensures err { OnErr result (limit < start * 10 ^ zeros) }
{
    if limit > SMALL {
        return with_zeros_large(start, zeros, limit);
    }
    match with_zeros_small(start as u64, zeros, limit as u64) {
        Ok(value) => Ok(u128::from(value)),
        Err(Range) => Err(Range),
    }
}

/// All digits are zeros.
fn all_zeros(digits: &[u8]) -> bool
    ensures { IsTrue result ↔ All (λ c. c ≡ 48) digits.now }
{
    digits.iter().all(|c| *c == b'0')
}

/// The digits of both, one after the other, write zero.
pub fn write_zero(whole: &[u8], fraction: &[u8]) -> bool
    requires whole { All IsDigit whole.now }
    requires fraction { All IsDigit fraction.now }
    ensures { IsTrue result ↔ (digits_value (whole.now ++ fraction.now) ≡ 0) }
{
    all_zeros(whole) && all_zeros(fraction)
}

/// The first digit of the two.
fn first_of(whole: &[u8], fraction: &[u8]) -> u8
    requires { 0 < length (whole.now ++ fraction.now) }
    ensures { result ≡ slice_index (whole.now ++ fraction.now) 0 }
{
    match whole.first() {
        Some(c) => *c,
        None => fraction[0],
    }
}

/// The digits that are cut off make a half or more.
pub fn is_half(cut_whole: &[u8], cut_fraction: &[u8]) -> bool
    requires cut_whole { All IsDigit cut_whole.now }
    requires cut_fraction { All IsDigit cut_fraction.now }
    requires some { 0 < length (cut_whole.now ++ cut_fraction.now) }
    ensures { IsTrue result ↔ (10 ^ length (cut_whole.now ++ cut_fraction.now)
        ≤ 2 * digits_value (cut_whole.now ++ cut_fraction.now)) }
{
    first_of(cut_whole, cut_fraction) >= b'5'
}

// Numbers (RFC 8259, section 6).
ghost use Rattle.std.specs.Prelude.{◌≡◌};
ghost use Rattle.json_reading.specs.Gives.{Gives};
ghost use Rattle.json_value.specs.Reading as spec;

use crate::bytes::next;
use crate::fault::{Fault, stopped};
use decimal_text::NumText;
use std::alloc::Global;

#[tactic(auto, unfolding(json_value::specs::Reading::after_digits))]
fn after_digits(bytes: &[u8]) -> &[u8]
    ensures { result.now ≡ spec.after_digits bytes.now }
{
    let mut rest = bytes;
    while let [b'0'..=b'9', more @ ..] = rest {
        rest = more;
    }
    rest
}

#[tactic(auto, unfolding(json_value::specs::Reading::after_some_digits))]
fn after_some_digits(bytes: &[u8]) -> Result<&[u8], Fault>
    ensures { Gives (λ x. x.now) result (spec.after_some_digits bytes.now) }
{
    match bytes {
        [b'0'..=b'9', rest @ ..] => Ok(after_digits(rest)),
        _ => Err(stopped(bytes)),
    }
}

#[tactic(auto, unfolding(json_value::specs::Reading::after_minus))]
fn after_minus(bytes: &[u8]) -> &[u8]
    ensures { result.now ≡ spec.after_minus bytes.now }
{
    match bytes {
        [b'-', rest @ ..] => rest,
        _ => bytes,
    }
}

#[tactic(auto, using(crate::proofs::Steps::none_fails, crate::proofs::NumbersRead::whole_none, crate::proofs::NumbersRead::whole_by_zero, crate::proofs::NumbersRead::whole_by_digits))]
fn after_whole(bytes: &[u8]) -> Result<&[u8], Fault>
    ensures { Gives (λ x. x.now) result (spec.after_whole bytes.now) }
{
    let Some((first, rest)) = next(bytes) else {
        return Err(stopped(bytes));
    };
    if first == b'0' {
        return Ok(rest);
    }
    after_some_digits(bytes)
}

#[tactic(auto, unfolding(json_value::specs::Reading::after_fraction))]
fn after_fraction(bytes: &[u8]) -> Result<&[u8], Fault>
    ensures { Gives (λ x. x.now) result (spec.after_fraction bytes.now) }
{
    match bytes {
        [b'.', rest @ ..] => after_some_digits(rest),
        _ => Ok(bytes),
    }
}

#[tactic(auto, unfolding(json_value::specs::Reading::after_sign))]
fn after_sign(bytes: &[u8]) -> &[u8]
    ensures { result.now ≡ spec.after_sign bytes.now }
{
    match bytes {
        [b'+' | b'-', rest @ ..] => rest,
        _ => bytes,
    }
}

#[tactic(auto, unfolding(json_value::specs::Reading::after_exponent))]
fn after_exponent(bytes: &[u8]) -> Result<&[u8], Fault>
    ensures { Gives (λ x. x.now) result (spec.after_exponent bytes.now) }
{
    match bytes {
        [b'e' | b'E', rest @ ..] => after_some_digits(after_sign(rest)),
        _ => Ok(bytes),
    }
}

/// What follows the number at the front.
#[inline(always)]
#[tactic(auto, unfolding(json_value::specs::Reading::after_number))]
pub fn after_number(bytes: &[u8]) -> Result<&[u8], Fault>
    ensures { Gives (λ x. x.now) result (spec.after_number bytes.now) }
{
    let rest = after_whole(after_minus(bytes))?;
    let rest = after_fraction(rest)?;
    after_exponent(rest)
}

/// The number at the front, by its text, and what follows it.
#[tactic(auto, using(crate::proofs::NumbersRead::shorter, crate::proofs::NumbersRead::prefix_number), unfolding(json_value::specs::Reading::number_at))]
pub fn number_at<'a>(alloc: Global, bytes: &'a [u8]) -> Result<(NumText, &'a [u8]), Fault>
    ensures { Gives (λ x. (x.0, x.1.now)) result (spec.number_at bytes.now) }
{
    let rest = after_number(bytes)?;
    let number = NumText::prefix(alloc, bytes, bytes.len() - rest.len())?;
    Ok((number, rest))
}

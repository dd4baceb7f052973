// Digits at the front of bytes.
ghost use Rattle.std.specs.Prelude.{◌≡◌, ◌∷◌, ◌*◌, ◌^◌, ◌<◌, ◌≤◌, IfSome};
ghost use Rattle.json_value.specs.Reading.{after_digits};
ghost use Rattle.decimal_text.specs.Digits.{digits_value_after};
ghost use Rattle.decimal_text.specs.Grammar as grammar;
ghost use Rattle.geometry.specs.Units.{input_limit};
ghost use Rattle.unit_scanning.specs.Numbers.{digits_prefix, IsFractionOf, starts_digit, whole_prefix};

use geometry::INPUT_LIMIT;

/// A number that may have one more digit.
const ROOM: u64 = 100_000_000_000_000_000;

/// How many decimals are read this way.
const MOST_PLACES: usize = 17;

/// A number that may have one more zero after it.
const ROOM_FOR_ZERO: u64 = INPUT_LIMIT / 10;

/// What follows the byte, where it is first.
#[inline(always)]
pub fn after_byte(byte: u8, bytes: &[u8]) -> Option<&[u8]>
    ensures { IfSome result (λ rest. bytes.now ≡ byte ∷ rest.now) }
{
    match bytes {
        [] => None,
        [first, rest @ ..] => { if *first == byte { Some(rest) } else { None } }
    }
}

#[inline(always)]
fn is_digit(byte: u8) -> bool
    ensures { result ≡ grammar.is_digit byte }
{
    byte >= b'0' && byte <= b'9'
}

/// The number that the digits at the front write after those of `start`, and what follows them. None past 10^18.
#[inline(always)]
#[tactic(auto, unfolding(crate::specs::Numbers::digits_prefix, json_value::specs::Reading::after_digits))]
pub fn digits_at(start: u64, bytes: &[u8]) -> Option<(u64, &[u8])>
    requires { start < 10 ^ 18 }
    ensures value { IfSome result (λ x. x.0 ≡ digits_value_after start (digits_prefix bytes.now)) }
    ensures rest { IfSome result (λ x. x.1.now ≡ after_digits bytes.now) }
    ensures small { IfSome result (λ x. x.0 < 10 ^ 18) }
{
    let mut value = start;
    let mut rest = bytes;
    while let [first, more @ ..] = rest {
        if !is_digit(*first) {
            break;
        }
        if value >= ROOM {
            return None;
        }
        value = value * 10 + u64::from(*first - b'0');
        rest = more;
    }
    Some((value, rest))
}

/// Whether there is a first byte and it is a digit.
#[inline(always)]
pub fn starts_with_digit(bytes: &[u8]) -> bool
    ensures { result ≡ starts_digit bytes.now }
{
    match bytes {
        [] => false,
        [first, ..] => is_digit(*first),
    }
}

/// The digits at the front are a whole part: one or more, and no zero before another.
#[inline(always)]
pub fn is_whole(bytes: &[u8]) -> bool
    ensures { result ≡ whole_prefix bytes.now }
{
    match bytes {
        [] => false,
        [first, rest @ ..] => {
            if *first == b'0' {
                !starts_with_digit(rest)
            } else {
                is_digit(*first)
            }
        }
    }
}

/// A fraction, if there is one: what it writes after `start`, how many digits it has, and what follows it.
#[inline(always)]
#[tactic(auto, using(crate::proofs::NumberParts::fraction_found, crate::proofs::NumberParts::rest_shorter))]
pub fn fraction_at(start: u64, bytes: &[u8]) -> Option<(u64, usize, &[u8])>
    requires { start < 10 ^ 18 }
    ensures fraction { IfSome result (λ x. IsFractionOf bytes.now start x.0 x.1 x.2.now) }
    ensures places { IfSome result (λ x. x.1 ≤ 17) }
    ensures small { IfSome result (λ x. x.0 < 10 ^ 18) }
{
    let Some(digits) = after_byte(b'.', bytes) else {
        return Some((start, 0, bytes));
    };
    let (value, rest) = digits_at(start, digits)?;
    let places = digits.len() - rest.len();
    if places == 0 || places > MOST_PLACES {
        return None;
    }
    Some((value, places, rest))
}

/// The number with so many zeros after it. None past the limit of coordinates that are read.
#[inline(always)]
#[tactic(auto, using(decimal_text::proofs::DigitsValue::more_zeros))]
pub fn with_zeros(start: u64, zeros: usize) -> Option<u64>
    requires { start < 10 ^ 18 }
    ensures value { IfSome result (λ v. v ≡ start * 10 ^ zeros) }
    ensures small { IfSome result (λ v. v ≤ input_limit) }
{
    let mut value = start;
    for _done in 0..zeros {
        if value > ROOM_FOR_ZERO {
            return None;
        }
        value *= 10;
    }
    if value > INPUT_LIMIT {
        return None;
    }
    Some(value)
}

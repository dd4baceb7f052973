// A number text taken apart, from left to right.
ghost use Rattle.std.specs.Prelude.{◌≡◌, ◌≤◌, All, length, Some, None, IfSome, IfNone};
ghost use Rattle.std.specs.List.{prefix_len};
ghost use Rattle.decimal_text.specs.Grammar.{is_digit};
ghost use Rattle.decimal_text.specs.Digits.{IsDigit, leading_digits, after_digits};
ghost use Rattle.decimal_text.specs.Parts.{all_digits_of, exponent_of, fraction_of, is_whole as whole_test, parts_of, signed_digits_of, unsigned_of};
ghost use Rattle.decimal_text.specs.PartsInCode.{parts_in, HoldsDigits};

/// How many digits the bytes begin with.
fn digits_len(bytes: &[u8]) -> usize
    ensures value { result ≡ prefix_len is_digit bytes.now }
    ensures within { result ≤ length bytes.now }
{
    for (i, c) in bytes.iter().enumerate() {
        if !c.is_ascii_digit() {
            return i;
        }
    }
    bytes.len()
}

/// The digits that the bytes begin with, and what follows them.
fn split_digits(bytes: &[u8]) -> (&[u8], &[u8])
    ensures prefix { result.0.now ≡ leading_digits bytes.now }
    ensures after { result.1.now ≡ after_digits bytes.now }
    ensures digits { All IsDigit result.0.now }
{
    bytes.split_at(digits_len(bytes))
}

/// A fraction's digits at the front, and what follows them.
fn fraction(bytes: &[u8]) -> Option<(&[u8], &[u8])>
    ensures none { IfNone result (fraction_of bytes.now ≡ None) }
    ensures some { IfSome result (λ p. fraction_of bytes.now ≡ Some (p.0.now, p.1.now)) }
    ensures digits { IfSome result (λ p. All IsDigit p.0.now) }
{
    match bytes.split_first() {
        Some((b'.', rest)) => {
            let (digits, rest) = split_digits(rest);
            if digits.is_empty() {
                return None;
            }
            Some((digits, rest))
        }
        _ => Some((&[], bytes)),
    }
}

/// Digits and nothing else.
fn all_digits(bytes: &[u8]) -> Option<&[u8]>
    ensures none { IfNone result (all_digits_of bytes.now ≡ None) }
    ensures some { IfSome result (λ p. all_digits_of bytes.now ≡ Some p.now) }
    ensures digits { IfSome result (λ p. All IsDigit p.now) }
{
    let (digits, rest) = split_digits(bytes);
    if digits.is_empty() || !rest.is_empty() {
        return None;
    }
    Some(digits)
}

/// An exponent's sign and digits.
fn signed_digits(bytes: &[u8]) -> Option<(bool, &[u8])>
    ensures none { IfNone result (signed_digits_of bytes.now ≡ None) }
    ensures some { IfSome result (λ p. signed_digits_of bytes.now ≡ Some (p.0, p.1.now)) }
    ensures digits { IfSome result (λ p. All IsDigit p.1.now) }
{
    match bytes.split_first() {
        Some((b'-', rest)) => Some((true, all_digits(rest)?)),
        Some((b'+', rest)) => Some((false, all_digits(rest)?)),
        _ => Some((false, all_digits(bytes)?)),
    }
}

/// An exponent, if there is one, and nothing else.
fn exponent(bytes: &[u8]) -> Option<(bool, &[u8])>
    ensures none { IfNone result (exponent_of bytes.now ≡ None) }
    ensures some { IfSome result (λ p. exponent_of bytes.now ≡ Some (p.0, p.1.now)) }
    ensures digits { IfSome result (λ p. All IsDigit p.1.now) }
{
    match bytes.split_first() {
        Some((b'e' | b'E', rest)) => signed_digits(rest),
        Some(_) => None,
        None => Some((false, &[])),
    }
}

/// The parts of a number text: the digits before and after the point, and the exponent's digits.
#[derive(Clone, Copy)]
pub struct NumberParts<'a> {
    pub negative: bool,
    pub whole: &'a [u8],
    pub fraction: &'a [u8],
    /// The exponent is negative.
    pub exponent_negative: bool,
    pub exponent: &'a [u8],
}

/// One digit, or more that do not begin with a zero.
fn is_whole(digits: &[u8]) -> bool
    ensures { result ≡ whole_test digits.now }
{
    match digits {
        [] => false,
        [_] => true,
        [first, ..] => *first != b'0',
    }
}

/// The parts of a number without a sign.
fn split_unsigned(negative: bool, bytes: &[u8]) -> Option<NumberParts<'_>>
    ensures none { IfNone result (unsigned_of negative bytes.now ≡ None) }
    ensures some { IfSome result (λ p. unsigned_of negative bytes.now ≡ Some (parts_in p)) }
    ensures digits { IfSome result HoldsDigits }
{
    let (whole, rest) = split_digits(bytes);
    if !is_whole(whole) {
        return None;
    }
    let (fraction, rest) = fraction(rest)?;
    let (exponent_negative, exponent) = exponent(rest)?;
    Some(NumberParts {
        negative,
        whole,
        fraction,
        exponent_negative,
        exponent,
    })
}

/// The parts of a number text, if it is one.
pub fn split_number(bytes: &[u8]) -> Option<NumberParts<'_>>
    ensures none { IfNone result (parts_of bytes.now ≡ None) }
    ensures some { IfSome result (λ p. parts_of bytes.now ≡ Some (parts_in p)) }
    ensures digits { IfSome result HoldsDigits }
{
    match bytes.split_first() {
        Some((b'-', rest)) => split_unsigned(true, rest),
        Some(_) => split_unsigned(false, bytes),
        None => None,
    }
}

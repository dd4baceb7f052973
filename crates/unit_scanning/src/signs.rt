// Signs of numbers.
ghost use Rattle.std.specs.Prelude.{◌≡◌, ◌++◌, ◌^◌, ◌≤◌, unsigned_abs};
ghost use Rattle.decimal_text.specs.Parts.{sign_text};
ghost use Rattle.decimal_text.specs.Rounding.{signed};

/// What is after a minus sign, if there is one.
#[inline(always)]
pub fn sign_at(bytes: &[u8]) -> (bool, &[u8])
    ensures { bytes.now ≡ sign_text result.0 ++ result.1.now }
{
    match bytes {
        [b'-', rest @ ..] => (true, rest),
        _ => (false, bytes),
    }
}

/// The number with a sign.
#[inline(always)]
pub fn with_sign(negative: bool, size: u64) -> i64
    requires { size ≤ 10 ^ 18 }
    ensures value { result ≡ signed negative size }
    ensures within { unsigned_abs result ≤ size }
{
    if negative {
        -(size as i64)
    } else {
        size as i64
    }
}

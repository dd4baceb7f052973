ghost use Rattle.std.specs.Prelude.{◌≡◌};

use std::marker::Model;

/// How many numbers have the same upper half.
const LOWER: u128 = 18446744073709551616;

/// An unsigned number in two halves, which takes 16 bytes at any multiple of eight: a `u128` begins at multiples of sixteen only, and
/// makes what it stands in larger.
#[derive(Clone, Copy, Debug)]
pub struct Halves {
    upper: u64,
    lower: u64,
}

impl Model for Halves {
    ghost use Rattle.std.specs.Prelude.{ℕ, ◌+◌, ◌*◌, ◌/◌, ◌%◌, ◌^◌, ◌<◌};
    ghost use Rattle.std.proofs.Common.{◌≡◌, arith};

    ghost Value = { ℕ };

    ghost view = { λ h. h.upper * 2 ^ 64 + h.lower };

    ghost invariant = { λ h. h.lower < 2 ^ 64 };

    ghost inverse = { λ n. record { upper = n / 2 ^ 64; lower = n % 2 ^ 64 } };

    ghost inverse_ok = { λ h below.
        let upper : (h.upper * 2 ^ 64 + h.lower) / 2 ^ 64 ≡ h.upper = omega (arith, below) in
        let lower : (h.upper * 2 ^ 64 + h.lower) % 2 ^ 64 ≡ h.lower = omega (arith, below) in
        λ i. record { upper = upper i; lower = lower i } };
}

impl Halves {
    /// The halves of a number.
    pub fn of(number: u128) -> Halves
        ensures { result ≡ number }
    {
        Halves {
            upper: (number / LOWER) as u64,
            lower: (number % LOWER) as u64,
        }
    }

    /// The number.
    pub fn number(self) -> u128
        ensures { result ≡ self }
    {
        self.upper as u128 * LOWER + self.lower as u128
    }
}

// Division by a number that is divided by again and again.
ghost use Rattle.std.specs.Prelude.{◌≡◌, ℕ, ◌*◌, ◌/◌, ◌^◌, ◌≤◌};
ghost use Rattle.grid_snap.specs.Inverses.{IsInverse, IsNearQuotient};

/// 2^64 over a divisor, rounded up.
pub(crate) fn inverse(divisor: u64) -> u64
    requires { 2 ≤ divisor }
    ensures { IsInverse divisor result }
{
    u64::MAX / divisor + 1
}

/// How often the divisor of an inverse goes into a number, or one more. Of a multiple of the divisor it is right.
#[tactic(auto, using(crate::proofs::Inverses::near_of, crate::proofs::Inverses::exact_of))]
pub(crate) fn near_quotient(n: u64, inverse: u64) -> u64
    ensures near { (divisor : ℕ) → IsInverse divisor inverse → IsNearQuotient n divisor result }
    ensures exact { (divisor k : ℕ) → IsInverse divisor inverse → n ≡ k * divisor → result ≡ k }
{
    ((u128::from(n) * u128::from(inverse)) >> 64) as u64
}

/// The whole part of a number over a divisor whose inverse is known. Products take less time than a division.
#[tactic(auto, using(crate::proofs::Inverses::right_if_less))]
pub(crate) fn quotient(n: u64, divisor: u64, inverse: u64) -> u64
    requires inverse { IsInverse divisor inverse }
    requires few { divisor ≤ 2 ^ 63 }
    ensures { result ≡ n / divisor }
{
    let near = near_quotient(n, inverse);
    // Where it is one more, what is left of the number is below zero, and wraps round to more than the divisor.
    if n.wrapping_sub(near.wrapping_mul(divisor)) < divisor {
        near
    } else {
        near - 1
    }
}

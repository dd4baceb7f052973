// Numbers and positions that stand in the shortest way, as what is written of them.
ghost use Rattle.std.specs.Prelude.{◌≡◌, ◌++◌, ◌≤◌, IfSome, codes, unsigned_abs};
ghost use Rattle.decimal_text.specs.Scaling.{units_text};
ghost use Rattle.geometry.specs.Units.{input_limit, unit_places};

use crate::digits::{after_byte, is_whole};
use crate::plain::{LONGEST, few_decimals_at, few_digits_at, units_of_place};
use crate::signs::{sign_at, with_sign};
use geometry::INPUT_LIMIT;

/// The least decimal at the front in whole units, and what follows it. None where the number isn't written in the shortest way, and where it has
/// more than a few digits.
#[inline(always)]
#[tactic(auto, using(crate::proofs::LeastTexts::least_text, crate::proofs::PlainNumbers::product_small))]
fn least_number_at(bytes: &[u8]) -> Option<(i64, &[u8])>
    ensures text { IfSome result (λ x. bytes.now ≡ units_text x.0 unit_places ++ x.1.now) }
    ensures within { IfSome result (λ x. unsigned_abs x.0 ≤ input_limit) }
{
    let (negative, prefix) = sign_at(bytes);
    if !is_whole(prefix) {
        return None;
    }
    let (whole, count, following) = few_digits_at(0, prefix);
    if count == 0 {
        return None;
    }
    let (kept, places, rest) = few_decimals_at(whole, following)?;
    if places > 0 && kept % 10 == 0 {
        return None;
    }
    let size = kept * units_of_place(places);
    if size > INPUT_LIMIT || negative && size == 0 {
        return None;
    }
    Some((with_sign(negative, size), rest))
}

/// The same, where few bytes are left.
#[cold]
#[inline(never)]
fn last_number_at(bytes: &[u8]) -> Option<(i64, &[u8])>
    ensures text { IfSome result (λ x. bytes.now ≡ units_text x.0 unit_places ++ x.1.now) }
    ensures within { IfSome result (λ x. unsigned_abs x.0 ≤ input_limit) }
{
    least_number_at(bytes)
}

/// The same. Where the longest number has room, no byte of it is looked for.
#[inline(always)]
fn least_units_at(bytes: &[u8]) -> Option<(i64, &[u8])>
    ensures text { IfSome result (λ x. bytes.now ≡ units_text x.0 unit_places ++ x.1.now) }
    ensures within { IfSome result (λ x. unsigned_abs x.0 ≤ input_limit) }
{
    if bytes.len() < LONGEST {
        return last_number_at(bytes);
    }
    least_number_at(bytes)
}

/// The position at the front in whole units, where it is written in the shortest way: in brackets, with no white space, as two least decimals
/// without exponent, and nothing else; and what follows it. None where it isn't, and where a number has more than a few digits.
#[inline(always)]
#[tactic(auto, using(crate::proofs::LeastTexts::least_pair_text))]
pub fn least_pair_at(bytes: &[u8]) -> Option<(i64, i64, &[u8])>
    ensures text { IfSome result (λ p. bytes.now ≡ (codes "[" ++ (units_text p.0 unit_places ++ (codes "," ++ (units_text p.1 unit_places ++ codes "]")))) ++ p.2.now) }
    ensures first { IfSome result (λ p. unsigned_abs p.0 ≤ input_limit) }
    ensures second { IfSome result (λ p. unsigned_abs p.1 ≤ input_limit) }
{
    let inside = after_byte(b'[', bytes)?;
    let (x, after) = least_units_at(inside)?;
    let further = after_byte(b',', after)?;
    let (y, following) = least_units_at(further)?;
    let rest = after_byte(b']', following)?;
    Some((x, y, rest))
}

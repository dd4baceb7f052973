// Pairs of numbers, as positions and cells are mostly written.
ghost use Rattle.std.specs.Prelude.{◌≡◌, ◌∷◌, ◌^◌, ◌≤◌, if◌then◌else◌, IfSome, unsigned_abs};
ghost use Rattle.json_value.specs.Reading as reading;
ghost use Rattle.geometry.specs.Units.{input_limit};
ghost use Rattle.unit_scanning.specs.Numbers.{IsWholeNumber};
ghost use Rattle.unit_scanning.specs.Pairs.{ArePlainPair, ArePlainUnits};

use crate::digits::after_byte;
use crate::plain::plain_units_at;
use crate::units::whole_number_at;
use json_reading::skip;

/// What stands after the second number: whether more elements follow, and what follows the comma or the bracket. A bracket with no white space
/// before it is looked for first.
#[inline(always)]
#[tactic(auto, unfolding(json_value::specs::Reading::skip))]
fn closing_at(bytes: &[u8]) -> Option<(bool, &[u8])>
    ensures { IfSome result (λ x. reading.skip bytes.now ≡ (if x.0 then 44 else 93) ∷ x.1.now) }
{
    if let Some(rest) = after_byte(b']', bytes) {
        return Some((false, rest));
    }
    let mark = skip(bytes);
    if let Some(rest) = after_byte(b']', mark) {
        return Some((false, rest));
    }
    let rest = after_byte(b',', mark)?;
    Some((true, rest))
}

/// Two numbers of few digits in whole units with a comma between them, as most positions are written, none of them rounded; whether more
/// elements follow, and what follows the comma or the bracket after them.
#[inline(always)]
pub fn units_pair_at(bytes: &[u8]) -> Option<(i64, i64, bool, &[u8])>
    ensures pair { IfSome result (λ p. ArePlainPair ArePlainUnits bytes.now p.0 p.1 p.2 p.3.now) }
    ensures first { IfSome result (λ p. unsigned_abs p.0 ≤ input_limit) }
    ensures second { IfSome result (λ p. unsigned_abs p.1 ≤ input_limit) }
{
    let (x, after) = plain_units_at(skip(bytes))?;
    let further = after_byte(b',', after)?;
    let (y, following) = plain_units_at(skip(further))?;
    let (more, rest) = closing_at(following)?;
    Some((x, y, more, rest))
}

/// Two whole numbers with a comma between them, no farther from zero than the limit, whether more elements follow, and what follows the comma
/// or the bracket after them.
#[inline(always)]
pub fn whole_pair_at(limit: u64, bytes: &[u8]) -> Option<(i64, i64, bool, &[u8])>
    requires { limit ≤ 10 ^ 18 }
    ensures pair { IfSome result (λ p. ArePlainPair (IsWholeNumber limit) bytes.now p.0 p.1 p.2 p.3.now) }
    ensures first { IfSome result (λ p. unsigned_abs p.0 ≤ limit) }
    ensures second { IfSome result (λ p. unsigned_abs p.1 ≤ limit) }
{
    let (x, after) = whole_number_at(limit, skip(bytes))?;
    let further = after_byte(b',', after)?;
    let (y, following) = whole_number_at(limit, skip(further))?;
    let (more, rest) = closing_at(following)?;
    Some((x, y, more, rest))
}

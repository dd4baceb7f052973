// The numbers of a transform.
ghost use Rattle.std.specs.Prelude.{pos, ◌≡◌, ◌≤◌, ◌*ℤ◌, IfSome, IfNone, None, Some, unsigned_abs};
ghost use Rattle.decimal_text.specs.Grammar.{IsNumber};
ghost use Rattle.geometry.specs.Units.{fine_units, transform_limit};
ghost use Rattle.topojson_types.specs.TransformNumbers.{transform_value};

use decimal_text::NumText;
use geometry::{FINE_UNITS, TRANSFORM_LIMIT, TRANSFORM_PLACES};
use std::marker::Model;

/// A number of a transform: its text as it was read, with its value in units of 10^-20, rounded, halves away from zero, and that in
/// units of coordinates where it is a whole number of these.
#[derive(Debug, Drop)]
pub struct TransformNumber {
    text: NumText,
    value: i128,
    units: Option<i64>,
}

impl Model for TransformNumber {
    ghost use Rattle.std.specs.Prelude.{List, ℕ, pos, ◌≡◌, ◌≤◌, ◌*ℤ◌, IfSome, Some, unsigned_abs};
    ghost use Rattle.geometry.specs.Units.{fine_units, transform_limit};
    ghost use Rattle.topojson_types.specs.TransformNumbers.{transform_value};

    ghost Value = { List ℕ };

    ghost view = { λ n. n.text };

    ghost invariant = { λ n. (transform_value n.text ≡ Some n.value) × (unsigned_abs n.value ≤ transform_limit)
        × IfSome n.units (λ u. n.value ≡ u *ℤ pos fine_units) };
}

/// A value in units of 10^-20 in units of coordinates, if it is a whole number of these.
fn whole_units(value: i128) -> Option<i64>
    requires { unsigned_abs value ≤ transform_limit }
    ensures { IfSome result (λ u. value ≡ u *ℤ pos fine_units) }
{
    let size = value.unsigned_abs();
    if size % FINE_UNITS != 0 {
        return None;
    }
    let units = (size / FINE_UNITS) as i64;
    Some(if value < 0 { -units } else { units })
}

impl TransformNumber {
    /// The number with this text, unless its magnitude is above `TRANSFORM_LIMIT`.
    #[tactic(auto, unfolding(crate::specs::TransformNumbers::transform_value))]
    pub fn of(text: NumText) -> Option<TransformNumber>
        ensures same { IfSome result (λ n. n ≡ text) }
        ensures range { IfNone result (transform_value text ≡ None) }
    {
        match text.scaled(TRANSFORM_PLACES, TRANSFORM_LIMIT) {
            Err(_) => None,
            Ok(scaled) => Some(TransformNumber {
                text,
                value: scaled.value,
                units: whole_units(scaled.value),
            }),
        }
    }

    /// Its text as it was read.
    pub fn text(&self) -> &str
        ensures text { result.now ≡ self.now }
        ensures number { IsNumber self.now }
    {
        self.text.text()
    }

    /// Its value in units of 10^-20.
    pub fn value(&self) -> i128
        ensures value { transform_value self.now ≡ Some result }
        ensures within { unsigned_abs result ≤ transform_limit }
    {
        self.value
    }

    /// Its value in units of coordinates, if that is a whole number of these.
    pub fn units(&self) -> Option<i64>
        ensures { IfSome result (λ u. transform_value self.now ≡ Some (u *ℤ pos fine_units)) }
    {
        self.units
    }
}

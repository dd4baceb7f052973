// Decimal numbers as they are written.
ghost use Rattle.std.specs.Prelude.{◌≡◌, ◌≤◌, [], ◌∷◌, ◌++◌};
ghost use Rattle.decimal_text.specs.Scaling.{units_text};
ghost use Rattle.json_writer.specs.Standing.{Start};
ghost use Rattle.json_value.specs.Text.{json_text};
ghost use Rattle.json_value.specs.declared.json.Json.TheVariants as j;

use crate::out::Out;

/// Puts a number of units of `10^-places` by its least decimal.
pub fn put_decimal<O: Out>(units: i64, places: u32, out: &mut O)
    requires { places ≤ 18 }
    ensures text { O.text out.new ≡ O.text out.old ++ json_text (j.Number (units_text units places)) }
    ensures kept { (start : Start) → O.good out.old start → O.good out.new start }
{
    out.put_units(units, places);
}

/// Puts the array of two such numbers.
pub fn put_pair<O: Out>(x: i64, y: i64, places: u32, out: &mut O)
    requires { places ≤ 18 }
    ensures text { O.text out.new ≡ O.text out.old ++ json_text (j.Array (j.Number (units_text x places) ∷ (j.Number (units_text y places) ∷ []))) }
    ensures kept { (start : Start) → O.good out.old start → O.good out.new start }
{
    out.put_units_pair(x, y, places);
}

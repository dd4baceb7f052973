// Numbers of units as decimal texts.
ghost use Rattle.std.specs.Prelude.{◌≤◌};
ghost use Rattle.decimal_text.specs.Laws.{ReadsAgain};

/// A law: the least decimal of a number of units is a number, which scales to the same units again, exactly.
pub fn units_again(units: i64, places: u32)
    requires { places ≤ 18 }
    ensures { ReadsAgain units places }
{
    let _size = units.unsigned_abs();
}

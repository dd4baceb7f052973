// Numbers of units as decimal texts.
ghost use Rattle.std.specs.Prelude.{◌≡◌, ◌+◌, ◌≤◌, ◌++◌, length};
ghost use Rattle.byte_ends.specs.Writes.{Writes};
ghost use Rattle.decimal_text.specs.Scaling.{units_text};

use crate::short_text::ShortText;
use byte_ends::{Drain, Sink, WriteFault};

/// Adds a number of units of `10^-places` as the least decimal without exponent.
pub fn add_units(text: &mut ShortText, units: i64, places: u32)
    requires room { length text.old ≤ 55 }
    requires places { places ≤ 18 }
    ensures added { text.new ≡ text.old ++ units_text units places }
    ensures short { length text.new ≤ length text.old + 41 }
{
    text.push_units(units, places);
}

/// Writes a number of units of `10^-places` as the least decimal without exponent, and answers the number of its bytes.
pub fn print_units<W: Drain>(units: i64, places: u32, sink: &mut Sink<W>) -> Result<u64, WriteFault>
    requires { places ≤ 18 }
    ensures { Writes sink.old sink.new 0 (units_text units places) result }
{
    let mut text = ShortText::new();
    text.push_units(units, places);
    sink.put(0, text.as_slice())
}

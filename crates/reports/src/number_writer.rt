// Whole numbers in decimal digits.
ghost use Rattle.std.specs.Prelude.{◌≡◌, ◌++◌, decimal};
ghost use Rattle.json_writer.specs.Standing.{Start};

use itoa::Buffer;
use json_writer::Out;

/// Puts a whole number.
pub(crate) fn put_number<O: Out>(number: u64, out: &mut O)
    ensures text { O.text out.new ≡ O.text out.old ++ decimal number }
    ensures kept { (start : Start) → O.good out.old start → O.good out.new start }
{
    let mut buffer = Buffer::new();
    out.put(buffer.format(number).as_bytes());
}

// Whole texts, over a sink.
ghost use Rattle.byte_ends.specs.Writes.{Writes};
ghost use Rattle.json_value.specs.Text.{json_text, quoted};
ghost use Rattle.json_value.specs.declared.json.Json.TheVariants as j;

use crate::buffered::Buffered;
use crate::text_writer::put_text;
use crate::value_writer::{put_json, put_members};
use byte_ends::{Drain, Sink, WriteFault};
use json_value::Json;
use owned_values::OwnText;

/// Writes the value with no white space, and answers the number of bytes: members in their order and with their
/// duplicates, numbers by their own texts, texts as `write_text` does. This takes no memory.
pub fn write_json<W: Drain>(value: &Json, sink: &mut Sink<W>) -> Result<u64, WriteFault>
    ensures { Writes sink.old sink.new 0 (json_text value.now) result }
{
    let mut out = Buffered::over(sink);
    put_json(value, &mut out);
    out.end()
}

/// Writes the object with these members, as `write_json` does, and answers the number of bytes.
pub fn write_members<W: Drain>(
    members: &[(OwnText, Json)],
    sink: &mut Sink<W>,
) -> Result<u64, WriteFault>
    ensures { Writes sink.old sink.new 0 (json_text (j.Object members.now)) result }
{
    let mut out = Buffered::over(sink);
    put_members(members, &mut out);
    out.end()
}

/// Writes the text as a string of RFC 8259, section 7, and answers the number of bytes. The quotation mark, the reverse
/// solidus and what is below U+0020 are escaped, by two bytes where the section has such an escape and else as `\u00`
/// with two lower-case digits; everything else is written as it is.
pub fn write_text<W: Drain>(text: &str, sink: &mut Sink<W>) -> Result<u64, WriteFault>
    ensures { Writes sink.old sink.new 0 (quoted text.now) result }
{
    let mut out = Buffered::over(sink);
    put_text(text, &mut out);
    out.end()
}

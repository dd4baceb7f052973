// Values that are read through their texts.
ghost use Rattle.std.specs.Prelude.{◌≡◌, [], IfOk, Some};
ghost use Rattle.std.specs.Str.{is_utf8};
ghost use Rattle.json_value.specs.Reading.{value_at};
ghost use Rattle.json_value.specs.Text.{json_text};

use crate::readable::is_readable;
use byte_ends::{Memory, MemoryDrain, Sink};
use json_reading::written_text_is_read;
use json_value::Json;
use json_writer::write_json;
use std::alloc::Global;

/// The text of a value.
fn written(alloc: Global, value: &Json) -> Result<Vec<u8>, Memory>
    ensures { IfOk result (λ text. text.items ≡ json_text value.now) }
{
    let mut sink = Sink::new(MemoryDrain::new(alloc));
    if write_json(value, &mut sink).is_err() {
        return Err(Memory);
    }
    Ok(sink.into_inner().into_inner())
}

/// The text of a value, which a reader of bytes takes for it where arrays and objects may nest `u32::MAX` deep. That there is too little
/// memory is reported too where they nest deeper.
pub fn value_text(alloc: Global, value: &Json) -> Result<Vec<u8>, Memory>
    ensures { IfOk result (λ text. value_at is_utf8 4294967295 text.items ≡ Some (value.now, [])) }
{
    if !is_readable(u32::MAX, value) {
        return Err(Memory);
    }
    let text = written(alloc, value)?;
    written_text_is_read();
    Ok(text)
}

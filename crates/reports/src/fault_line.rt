// The line that reports a fault.
ghost use Rattle.std.specs.Prelude.{◌≡◌, ◌++◌, option_map};
ghost use Rattle.byte_ends.specs.Writes.{Writes};
ghost use Rattle.json_writer.specs.Standing.{Start};
ghost use Rattle.reports.specs.FaultLines as spec;
ghost use Rattle.reports.specs.FaultRows.{row_of};

use crate::fault_row::FaultRow;
use crate::number_writer::put_number;
use byte_ends::{Drain, Sink, WriteFault};
use json_writer::{Buffered, Out};

/// Puts a code behind a blank, if there is one.
#[tactic(auto, using(std::proofs::Common::append_assoc))]
fn put_code_text<O: Out>(code: Option<&str>, out: &mut O)
    ensures text { O.text out.new ≡ O.text out.old ++ spec.code_text (option_map (λ c. c.now) code.entry) }
    ensures kept { (start : Start) → O.good out.old start → O.good out.new start }
{
    if let Some(code) = code {
        out.put(b" ");
        out.put(code.as_bytes());
    }
}

/// Puts these words and a number, if there is one.
#[tactic(auto, using(std::proofs::Common::append_assoc))]
fn put_number_text<O: Out>(words: &[u8], number: Option<u64>, out: &mut O)
    ensures text { O.text out.new ≡ O.text out.old ++ spec.number_text words.now number }
    ensures kept { (start : Start) → O.good out.old start → O.good out.new start }
{
    if let Some(number) = number {
        out.put(words);
        put_number(number, out);
    }
}

/// Puts a row, as `write_row` does.
fn put_row<O: Out>(row: &FaultRow<'_>, out: &mut O)
    ensures text { O.text out.new ≡ O.text out.old ++ spec.row_line (row_of row.now) }
    ensures kept { (start : Start) → O.good out.old start → O.good out.new start }
{
    out.put(b"error:");
    put_number_text(b" layer ", row.layer, out);
    put_code_text(row.code, out);
    out.put(b" ");
    out.put(row.name.as_bytes());
    put_number_text(b" at ", row.at, out);
    put_number_text(b" feature ", row.feature, out);
    put_number_text(b" sent ", row.sent, out);
    out.put(b"\n");
}

/// Writes the row of a fault as the program reports it, in a line of its own: the layer's number, the fault's code and name, and the
/// number of the byte, of the feature or of the bytes sent, where the fault has it.
pub(crate) fn write_row<W: Drain>(row: &FaultRow<'_>, sink: &mut Sink<W>) -> Result<u64, WriteFault>
    ensures { Writes sink.old sink.new 0 (spec.row_line (row_of row.now)) result }
{
    let mut out = Buffered::over(sink);
    put_row(row, &mut out);
    out.end()
}

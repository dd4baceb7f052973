// The report of a run as it is written.
ghost use Rattle.std.specs.Prelude.{◌≡◌, ◌++◌};
ghost use Rattle.byte_ends.specs.Writes.{Writes};
ghost use Rattle.json_writer.specs.Standing.{Start};
ghost use Rattle.reports.specs.RunReports as spec;

use crate::explanation_writer::put_lines;
use crate::fault_writer::put_optional_fault;
use crate::report_members::put_optional_report;
use crate::run_report::RunReport;
use crate::value_writer::put_number_member;
use byte_ends::{Drain, Sink, WriteFault};
use json_writer::{Buffered, Out};

/// Puts the report of a run, as `write_run_report` does.
fn put_run<O: Out>(run: &RunReport<'_>, out: &mut O)
    ensures text { O.text out.new ≡ O.text out.old ++ spec.run_text run.now }
    ensures kept { (start : Start) → O.good out.old start → O.good out.new start }
{
    put_number_member(b"{\"status\":", run.status as u64, out);
    out.put(b",\"fault\":");
    put_optional_fault(&run.fault, out);
    out.put(b",\"report\":");
    put_optional_report(run.report, out);
    out.put(b",\"explanation\":");
    put_lines(run.explanation, out);
    out.put(b"}\n");
}

/// Writes the report of a run as a JSON object (RFC 8259) with no white space and a line feed after it, and answers the number of bytes:
/// the exit status, the fault with its code and its name, what was counted, and the explanation line by line, with null for what there
/// is none of. This takes no memory.
pub fn write_run_report<W: Drain>(
    run: &RunReport<'_>,
    sink: &mut Sink<W>,
) -> Result<u64, WriteFault>
    ensures { Writes sink.old sink.new 0 (spec.run_text run.now) result }
{
    let mut out = Buffered::over(sink);
    put_run(run, &mut out);
    out.end()
}

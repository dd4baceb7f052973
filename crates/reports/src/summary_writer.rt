// The text of a summary.
ghost use Rattle.std.specs.Prelude.{◌≡◌, ◌++◌};
ghost use Rattle.byte_ends.specs.Writes.{Writes};
ghost use Rattle.json_writer.specs.Standing.{Start};
ghost use Rattle.reports.specs.Summaries as spec;

use crate::number_writer::put_number;
use crate::report_writer::put_line;
use crate::summary::Summary;
use byte_ends::{Drain, Sink, WriteFault};
use json_value::OwnText;
use json_writer::{Buffered, Out, put_text};

/// Puts the line of an object: its name and the number of its features.
#[tactic(auto, using(std::proofs::Common::append_assoc))]
fn put_object<O: Out>(object: &(OwnText, u64), out: &mut O)
    ensures text { O.text out.new ≡ O.text out.old ++ spec.object_text object.now }
    ensures kept { (start : Start) → O.good out.old start → O.good out.new start }
{
    put_text(object.0.as_str(), out);
    out.put(b" ");
    put_number(object.1, out);
    out.put(b"\n");
}

/// The line that says whether there is a grid.
fn grid_line(grid: bool) -> &'static [u8]
    ensures { result.now ≡ spec.grid_text grid }
{
    if grid { b"grid yes\n" } else { b"grid no\n" }
}

/// Puts how many crossings there are, where they are counted.
fn put_crossings<O: Out>(crossings: Option<u64>, out: &mut O)
    ensures text { O.text out.new ≡ O.text out.old ++ spec.crossings_text crossings }
    ensures kept { (start : Start) → O.good out.old start → O.good out.new start }
{
    if let Some(count) = crossings {
        put_line("crossings", count, out);
    }
}

/// Puts the lines after those of the objects.
#[tactic(auto, using(std::proofs::Common::append_assoc))]
fn put_totals<O: Out>(summary: &Summary, out: &mut O)
    ensures text { O.text out.new ≡ O.text out.old ++ spec.totals_text summary.now }
    ensures kept { (start : Start) → O.good out.old start → O.good out.new start }
{
    put_line("arcs", summary.arcs, out);
    put_line("positions", summary.positions, out);
    out.put(grid_line(summary.grid));
    put_crossings(summary.crossings, out);
}

/// Puts a summary, as `summary_text` does.
fn put_summary<O: Out>(summary: &Summary, out: &mut O)
    ensures text { O.text out.new ≡ O.text out.old ++ spec.summary_text summary.now }
    ensures kept { (start : Start) → O.good out.old start → O.good out.new start }
{
    let objects = summary.objects.as_slice();
    put_line("objects", objects.len() as u64, out);
    'objects: for object in objects {
        put_object(object, out);
    }
    put_totals(summary, out);
}

/// Writes a summary and answers the number of bytes: the number of objects, a line for each with its name as a JSON text and the
/// number of its features, the arcs, the positions in them, whether there is a grid, and the crossings, where they are counted.
pub fn summary_text<W: Drain>(summary: &Summary, sink: &mut Sink<W>) -> Result<u64, WriteFault>
    ensures { Writes sink.old sink.new 0 (spec.summary_text summary.now) result }
{
    let mut out = Buffered::over(sink);
    put_summary(summary, &mut out);
    out.end()
}

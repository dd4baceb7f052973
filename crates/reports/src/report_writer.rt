// The text of a report.
ghost use Rattle.std.specs.Prelude.{◌≡◌, ◌++◌};
ghost use Rattle.byte_ends.specs.Writes.{Writes};
ghost use Rattle.json_writer.specs.Standing.{Start};
ghost use Rattle.reports.specs.Reports as spec;

use crate::number_writer::put_number;
use crate::path_writer::put_path;
use crate::report::Report;
use byte_ends::{Drain, Sink, WriteFault};
use geojson_types::{Cause, Dropped};
use itoa::Buffer;
use json_writer::{Buffered, Out};

/// Puts a line of a word and a number.
#[tactic(auto, using(std::proofs::Common::append_assoc))]
pub(crate) fn put_line<O: Out>(word: &str, number: u64, out: &mut O)
    ensures text { O.text out.new ≡ O.text out.old ++ spec.line_text word.now number }
    ensures kept { (start : Start) → O.good out.old start → O.good out.new start }
{
    out.put(word.as_bytes());
    out.put(b" ");
    put_number(number, out);
    out.put(b"\n");
}

/// The word for why a line or a ring isn't written.
fn cause_word(cause: Cause) -> &'static str
    ensures { result.now ≡ spec.cause_text cause }
{
    match cause {
        Cause::Collapsed => "collapsed",
        Cause::Small => "small",
        Cause::Outer => "outer",
    }
}

/// Puts where a line or ring stood, up to its path.
#[tactic(auto, using(std::proofs::Common::append_assoc))]
fn put_place<O: Out>(dropped: &Dropped, out: &mut O)
    ensures text { O.text out.new ≡ O.text out.old ++ spec.place_text dropped.now }
    ensures kept { (start : Start) → O.good out.old start → O.good out.new start }
{
    out.put(b"drop ");
    put_number(dropped.address.layer as u64, out);
    out.put(b" ");
    put_number(dropped.address.feature as u64, out);
    out.put(b" ");
    put_path(&dropped.address.path, b".", b"-", out);
}

/// Puts the line of a line or ring that isn't written.
#[tactic(auto, using(std::proofs::Common::append_assoc))]
fn put_dropped<O: Out>(dropped: &Dropped, out: &mut O)
    ensures text { O.text out.new ≡ O.text out.old ++ spec.dropped_text dropped.now }
    ensures kept { (start : Start) → O.good out.old start → O.good out.new start }
{
    put_place(dropped, out);
    out.put(b" ");
    out.put(cause_word(dropped.cause).as_bytes());
    out.put(b"\n");
}

/// Puts the lines of all lines and rings that aren't written.
fn put_all_dropped<O: Out>(all: &[Dropped], out: &mut O)
    ensures text { O.text out.new ≡ O.text out.old ++ spec.all_dropped_text all.now }
    ensures kept { (start : Start) → O.good out.old start → O.good out.new start }
{
    'dropped: for dropped in all {
        put_dropped(dropped, out);
    }
}

/// Puts the lines of what was counted in reading, and the number of lines and rings that aren't written.
#[tactic(auto, using(std::proofs::Common::append_assoc))]
fn put_counts<O: Out>(report: &Report, out: &mut O)
    ensures text { O.text out.new ≡ O.text out.old ++ spec.counts_text report.now }
    ensures kept { (start : Start) → O.good out.old start → O.good out.new start }
{
    put_line("rounded", report.counts.rounded, out);
    put_line("extra", report.counts.extra, out);
    put_line("empty", report.counts.empty, out);
    put_line("dropped", report.dropped.as_slice().len() as u64, out);
}

/// Puts the lines of the arcs.
#[tactic(auto, using(std::proofs::Common::append_assoc))]
fn put_arcs<O: Out>(report: &Report, out: &mut O)
    ensures text { O.text out.new ≡ O.text out.old ++ spec.arcs_text report.now }
    ensures kept { (start : Start) → O.good out.old start → O.good out.new start }
{
    put_line("arcs", report.arcs, out);
    put_line("kept", report.kept, out);
    put_line("removed", report.removed, out);
}

/// Puts the line of the threshold that was chosen, if one was.
#[tactic(auto, using(std::proofs::Common::append_assoc))]
fn put_chosen<O: Out>(chosen: Option<u128>, out: &mut O)
    ensures text { O.text out.new ≡ O.text out.old ++ spec.chosen_text chosen }
    ensures kept { (start : Start) → O.good out.old start → O.good out.new start }
{
    let Some(threshold) = chosen else {
        return;
    };
    let mut buffer = Buffer::new();
    out.put(b"chosen ");
    out.put(buffer.format(threshold).as_bytes());
    out.put(b"\n");
}

/// Puts a report, as `report_text` does.
#[tactic(auto, using(std::proofs::Common::append_assoc))]
fn put_report<O: Out>(report: &Report, out: &mut O)
    ensures text { O.text out.new ≡ O.text out.old ++ spec.report_text report.now }
    ensures kept { (start : Start) → O.good out.old start → O.good out.new start }
{
    put_counts(report, out);
    put_all_dropped(report.dropped.as_slice(), out);
    put_arcs(report, out);
    put_chosen(report.chosen, out);
}

/// Writes a report: a line for each count, after `dropped` a line for each line or ring that isn't written, with its layer,
/// feature, path and cause, and last a line of the threshold that was chosen, if one was.
pub fn report_text<W: Drain>(report: &Report, sink: &mut Sink<W>) -> Result<u64, WriteFault>
    ensures { Writes sink.old sink.new 0 (spec.report_text report.now) result }
{
    let mut out = Buffered::over(sink);
    put_report(report, &mut out);
    out.end()
}

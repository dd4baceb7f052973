// What was counted, as a JSON object.
ghost use Rattle.std.specs.Prelude.{◌≡◌, ◌++◌, codes};
ghost use Rattle.json_value.specs.Text.{json_text};
ghost use Rattle.json_value.specs.declared.json.Json.TheVariants as j;
ghost use Rattle.json_writer.specs.Standing.{Start};
ghost use Rattle.reports.specs.Reports.{cause_text};
ghost use Rattle.reports.specs.RunReports as spec;
ghost use Rattle.reports.specs.Values.{number_or_null};

use crate::path_writer::put_path_array;
use crate::report::Report;
use crate::value_writer::{put_null, put_number_member};
use geojson_types::{Cause, Dropped};
use itoa::Buffer;
use json_writer::{Out, PutValue, put_array};

/// What ends a line or a ring that isn't written: why it isn't, and the brace.
fn cause_ending(cause: Cause) -> &'static [u8]
    ensures { result.now ≡ (codes ",\"cause\":" ++ json_text (j.Text (cause_text cause))) ++ codes "}" }
{
    match cause {
        Cause::Collapsed => b",\"cause\":\"collapsed\"}",
        Cause::Small => b",\"cause\":\"small\"}",
        Cause::Outer => b",\"cause\":\"outer\"}",
    }
}

/// Puts a line or a ring that isn't written.
fn put_dropped<O: Out>(dropped: &Dropped, out: &mut O)
    ensures text { O.text out.new ≡ O.text out.old ++ json_text (spec.dropped_value dropped.now) }
    ensures kept { (start : Start) → O.good out.old start → O.good out.new start }
{
    put_number_member(b"{\"layer\":", dropped.address.layer as u64, out);
    put_number_member(b",\"feature\":", dropped.address.feature as u64, out);
    out.put(b",\"path\":");
    put_path_array(&dropped.address.path, out);
    out.put(cause_ending(dropped.cause));
}

// The way to write lines and rings that aren't written.
struct AllDropped;

impl PutValue<Dropped> for AllDropped {
    ghost value = { spec.dropped_value };

    fn put<O: Out>(dropped: &Dropped, out: &mut O) {
        put_dropped(dropped, out);
    }
}

/// Puts the threshold that was chosen, or null.
fn put_chosen<O: Out>(chosen: Option<u128>, out: &mut O)
    ensures text { O.text out.new ≡ O.text out.old ++ json_text (number_or_null chosen) }
    ensures kept { (start : Start) → O.good out.old start → O.good out.new start }
{
    let Some(threshold) = chosen else {
        return put_null(out);
    };
    let mut buffer = Buffer::new();
    out.put(buffer.format(threshold).as_bytes());
}

/// Puts a report.
fn put_report<O: Out>(report: &Report, out: &mut O)
    ensures text { O.text out.new ≡ O.text out.old ++ json_text (spec.report_value report.now) }
    ensures kept { (start : Start) → O.good out.old start → O.good out.new start }
{
    put_number_member(b"{\"rounded\":", report.counts.rounded, out);
    put_number_member(b",\"extra\":", report.counts.extra, out);
    put_number_member(b",\"empty\":", report.counts.empty, out);
    out.put(b",\"dropped\":");
    put_array::<AllDropped, Dropped, O>(report.dropped.as_slice(), out);
    put_number_member(b",\"lost\":", report.lost, out);
    put_number_member(b",\"arcs\":", report.arcs, out);
    put_number_member(b",\"kept\":", report.kept, out);
    put_number_member(b",\"removed\":", report.removed, out);
    out.put(b",\"chosen\":");
    put_chosen(report.chosen, out);
    out.put(b"}");
}

/// Puts a report, or null.
pub(crate) fn put_optional_report<O: Out>(report: Option<&Report>, out: &mut O)
    ensures text { O.text out.new ≡ O.text out.old ++ json_text (spec.report_or_null report.entry) }
    ensures kept { (start : Start) → O.good out.old start → O.good out.new start }
{
    match report {
        None => put_null(out),
        Some(report) => put_report(report, out),
    }
}

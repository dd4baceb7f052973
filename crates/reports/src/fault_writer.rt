// A fault as a JSON object.
ghost use Rattle.std.specs.Prelude.{◌≡◌, ◌++◌};
ghost use Rattle.json_value.specs.Text.{json_text};
ghost use Rattle.json_writer.specs.Standing.{Start};
ghost use Rattle.reports.specs.RunReports as spec;

use crate::fault_row::of_run;
use crate::run_report::RunFault;
use crate::value_writer::{put_null, put_optional_member, put_optional_text, put_string};
use json_writer::Out;

/// Puts a fault.
fn put_fault<O: Out>(fault: &RunFault<'_>, out: &mut O)
    ensures text { O.text out.new ≡ O.text out.old ++ json_text (spec.fault_value fault.now) }
    ensures kept { (start : Start) → O.good out.old start → O.good out.new start }
{
    let row = of_run(fault);
    out.put(b"{\"code\":");
    put_optional_text(row.code, out);
    out.put(b",\"name\":");
    put_string(row.name, out);
    put_optional_member(b",\"layer\":", row.layer, out);
    put_optional_member(b",\"feature\":", row.feature, out);
    put_optional_member(b",\"at\":", row.at, out);
    put_optional_member(b",\"sent\":", row.sent, out);
    out.put(b"}");
}

/// Puts a fault, or null.
pub(crate) fn put_optional_fault<O: Out>(fault: &Option<RunFault<'_>>, out: &mut O)
    ensures text { O.text out.new ≡ O.text out.old ++ json_text (spec.fault_or_null fault.now) }
    ensures kept { (start : Start) → O.good out.old start → O.good out.new start }
{
    match fault {
        None => put_null(out),
        Some(fault) => put_fault(fault, out),
    }
}

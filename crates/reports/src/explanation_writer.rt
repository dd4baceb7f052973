// The lines of an explanation as a JSON array.
ghost use Rattle.std.specs.Prelude.{◌≡◌, ◌++◌, map};
ghost use Rattle.json_value.specs.Text.{json_text};
ghost use Rattle.json_writer.specs.Standing.{Start};
ghost use Rattle.owned_values.specs.Commas.{comma_unless, with_commas};
ghost use Rattle.reports.specs.Lines as spec;

use crate::value_writer::put_string;
use json_writer::{Out, put_comma};

/// The text without the blank that it begins with, if it does.
fn without_blank(text: &str) -> &str
    ensures { result.now ≡ spec.without_blank text.now }
{
    match text.strip_prefix(' ') {
        Some(rest) => rest,
        None => text,
    }
}

/// Puts a line without its indent, after a comma unless it is the first.
#[tactic(auto, using(std::proofs::Common::append_assoc))]
fn put_line<O: Out>(line: &str, is_first: bool, out: &mut O)
    ensures text { O.text out.new ≡ O.text out.old ++ (comma_unless is_first ++ json_text (spec.line_value line.now)) }
    ensures kept { (start : Start) → O.good out.old start → O.good out.new start }
{
    put_comma(is_first, out);
    put_string(without_blank(without_blank(line)), out);
}

/// Puts what stands after the last line feed, if there is anything.
fn put_rest<O: Out>(rest: &str, is_first: bool, out: &mut O)
    ensures text { O.text out.new ≡ O.text out.old ++ with_commas is_first (map spec.line_text (spec.one_line rest.now)) }
    ensures kept { (start : Start) → O.good out.old start → O.good out.new start }
{
    if !rest.is_empty() {
        put_line(rest, is_first, out);
    }
}

/// Puts the lines of a text, each as a text without its indent.
pub(crate) fn put_lines<O: Out>(text: &str, out: &mut O)
    ensures text { O.text out.new ≡ O.text out.old ++ json_text (spec.lines_value text.now) }
    ensures kept { (start : Start) → O.good out.old start → O.good out.new start }
{
    out.put(b"[");
    let mut is_first = true;
    let mut rest = text;
    'lines: while let Some((line, following)) = rest.split_once('\n') {
        put_line(line, is_first, out);
        is_first = false;
        rest = following;
    }
    put_rest(rest, is_first, out);
    out.put(b"]");
}

// Numbers and texts as JSON values, and null in their place.
ghost use Rattle.std.specs.Prelude.{◌≡◌, ◌++◌, option_map};
ghost use Rattle.json_value.specs.Text.{json_text};
ghost use Rattle.json_value.specs.declared.json.Json.TheVariants as j;
ghost use Rattle.json_writer.specs.Standing.{Start};
ghost use Rattle.reports.specs.Values as spec;

use crate::number_writer;
use json_writer::{Out, put_text};

/// Puts a whole number.
#[tactic(auto, using(json_value::proofs::Texts::texts))]
fn put_number<O: Out>(number: u64, out: &mut O)
    ensures text { O.text out.new ≡ O.text out.old ++ json_text (spec.number number) }
    ensures kept { (start : Start) → O.good out.old start → O.good out.new start }
{
    number_writer::put_number(number, out);
}

/// Puts these bytes and a whole number after them.
#[tactic(auto, using(std::proofs::Common::append_assoc))]
pub(crate) fn put_number_member<O: Out>(name: &[u8], number: u64, out: &mut O)
    ensures text { O.text out.new ≡ O.text out.old ++ (name.now ++ json_text (spec.number number)) }
    ensures kept { (start : Start) → O.good out.old start → O.good out.new start }
{
    out.put(name);
    put_number(number, out);
}

/// Puts a whole number, or null.
fn put_optional_number<O: Out>(number: Option<u64>, out: &mut O)
    ensures text { O.text out.new ≡ O.text out.old ++ json_text (spec.number_or_null number) }
    ensures kept { (start : Start) → O.good out.old start → O.good out.new start }
{
    match number {
        None => put_null(out),
        Some(number) => put_number(number, out),
    }
}

/// Puts these bytes and a whole number after them, or null.
#[tactic(auto, using(std::proofs::Common::append_assoc))]
pub(crate) fn put_optional_member<O: Out>(name: &[u8], number: Option<u64>, out: &mut O)
    ensures text { O.text out.new ≡ O.text out.old ++ (name.now ++ json_text (spec.number_or_null number)) }
    ensures kept { (start : Start) → O.good out.old start → O.good out.new start }
{
    out.put(name);
    put_optional_number(number, out);
}

/// Puts null.
#[tactic(auto, using(json_value::proofs::Texts::texts))]
pub(crate) fn put_null<O: Out>(out: &mut O)
    ensures text { O.text out.new ≡ O.text out.old ++ json_text j.Null }
    ensures kept { (start : Start) → O.good out.old start → O.good out.new start }
{
    out.put(b"null");
}

/// Puts a text, or null.
pub(crate) fn put_optional_text<O: Out>(text: Option<&str>, out: &mut O)
    ensures text { O.text out.new ≡ O.text out.old ++ json_text (spec.text_or_null (option_map (λ t. t.now) text.entry)) }
    ensures kept { (start : Start) → O.good out.old start → O.good out.new start }
{
    match text {
        None => put_null(out),
        Some(text) => put_string(text, out),
    }
}

/// Puts a text.
#[tactic(auto, using(json_value::proofs::Texts::texts))]
pub(crate) fn put_string<O: Out>(text: &str, out: &mut O)
    ensures text { O.text out.new ≡ O.text out.old ++ json_text (j.Text text.now) }
    ensures kept { (start : Start) → O.good out.old start → O.good out.new start }
{
    put_text(text, out);
}

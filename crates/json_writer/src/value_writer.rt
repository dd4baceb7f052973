// Values as they are written.
ghost use Rattle.std.specs.Prelude.{◌≡◌, ◌++◌};
ghost use Rattle.json_writer.specs.Standing.{Start};
ghost use Rattle.json_value.specs.Text.{bool_text, json_text, member_text, name_text};
ghost use Rattle.json_value.specs.declared.json.Json.TheVariants as j;

use crate::out::{Out, put_comma};
use crate::text_writer::put_text;
use json_value::{Json, Properties, PropertiesForm};
use owned_values::OwnText;

/// The word of a truth value.
fn bool_word(is_true: bool) -> &'static [u8]
    ensures { result.now ≡ bool_text is_true }
{
    if is_true { b"true" } else { b"false" }
}

/// Puts the value, as `write_json` does.
#[cycle(values)]
#[tactic(auto, using(json_value::proofs::Texts::texts))]
pub fn put_json<O: Out>(value: &Json, out: &mut O)
    ensures text { O.text out.new ≡ O.text out.old ++ json_text value.now }
    ensures kept { (start : Start) → O.good out.old start → O.good out.new start }
{
    match value {
        Json::Null => out.put(b"null"),
        Json::Bool(is_true) => out.put(bool_word(*is_true)),
        Json::Number(number) => out.put(number.as_bytes()),
        Json::Text(text) => put_text(text.as_str(), out),
        Json::Array(elements) => put_elements(elements.as_slice(), out),
        Json::Object(members) => put_members(members.as_slice(), out),
    }
}

/// Puts the array with these elements.
#[cycle(values)]
fn put_elements<O: Out>(elements: &[Json], out: &mut O)
    ensures text { O.text out.new ≡ O.text out.old ++ json_text (j.Array elements.now) }
    ensures kept { (start : Start) → O.good out.old start → O.good out.new start }
{
    out.put(b"[");
    let mut is_first = true;
    'elements: for element in elements {
        put_comma(is_first, out);
        is_first = false;
        put_json(element, out);
    }
    out.put(b"]");
}

/// Puts the object with these members, as `write_members` does.
#[cycle(values)]
pub fn put_members<O: Out>(members: &[(OwnText, Json)], out: &mut O)
    ensures text { O.text out.new ≡ O.text out.old ++ json_text (j.Object members.now) }
    ensures kept { (start : Start) → O.good out.old start → O.good out.new start }
{
    out.put(b"{");
    let mut is_first = true;
    'members: for member in members {
        put_comma(is_first, out);
        is_first = false;
        put_member(&member.0, &member.1, out);
    }
    out.put(b"}");
}

/// Puts the member: its name, a colon and its value.
#[cycle(values)]
#[tactic(auto, using(std::proofs::Common::append_assoc))]
fn put_member<O: Out>(name: &OwnText, value: &Json, out: &mut O)
    ensures text { O.text out.new ≡ O.text out.old ++ member_text (name.now, json_text value.now) }
    ensures kept { (start : Start) → O.good out.old start → O.good out.new start }
{
    put_name(name, out);
    put_json(value, out);
}

/// Puts the name of a member, and the colon.
#[tactic(auto, using(std::proofs::Common::append_assoc))]
pub fn put_name<O: Out>(name: &OwnText, out: &mut O)
    ensures text { O.text out.new ≡ O.text out.old ++ name_text name.now }
    ensures kept { (start : Start) → O.good out.old start → O.good out.new start }
{
    put_text(name.as_str(), out);
    out.put(b":");
}

/// Puts the object with the members of the properties: a text as it stands, and members as `put_members` does.
pub fn put_properties<O: Out>(properties: &Properties, out: &mut O)
    ensures text { O.text out.new ≡ O.text out.old ++ json_text (j.Object properties.now) }
    ensures kept { (start : Start) → O.good out.old start → O.good out.new start }
{
    match properties.form() {
        PropertiesForm::Values(members) => put_members(members, out),
        PropertiesForm::Text(text) => out.put(text),
    }
}

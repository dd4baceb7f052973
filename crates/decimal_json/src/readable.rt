// Which values are read as themselves, once they are written.
ghost use Rattle.std.specs.Prelude.{IsTrue};
ghost use Rattle.std.specs.List.{AllByRecursion};
ghost use Rattle.decimal_json.specs.Readable as spec;

use json_value::{Json, OwnText};

/// Whether arrays and objects nest no deeper than this in a value. Then its text can be read as it: that its number texts are numbers,
/// and its texts and names are UTF-8, is seen to by their types.
#[cycle(readable)]
pub(crate) fn is_readable(deepest: u32, value: &Json) -> bool
    ensures { IsTrue result → spec.IsReadable deepest value.now }
{
    match value {
        Json::Null => true,
        Json::Bool(_) => true,
        Json::Number(number) => {
            let _text = number.as_bytes();
            true
        }
        Json::Text(text) => {
            let _text = text.as_str();
            true
        }
        Json::Array(elements) => deepest > 0 && are_readable(deepest - 1, elements.as_slice()),
        Json::Object(members) => deepest > 0 && have_readable(deepest - 1, members.as_slice()),
    }
}

/// Whether arrays and objects nest no deeper than this in any of these elements.
#[cycle(readable)]
fn are_readable(deepest: u32, elements: &[Json]) -> bool
    ensures { IsTrue result → AllByRecursion (spec.IsReadable deepest) elements.now }
{
    'elements: for element in elements {
        if !is_readable(deepest, element) {
            return false;
        }
    }
    true
}

/// Whether arrays and objects nest no deeper than this in the value of any of these members.
#[cycle(readable)]
fn have_readable(deepest: u32, members: &[(OwnText, Json)]) -> bool
    ensures { IsTrue result → AllByRecursion (spec.IsReadableMember deepest) members.now }
{
    'members: for member in members {
        let _name = member.0.as_str();
        if !is_readable(deepest, &member.1) {
            return false;
        }
    }
    true
}

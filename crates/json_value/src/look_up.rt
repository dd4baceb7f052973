// Looking up the members of an object by name.
ghost use Rattle.std.specs.Prelude.{◌≡◌};
ghost use Rattle.std.specs.Option.{option_copied};
ghost use Rattle.json_value.specs.Answers.{Finds};
ghost use Rattle.json_value.specs.Members as spec;
ghost use Rattle.json_value.specs.Places.{IsPlace};

use crate::fault::LookupFault;
use crate::json::Json;
use owned_values::OwnText;

/// Where the member of this name stands, if there is one.
fn place_of(members: &[(OwnText, Json)], name: &str) -> Result<Option<usize>, LookupFault>
    ensures { IsPlace name.now members.now result }
{
    let mut found = None;
    'members: for (index, member) in members.iter().enumerate() {
        if member.0.as_str() != name {
            continue;
        }
        if found.is_some() {
            return Err(LookupFault::Duplicate);
        }
        found = Some(index);
    }
    Ok(found)
}

/// The value of the member of this name, if there is one.
pub fn find<'a>(members: &'a [(OwnText, Json)], name: &str) -> Result<Option<&'a Json>, LookupFault>
    ensures { Finds option_copied result (spec.find name.now members.now) }
{
    match place_of(members, name)? {
        None => Ok(None),
        Some(index) => Ok(Some(&members[index].1)),
    }
}

/// The value of the member of this name, which must be there.
pub fn need<'a>(members: &'a [(OwnText, Json)], name: &str) -> Result<&'a Json, LookupFault>
    ensures { Finds (λ v. v.now) result (spec.need name.now members.now) }
{
    match find(members, name)? {
        None => Err(LookupFault::Missing),
        Some(value) => Ok(value),
    }
}

/// The text that the member of this name must hold.
pub fn need_text<'a>(members: &'a [(OwnText, Json)], name: &str) -> Result<&'a str, LookupFault>
    ensures { Finds (λ t. t.now) result (spec.need_text name.now members.now) }
{
    match need(members, name)?.as_text() {
        None => Err(LookupFault::WrongKind),
        Some(text) => Ok(text),
    }
}

// The values of properties.
ghost use Rattle.std.specs.Prelude.{◌≡◌, IfOk};
ghost use Rattle.json_value.specs.Kinds.{object_of};
ghost use Rattle.json_value.specs.PropertyMembers.{members_if, members_in};

use crate::fault::Fault;
use crate::parser::TOPOLOGY_DEPTH;
use crate::values::value_at;
use json_value::{Items, Json, OwnText, Properties, PropertiesForm, copy_members};
use owned_values::Memory;
use std::alloc::Global;

/// How deep arrays and objects of properties may nest.
const DEPTH: u32 = TOPOLOGY_DEPTH - 1;

/// The members, if the value is an object, and else none.
fn members_of(alloc: Global, value: Json) -> Items<(OwnText, Json)>
    ensures { result ≡ members_if (object_of value) }
{
    match value.into_object() {
        Some(members) => members,
        None => Items::of(Vec::new(alloc)),
    }
}

/// The members of the object that the text begins with.
#[tactic(auto, unfolding(json_value::specs::PropertyMembers::members_in))]
fn members_of_text(alloc: Global, text: &[u8]) -> Result<Items<(OwnText, Json)>, Memory>
    ensures { IfOk result (λ members. members ≡ members_in text.now) }
{
    match value_at(alloc, DEPTH, text) {
        Ok((value, _rest)) => Ok(members_of(alloc, value)),
        Err(Fault::Malformed { .. }) => Ok(Items::of(Vec::new(alloc))),
        Err(Fault::Memory) => Err(Memory),
    }
}

/// The members of the properties in order, with duplicates, in memory of their own. Where a text is kept it is read.
pub fn property_values(
    alloc: Global,
    properties: &Properties,
) -> Result<Items<(OwnText, Json)>, Memory>
    ensures { IfOk result (λ members. members ≡ properties.now) }
{
    match properties.form() {
        PropertiesForm::Values(members) => copy_members(alloc, members),
        PropertiesForm::Text(text) => members_of_text(alloc, text),
    }
}

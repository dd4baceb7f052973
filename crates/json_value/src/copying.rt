// Values once more, in memory of their own.
ghost use Rattle.std.specs.Prelude.{◌≡◌, IfOk};

use crate::json::Json;
use owned_values::{Items, Memory, OwnText};
use std::alloc::Global;

impl Json {
    /// A copy of the value, in memory of its own: members in their order and with their duplicates, numbers by
    /// their own texts.
    #[cycle(copying)]
    pub fn copy(&self, alloc: Global) -> Result<Json, Memory>
        ensures { IfOk result (λ v. v ≡ self.now) }
    {
        match self {
            Json::Null => Ok(Json::Null),
            Json::Bool(is_true) => Ok(Json::Bool(*is_true)),
            Json::Number(number) => Ok(Json::Number(number.copy(alloc)?)),
            Json::Text(text) => Ok(Json::Text(text.copy(alloc)?)),
            Json::Array(elements) => Ok(Json::Array(copy_elements(alloc, elements.as_slice())?)),
            Json::Object(members) => Ok(Json::Object(copy_members(alloc, members.as_slice())?)),
        }
    }
}

/// A copy of the elements, in memory of its own.
#[cycle(copying)]
fn copy_elements(alloc: Global, elements: &[Json]) -> Result<Items<Json>, Memory>
    ensures { IfOk result (λ vs. vs ≡ elements.now) }
{
    let mut copied = Vec::with_capacity(alloc, elements.len())?;
    'elements: for element in elements {
        copied.push(element.copy(alloc)?)?;
    }
    Ok(Items::of(copied))
}

/// A copy of the members, in memory of its own, in their order and with their duplicates.
#[cycle(copying)]
pub fn copy_members(
    alloc: Global,
    members: &[(OwnText, Json)],
) -> Result<Items<(OwnText, Json)>, Memory>
    ensures { IfOk result (λ ms. ms ≡ members.now) }
{
    let mut copied = Vec::with_capacity(alloc, members.len())?;
    'members: for member in members {
        let name = member.0.copy(alloc)?;
        let value = member.1.copy(alloc)?;
        copied.push((name, value))?;
    }
    Ok(Items::of(copied))
}

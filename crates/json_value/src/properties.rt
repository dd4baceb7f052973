// Properties in either form.
ghost use Rattle.std.specs.Prelude.{◌≡◌, IfOk};
ghost use Rattle.json_value.specs.Text.{json_text};
ghost use Rattle.json_value.specs.declared.json.Json.TheVariants as j;
ghost use Rattle.json_value.specs.PropertyMembers.{members_in};
ghost use Rattle.json_value.specs.Forms.{Shows};

use crate::copying::copy_members;
use crate::json::Json;
use owned_values::{Items, Memory, OwnText};
use std::alloc::Global;
use std::marker::Model;

// What properties are kept as: their members, or the text of the object with these members, in memory of its own or in memory that stays.
#[derive(Debug, Drop)]
enum Form {
    Values(Items<(OwnText, Json)>),
    Text(Items<u8>),
    Lent(&'static [u8]),
}

/// The properties of a feature, which are an object: its members in order, with duplicates.
#[derive(Debug, Drop)]
pub struct Properties {
    form: Form,
}

impl Model for Properties {
    ghost use Rattle.json_value.specs.PropertyMembers.{Members, members_code};

    ghost Value = { Members };

    ghost coded = { members_code };

    ghost use Rattle.std.specs.Prelude.{◌≡◌};
    ghost use Rattle.json_value.specs.Text.{json_text};
    ghost use Rattle.json_value.specs.declared.json.Json.TheVariants as j;
    ghost use Rattle.json_value.specs.Kept.{kept_members, kept_text};

    ghost view = { λ p. kept_members p.form };

    ghost invariant = { λ p. json_text (j.Object (kept_members p.form)) ≡ kept_text p.form };
}

/// What properties look like to those that write or copy them.
#[derive(Clone, Copy)]
pub enum PropertiesForm<'a> {
    /// The members.
    Values(&'a [(OwnText, Json)]),
    /// The text that is written for the object with these members.
    Text(&'a [u8]),
}

impl Properties {
    /// The properties with these members. This takes no memory.
    pub fn of(members: Items<(OwnText, Json)>) -> Properties
        ensures { result ≡ members }
    {
        Properties {
            form: Form::Values(members),
        }
    }

    /// The properties that the text has, which is the one that is written for them. This takes no memory.
    pub fn of_text(text: Vec<u8>) -> Properties
        requires { json_text (j.Object (members_in text.items)) ≡ text.items }
        ensures { result ≡ members_in text.items }
    {
        Properties {
            form: Form::Text(Items::of(text)),
        }
    }

    /// The same where the text stands in memory that stays to the end of the process, in which it is left.
    pub fn lent(text: &'static [u8]) -> Properties
        requires { json_text (j.Object (members_in text.now)) ≡ text.now }
        ensures { result ≡ members_in text.now }
    {
        Properties {
            form: Form::Lent(text),
        }
    }

    /// Their members, or their text.
    pub fn form(&self) -> PropertiesForm<'_>
        ensures { Shows self.now result }
    {
        match &self.form {
            Form::Values(members) => PropertiesForm::Values(members.as_slice()),
            Form::Text(text) => PropertiesForm::Text(text.as_slice()),
            Form::Lent(text) => PropertiesForm::Text(text),
        }
    }

    /// A copy of the properties, in memory of its own.
    pub fn copy(&self, alloc: Global) -> Result<Properties, Memory>
        ensures { IfOk result (λ p. p ≡ self.now) }
    {
        match self.form() {
            PropertiesForm::Values(members) => Ok(Properties::of(copy_members(alloc, members)?)),
            PropertiesForm::Text(text) => Ok(Properties::of_text(copy_text(alloc, text)?)),
        }
    }
}

/// The bytes once more.
fn copy_text(alloc: Global, text: &[u8]) -> Result<Vec<u8>, Memory>
    ensures { IfOk result (λ copied. copied.items ≡ text.now) }
{
    let mut copied = Vec::with_capacity(alloc, text.len())?;
    copied.extend_from_slice(text)?;
    Ok(copied)
}

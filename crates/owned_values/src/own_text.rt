// Texts that are owned.
ghost use Rattle.std.specs.Prelude.{◌≡◌, IfOk, IsUtf8, string_bytes};

use crate::memory::Memory;
use std::alloc::Global;
use std::marker::Model;

/// A `String` that contracts see as the list of its bytes, which are UTF-8.
#[derive(Debug, Drop)]
pub struct OwnText {
    text: String,
}

impl Model for OwnText {
    ghost use Rattle.std.specs.Prelude.{List, ℕ, string_bytes};

    ghost Value = { List ℕ };

    ghost view = { λ t. string_bytes t.text };
}

impl OwnText {
    /// The text of the string. This allocates nothing.
    pub fn of(text: String) -> OwnText
        ensures { result ≡ string_bytes text }
    {
        OwnText { text }
    }

    /// A copy of the text, in memory of its own.
    pub fn copy(&self, alloc: Global) -> Result<OwnText, Memory>
        ensures { IfOk result (λ t. t ≡ self.now) }
    {
        Ok(OwnText {
            text: String::from_str(alloc, self.as_str())?,
        })
    }

    /// The whole text.
    pub fn as_str(&self) -> &str
        ensures text { result.now ≡ self.now }
        ensures utf8 { IsUtf8 self.now }
    {
        self.text.as_str()
    }

    /// The string with the whole text.
    pub fn into_inner(self) -> String
        ensures { string_bytes result ≡ self }
    {
        let OwnText { text } = self;
        text
    }
}

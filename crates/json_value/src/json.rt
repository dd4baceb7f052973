// The type of JSON values, and what a value is.
ghost use Rattle.std.specs.Prelude.{◌≡◌, MatchOption, None, Some};
ghost use Rattle.json_value.specs.Kinds.{array_of, number_of, object_of, text_of};

use decimal_text::NumText;
use owned_values::{Items, OwnText};

/// A JSON value (RFC 8259, section 3). The members of an object keep their order and their duplicates, a text is what
/// its string stands for, with all escapes resolved, and a number is kept as its text.
#[derive(Debug, Drop)]
pub enum Json {
    Null,
    Bool(bool),
    Number(NumText),
    Text(OwnText),
    Array(Items<Json>),
    Object(Items<(OwnText, Json)>),
}

impl Json {
    /// The elements of an array.
    #[tactic(auto, unfolding(crate::specs::Kinds::array_of))]
    pub fn as_array(&self) -> Option<&[Json]>
        ensures { MatchOption result (array_of self.now ≡ None) (λ vs. array_of self.now ≡ Some vs.now) }
    {
        match self {
            Json::Array(items) => Some(items.as_slice()),
            _ => None,
        }
    }

    /// The members of an object, in order and with their duplicates.
    #[tactic(auto, unfolding(crate::specs::Kinds::object_of))]
    pub fn as_object(&self) -> Option<&[(OwnText, Json)]>
        ensures { MatchOption result (object_of self.now ≡ None) (λ ms. object_of self.now ≡ Some ms.now) }
    {
        match self {
            Json::Object(members) => Some(members.as_slice()),
            _ => None,
        }
    }

    /// The bytes of a text, with its escapes resolved.
    #[tactic(auto, unfolding(crate::specs::Kinds::text_of))]
    pub fn as_text(&self) -> Option<&str>
        ensures { MatchOption result (text_of self.now ≡ None) (λ t. text_of self.now ≡ Some t.now) }
    {
        match self {
            Json::Text(text) => Some(text.as_str()),
            _ => None,
        }
    }

    /// The text of a number.
    #[tactic(auto, unfolding(crate::specs::Kinds::number_of))]
    pub fn as_number(&self) -> Option<&NumText>
        ensures { MatchOption result (number_of self.now ≡ None) (λ n. number_of self.now ≡ Some n.now) }
    {
        match self {
            Json::Number(text) => Some(text),
            _ => None,
        }
    }

    /// The members of an object, by value. Any other value is freed.
    #[tactic(auto, unfolding(crate::specs::Kinds::object_of))]
    pub fn into_object(self) -> Option<Items<(OwnText, Json)>>
        ensures { MatchOption result (object_of self ≡ None) (λ ms. object_of self ≡ Some ms) }
    {
        match self {
            Json::Object(members) => Some(members),
            _ => None,
        }
    }

    /// A number, by value. Any other value is freed.
    #[tactic(auto, unfolding(crate::specs::Kinds::number_of))]
    pub fn into_number(self) -> Option<NumText>
        ensures { MatchOption result (number_of self ≡ None) (λ n. number_of self ≡ Some n) }
    {
        match self {
            Json::Number(number) => Some(number),
            _ => None,
        }
    }
}

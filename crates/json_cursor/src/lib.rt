//! A cursor over JSON text (RFC 8259): arrays are read element by element and objects member by member, whatever is made of them;
//! properties are copied as the text that is written for them. No value is made. It stands on `json_reading`. The layers above use the
//! contract `Answers` of `specs/Answers.antt`: what stands at the front is read so, or has this first fault whatever value it is, or is no
//! value; of objects the contracts of `specs/Members.antt`, with an `Occurrence` for each name that is looked for; and the one of
//! `read_properties`. The top of a reader asks `malformed` for the fault of a text that spells no value, which comes
//! before any fault of a value.
#![tactic(auto)]

mod copied_strings;
mod copied_values;
mod elements;
mod folds;
mod held;
mod kinds;
mod marks;
mod members;
mod names;
mod occurrence;
mod passing;
mod properties;
mod room;
mod spans;
mod stop;
mod texts;

pub use elements::{Element, array_at, led_array_at, some_array_at};
pub use folds::{Elements, folded_array_at, folded_some_at};
pub use held::held_array_at;
pub use kinds::{Kind, kind_at};
pub use marks::{Mark, Opening, after_byte, mark_at, opening_at};
pub use members::{Members, broken, object_at, object_into};
pub use names::{Name, name_at, named_at, string_at, word_at};
pub use occurrence::Occurrence;
pub use passing::{after_elements, after_others};
pub use properties::read_properties;
pub use room::{arrays_ahead, numbers_ahead};
pub use stop::Stop;
pub use texts::{Refusal, are_utf8, malformed, text_of};

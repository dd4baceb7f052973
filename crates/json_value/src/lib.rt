//! JSON values (RFC 8259), what their texts are, copies of them, the look-up of an object's members by name, and the properties of features
//! (RFC 7946, section 3.2) as values or as the one text that is written for them. It stands on `decimal_text` for the numbers, whose texts
//! it keeps. `specs/Grammar.antt` says which bytes spell which value and `specs/Text.antt` which text is written for a value; the contract
//! of `text_spells_value` joins the two. `specs/Readers.antt` defines a reader that counts while it reads, or answers the first fault. The
//! layers above look into a value by `Json::as_object` and its kin, find members by `find` and `need`, copy a value by
//! `Json::copy`, and make properties by `Properties::of` and `Properties::of_text`. Readers and writers of strings
//! pass over bytes that stand for themselves by `plain_len`.
#![tactic(auto)]

mod copying;
mod fault;
mod json;
mod laws;
mod look_up;
mod plain_bytes;
mod properties;

pub use copying::copy_members;
pub use decimal_text::{NumText, Range, Scaled};
pub use fault::LookupFault;
pub use json::Json;
pub use laws::{
    read_values_are_bounded, read_values_are_well_formed, text_spells_value, written_text_is_utf8,
};
pub use look_up::{find, need, need_text};
pub use owned_values::{Items, OwnText};
pub use plain_bytes::{LANES, first_lanes, plain_len};
pub use properties::{Properties, PropertiesForm};

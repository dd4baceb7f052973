//! Reads JSON (RFC 8259) with exact number texts: a whole text as a value, or what stands at the front of bytes; or checks a text and
//! passes over values without making one. It stands on `json_value`, whose `Grammar` says which bytes spell which value and whose `Reading`
//! says what stands at the front of bytes, and on `decimal_text`. A crate above uses the contract of `parse`: what is read is spelled so,
//! and what is spelled so is read; that of `check`, which says of a text what `parse` says; and that of `after_value`: what it gives
//! follows a value. A function that checks goes the way of the one that makes the value, so that it stops at the same byte. Users of the
//! library look into properties by `property_values`.
#![tactic(auto)]

mod bytes;
mod checked_bytes;
mod checked_strings;
mod checked_values;
mod checking;
mod fault;
mod lanes;
mod laws;
mod numbers;
mod parser;
mod property_reading;
mod strings;
mod values;

pub use bytes::{after_word, next, skip};
pub use checked_strings::plain_at;
pub use checked_values::after_value;
pub use checking::check;
pub use fault::{Fault, JsonFault, Why};
pub use lanes::rest_after_first;
pub use laws::{prefix_values_are_well_formed, written_text_is_read};
pub use numbers::{after_number, number_at};
pub use parser::{LAYER_DEPTH, TOPOLOGY_DEPTH, one_value, parse};
pub use property_reading::property_values;
pub use strings::{plain_run, string_at};
pub use values::{member_at, value_at};

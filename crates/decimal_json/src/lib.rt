//! JSON (RFC 8259) with exact number texts, exact decimals, and the two ends of a program's bytes: where a user of JSON begins. It
//! has nothing of its own, and passes on the crates that are one library to a user and five to the prover: `byte_ends`,
//! `decimal_text`, `json_value`, `json_writer` and `json_reading`. The contracts are theirs.
#![tactic(auto)]

mod readable;
mod written;

pub use byte_ends::{
    Broken, Drain, Failed, Feed, FromRead, MAX_INPUT, Memory, MemoryDrain, ReadFault, Sink, Source,
    ToWrite, WriteFault, devices, read_all,
};
pub use decimal_text::{NumText, Range, Scaled, units_again};
pub use json_reading::{
    JsonFault, LAYER_DEPTH, TOPOLOGY_DEPTH, Why, one_value, parse, written_text_is_read,
};
pub use json_value::{
    Items, Json, OwnText, copy_members, read_values_are_bounded, read_values_are_well_formed,
    text_spells_value, written_text_is_utf8,
};
pub use json_writer::{print_units, write_json, write_members, write_text};
pub use written::value_text;

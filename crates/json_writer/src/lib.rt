//! The writers of JSON values (RFC 8259), of strings, of numbers of units, of the properties of features in either form, and of lists
//! whatever their items are. It stands on `json_value`, whose `specs/Text.antt` says which text is written for a value, and on `byte_ends`
//! for the sinks that it writes to. A writer of a part of a text, `put_..`, puts it behind what an `Out` has, and its contract says so:
//! `put_text`, `put_json`, `put_members`, `put_properties`, `put_decimal`, `put_pair`, and `put_array` and `put_object` of lists, over the
//! layers' own ways `PutValue` to write an item. `Buffered` is the `Out` over a sink: it calls the sink once for many short parts, and its
//! `end` answers for the whole text. `add_units` puts a number of units into a `ShortText`.
#![tactic(auto)]

mod buffered;
mod list_writer;
mod number_writer;
mod out;
mod room_writer;
mod short_text;
mod text_writer;
mod trace;
mod units_writer;
mod value_writer;
mod whole_writer;

pub use buffered::Buffered;
pub use list_writer::{ArrayOf, PutValue, put_array, put_object};
pub use number_writer::{put_decimal, put_pair};
pub use out::{Out, put_comma};
pub use short_text::ShortText;
pub use text_writer::put_text;
pub use units_writer::{add_units, print_units};
pub use value_writer::{put_json, put_members, put_name, put_properties};
pub use whole_writer::{write_json, write_members, write_text};

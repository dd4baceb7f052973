//! What all layers stand on: owned lists and texts, the error of want of memory, and the words and laws of lists, options and truth values
//! that the library has not. Contracts see a list as its elements and a text as its bytes. It stands on std alone. `specs/Lists.antt` has
//! the words, `specs/Commas.antt` those of texts in a row with commas; `proofs/` has the laws: `Elements` of what holds of each element of
//! a list, `Members` of which elements a list has, `Lists` of lists made of lists.
#![tactic(auto)]

mod items;
mod memory;
mod own_text;

pub use items::Items;
pub use memory::Memory;
pub use own_text::OwnText;

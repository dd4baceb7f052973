//! Decimal number texts as whole numbers of units, and whole numbers of units as decimal texts.
//! The layers above read a number by `NumText::scaled`, whose clause `value` gives the exact result. `units_text` of
//! `specs/Scaling.antt` is the text of units, and `units_again` says that it is read as the same number.
#![tactic(auto)]

mod digits;
mod few_bytes;
mod laws;
mod num_text;
mod number_parts;
mod rounding;
mod scaling;
mod units;

pub use laws::{numbers_have_parts, parts_are_spelled, rounded_is_unique, scaled_is_nearest};
pub use num_text::{NumText, Range, Scaled};
pub use units::units_again;

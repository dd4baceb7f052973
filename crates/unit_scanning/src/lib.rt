//! Numbers read from bytes straight into whole units of coordinates, or into whole numbers: no text is kept and no memory is taken. A number
//! with an exponent or very many digits isn't read so. It stands on `json_value`, whose `Reading` says what stands at the front of bytes, on
//! `decimal_text`, which says what value a number has, and on `geometry`, which says what a unit is. The layers above use the contracts of
//! `units_at`, of `long_units_at`, which `long_units_in_place` is without a call, of `plain_units_at` and of `whole_number_at`, and of pairs of
//! them, of `units_pair_at`, of `whole_pair_at` and of `least_pair_at`.
#![tactic(auto)]

mod cut;
mod digits;
mod ends;
mod least;
mod pairs;
mod plain;
mod signs;
mod units;

pub use least::least_pair_at;
pub use pairs::{units_pair_at, whole_pair_at};
pub use plain::plain_units_at;
pub use units::{Units, long_units_at, long_units_in_place, units_at, whole_number_at};

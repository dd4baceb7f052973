//! Reduction of lines by repeated elimination of the point of least effective area (Visvalingam and Whyatt 1993): the
//! definition and its laws. It stands on `geometry`, whose areas it uses. The layers above use `specs/Elimination.antt`,
//! and the laws below, above all that a line and its reverse are reduced to the same positions.
#![tactic(auto)]

mod laws;

pub use laws::{
    direction_law, ends_stay, higher_keeps_fewer, index_direction_law, indexes_rise,
    kept_by_weight, none_is_left, nothing_is_new, zero_law,
};

//! The linework of layers: their lines and rings in reading order, with equal neighbours as one position. It stands on
//! `geojson_types`, whose layers it walks, and on `junctions`, which it passes on. The layers above use the contracts of `Lines::of` (of the
//! trait `OfLayers`), which copies the positions and gives the linework of `specs/Linework.antt`, and of `lines_of_outlines`, which is given
//! lines and rings by value and cleans them where they stand (`specs/Outlines.antt`).
#![tactic(auto)]

mod cleaning;
mod gathering;
mod laws;
mod layers;
mod outlines;

pub use junctions::{Address, Cause, Dropped, Lines, Stroke, Vertices};
pub use laws::{no_position_is_new, placed_lines_and_rings_are_all};
pub use layers::OfLayers;
pub use outlines::{Outlines, lines_of_outlines};

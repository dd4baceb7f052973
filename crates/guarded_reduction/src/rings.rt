// Rings that are to keep four positions.
pub mod kept_rings;
pub mod ring_moves;

//! Where the rings of the linework start, and the pieces into which its lines and rings are cut at junctions. It stands on
//! `junctions`. The layers above use `Pieces`, whose type keeps what the pieces of lines have in common: two that share a
//! segment are equal or each other's reverse, no segment stands twice in one, and the positions between its ends are
//! distinct (`specs/Places.antt`). `proofs/` has the proof, from walks between cut positions to all pieces of all lines.
#![tactic(auto)]

mod cut_indexes;
mod cut_line;
mod piece_iter;
mod pieces;
mod splitting;
mod starting;

pub use cut_indexes::CutIndexes;
pub use cut_line::CutLine;
pub use piece_iter::PieceIter;
pub use pieces::{Pieces, cut};
pub use starting::ring_start;

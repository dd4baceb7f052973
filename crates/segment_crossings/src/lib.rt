//! Pairs of segments of arcs that meet badly, as `guarded_meaning` has it: `crossings_with` counts them, and gives the first of them. Up to eight
//! segments of an arc, one after another, stay together, and these stretches are halved, and so are the halves (`src/gathering.rt`). A tree over them has
//! a node of each half, with the box round its segments (`src/tree.rt`). The pairs of a node are those of its two parts, and those of one part with the
//! other: of two nodes whose boxes meet the parts of the larger are gone through, and in the end each segment by itself (`src/counting.rt`). That takes
//! steps. Where too many would be taken, as by long segments side by side, segments are crowded: each is a stretch, near ones of about the same length
//! are close together, each node has a mark, which is a strip along one of its segments that holds them all, and a box of the other ends where all have
//! one end, as those of a star (`src/mark.rt`), and each segment goes through the tree by itself. How many steps that takes is not promised. The pairs
//! are looked for in the order of the arcs, among the segments that others meet badly (`src/pairing.rt`).
#![tactic(auto)]

mod counting;
mod crossing;
mod gathering;
mod line;
mod mark;
mod pairing;
mod run;
mod tree;

pub use crossing::Crossing;
pub use pairing::crossings_with;

//! From layers and the indexes of their arcs to a topology (TopoJSON 1.0) over reduced arcs, of each of which only some positions are left,
//! and simplifying a topology in the same way. Layers are taken apart and become a draft, in which each line and ring is replaced by its arc
//! indexes (`specs/Drafts.antt`); a topology is a draft as it is. There is one way to finish a draft: lines and rings that are left with too few
//! positions or enclose too little are dropped, arcs that no kept line uses are left out, and the others have new indexes. What stays of the
//! arcs is given as `Retained`, and `Left` is what comes back. What is left of an arc is made of it alone (`retained_positions`,
//! `retained_arc`), so that it can be freed before the next is reduced; `assemble` and `Reduces::reduce` are for who has the numbers of all
//! arcs at once. Where in each feature a ring is protected, it is named by the way to its polygon, and stays; where none is, no ways are given.
//! `protected_rings` finds the rings that are protected. It stands on `build_meaning`, which says what topology that is and when it
//! is what is built of the layers, and on `arc_table`. The layers above use the contracts of `take_apart`, `filled`, `assemble_draft` and of
//! `reassemble`, and put cells in the place of positions by `prune_objects`. Where small rings go first they make a `Rebuilding` of the arcs as
//! they stand, learn which arcs are used without the lines and rings that are small then (`used_at_first`), and have each line judged by it
//! before it is judged by what is left (`finish`).
#![tactic(auto)]

mod assembling;
mod choosing;
mod counting;
mod draft_uses;
mod enclosing;
mod filling;
mod finishing;
mod given_numbers;
mod judging;
mod leaving_out;
mod left;
mod marking;
mod places;
mod placing;
mod position_counting;
mod protecting;
mod pruning;
mod reassembling;
mod rebuilding;
mod reducing;
mod retaining;
mod searching;
mod taking_apart;
mod trimming;
mod way_steps;

pub use assembling::{assemble, assemble_draft};
pub use draft_uses::used_at_first;
pub use filling::filled;
pub use finishing::finish;
pub use given_numbers::{cells_of_all, positions_of_all};
pub use leaving_out::prune_objects;
pub use left::{Left, Retained};
pub use placing::placed_arcs;
pub use position_counting::position_counts;
pub use protecting::protected_rings;
pub use pruning::Keeps;
pub use reassembling::reassemble;
pub use rebuilding::Rebuilding;
pub use reducing::Reduces;
pub use retaining::{retained_arc, retained_cells, retained_positions};
pub use taking_apart::take_apart;
pub use topojson_types::{
    ArcRef, CELL_LIMIT, Cell, GRID_LIMIT, SumFault, TopoFeature, TopoObject, TopoShape, Topology,
    Transform, TransformNumber, placed, sums,
};
pub use trimming::{renumber_all, renumbering};

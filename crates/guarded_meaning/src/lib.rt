//! Guarded reduction of all arcs at once, in which a corner goes only where no crossing is made of it, or where rings keep four
//! positions: the definition and its laws. It stands on `elimination_meaning`, which reduces a line by itself, on `junctions` for equal
//! neighbours, and on `geometry`. `specs/Elimination.antt` and `specs/Guards.antt` have what a layer above would use.
#![tactic(auto)]

mod laws;
mod next_laws;

pub use laws::{
    arcs_rise, box_law, counted_by_weight, crossings_never_rise, either_way, fewer_arcs_law,
    higher_keeps_fewer, kept_by_weight, no_crossings_law, none_goes, none_stays_none, rings_stay,
    share_is_greatest, share_stays, side_law, step_law, thinned_law, unguarded_index_law,
    unguarded_law,
};
pub use next_laws::{
    free_or_held, held_is_not_free, holder_stays, never_again, next_law, no_next_law,
};

//! Which topology (TopoJSON 1.0) is built of layers, and which features are expected of it; what is left where one is reduced once more; and
//! what is built of layers that are snapped to a grid over them: the definitions and the laws of all these. There is no code but the laws. It
//! stands on `linework`, `cutter`, `arc_table` and `elimination_meaning`, whose definitions it puts together, on `guarded_meaning` for arcs
//! that are reduced at once, on `grid_snap`, whose grids have cells, and on `topojson_types`, which says what a topology decodes to and where a
//! cell lies by a transform. The layers above use the definitions and the laws: what is built, reduced or put on a grid is valid, decodes to
//! the features that are expected of the layers, and names no arc that isn't there; each segment of the lines lies once, in exactly one arc;
//! and without a guard what is left of what is built of layers at zero is what is built of them at the threshold, with a grid and without.
//! `specs/Left.antt` says what is left of a topology at once, and `specs/InTurn.antt` what is left where small rings go first, and of layers.
#![tactic(auto)]

mod built_laws;
mod grid_laws;
mod guards;
mod in_turn_laws;
mod left_laws;
mod ring_laws;
mod simplified_laws;
mod transform_laws;

pub use built_laws::{built_decodes_back, built_is_valid, each_segment_once, zero_loses_nothing};
pub use grid_laws::{
    built_cells_are_on, built_decodes_quantized, built_is_valid_quantized, quantized_decodes,
    quantized_is_valid, quantized_keeps, snapped_are_on, snapped_keep,
};
pub use guards::Guards;
pub use in_turn_laws::{
    first_is_left_at_zero, first_of_built, in_turn_is_at_once, same_rings_at_first,
    same_rings_stay, shapes_stay_in_turn, without_small_crosses_no_more, without_small_is_valid,
    without_small_keeps, without_small_on_grid,
};
pub use left_laws::{
    arcs_retained_are_reduced, crossings_never_rise, greatest_ring_is_greatest,
    left_arcs_are_reduced, left_indexes_reach, left_is_valid, left_keeps, left_on_grid,
    none_is_greatest, none_stays_none, shapes_stay, spared_cells_are_on, spared_is_valid,
    spared_keeps, spared_nests_no_deeper, unguarded_is_built, unguarded_is_simplified,
    unprotected_is_simplified,
};
pub use ring_laws::protected_rings_can_stay;
pub use simplified_laws::{
    arc_indexes_reach, assembles_to_built, assembling_drops_expected, assembling_removes,
    built_decodes_back_on_grid, built_decodes_on_grid, built_is_valid_on_grid, celled_decodes,
    celled_is_valid, indexes_reach, retained_is_reduced, simplified_keeps,
};
pub use transform_laws::{cells_are_on_grid, cells_lie_there, grid_has_transform};

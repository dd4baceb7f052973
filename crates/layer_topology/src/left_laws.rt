// Laws of the definitions. A function here changes nothing: its contract is the law.
ghost use Rattle.layer_topology.specs.GuardLaws.{GuardedAtZero, LeftByLines, LeftLaw, ShareStays, UnguardedIsWritten, WrittenLeftLaw};

use crate::laws::written_laws;
use build_meaning::{
    built_cells_are_on, crossings_never_rise, first_is_left_at_zero, first_of_built,
    in_turn_is_at_once, left_arcs_are_reduced, left_indexes_reach, left_is_valid, left_keeps,
    left_on_grid, shapes_stay_in_turn, snapped_are_on, spared_nests_no_deeper, unguarded_is_built,
    unprotected_is_simplified, without_small_crosses_no_more, without_small_is_valid,
    without_small_keeps, without_small_on_grid,
};
use elimination_meaning::{ends_stay, nothing_is_new, zero_law};
use guarded_meaning::{kept_by_weight, no_crossings_law, share_stays as share_stays_at_once};

/// What is left of a valid topology is valid, with the same names, identifiers, properties and transform, and nests no deeper, whatever guards
/// are asked for. Where no crossing may be made, no more pairs of its segments meet badly than of the topology, none where none of that did, and
/// each two that do come of two that did. Where shapes stay, each feature keeps the outer ring that enclosed most.
pub fn left_law()
    ensures { LeftLaw }
{
    left_is_valid();
    left_keeps();
    crossings_never_rise();
    no_crossings_law();
    left_arcs_are_reduced();
    spared_nests_no_deeper();
    without_small_is_valid();
    without_small_keeps();
    without_small_crosses_no_more();
    shapes_stay_in_turn();
}

/// Of arcs that are reduced at once at least the share stays that is asked for, whatever holds corners: of the positions between the ends, before
/// any line is dropped.
#[tactic(auto, using(crate::proofs::AtOnceRows::share_stays))]
pub fn share_stays()
    ensures { ShareStays }
{
    share_stays_at_once();
}

/// What is written of layers under the guards that are asked for is what is left of the topology that is written at zero, has the layers' names, and
/// nests no deeper than they do.
pub fn written_left_law()
    ensures { WrittenLeftLaw }
{
    left_law();
    unguarded_is_built();
    snapped_are_on();
    built_cells_are_on();
    left_on_grid();
    without_small_on_grid();
    without_small_keeps();
    written_laws();
}

/// Where guards are asked for, what is left of layers is left by their own lines and rings, each unless there is the cause to drop it that is reported of
/// it.
#[tactic(auto, using(crate::proofs::ByLines::left_by_lines))]
pub fn left_by_lines()
    ensures { LeftByLines }
{
    zero_law();
    ends_stay();
    nothing_is_new();
    kept_by_weight();
    unprotected_is_simplified();
    unguarded_is_built();
    first_is_left_at_zero();
    first_of_built();
    in_turn_is_at_once();
    left_indexes_reach();
    without_small_is_valid();
}

/// Without a guard it is what is written of them at the threshold and the limit.
#[tactic(auto, using(crate::proofs::Guarded::unguarded_is_written))]
pub fn unguarded_is_written()
    ensures { UnguardedIsWritten }
{}

/// What is written of layers at a threshold and a limit of zero is the same whatever guards are asked for.
#[tactic(auto, using(crate::proofs::AtZero::guarded_at_zero))]
pub fn guarded_at_zero()
    ensures { GuardedAtZero }
{
    kept_by_weight();
    unprotected_is_simplified();
    written_left_law();
    unguarded_is_written();
}

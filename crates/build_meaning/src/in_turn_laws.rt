// Laws of what is left where small rings go first. A function here changes nothing: its contract is the law.
ghost use Rattle.build_meaning.specs.InTurnLaws.{FirstIsLeftAtZero, FirstOfBuilt, InTurnIsAtOnce, SameRingsAtFirst, SameRingsStay, ShapesStayInTurn, WithoutSmallCrossesNoMore, WithoutSmallIsValid, WithoutSmallKeeps, WithoutSmallOnGrid};

use crate::left_laws::{crossings_never_rise, left_is_valid, left_keeps, left_on_grid};
use guarded_meaning::{arcs_rise, kept_by_weight, rings_stay};

/// What goes first is what goes at a threshold of zero.
#[tactic(auto, using(crate::proofs::AtFirst::first_at_zero))]
pub fn first_is_left_at_zero()
    ensures { FirstIsLeftAtZero }
{
    kept_by_weight();
}

/// What goes first of what is built of layers at zero goes first of the layers over all their arcs.
pub fn first_of_built()
    ensures { FirstOfBuilt }
{}

/// In each feature the same ring is protected without what goes first.
pub fn same_rings_at_first()
    ensures { SameRingsAtFirst }
{}

/// And the same rings have to stay.
pub fn same_rings_stay()
    ensures { SameRingsStay }
{}

/// What is left in turn is left at once.
pub fn in_turn_is_at_once()
    ensures { InTurnIsAtOnce }
{}

/// A valid topology is valid without what goes first.
pub fn without_small_is_valid()
    ensures { WithoutSmallIsValid }
{
    first_is_left_at_zero();
    left_is_valid();
}

/// It has its objects with their names, their features with identifiers and properties, and its transform.
#[tactic(auto, using(crate::proofs::AtFirst::first_keeps))]
pub fn without_small_keeps()
    ensures { WithoutSmallKeeps }
{
    first_is_left_at_zero();
    left_keeps();
}

/// On a grid on which its positions lie the same goes first.
pub fn without_small_on_grid()
    ensures { WithoutSmallOnGrid }
{
    first_is_left_at_zero();
    left_on_grid();
}

/// Where no crossing may be made, no more pairs of segments meet badly without what goes first.
#[tactic(auto, using(crate::proofs::AtFirst::first_crosses_no_more))]
pub fn without_small_crosses_no_more()
    ensures { WithoutSmallCrossesNoMore }
{
    first_is_left_at_zero();
    crossings_never_rise();
}

/// Where shapes stay each feature keeps its protected ring.
#[tactic(auto, using(crate::proofs::InTurn::shapes_stay_in_turn))]
pub fn shapes_stay_in_turn()
    ensures { ShapesStayInTurn }
{
    arcs_rise();
    rings_stay();
}

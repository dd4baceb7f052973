// Laws of the definitions. A function here changes nothing: its contract is the law.
ghost use Rattle.build_meaning.specs.LeftLaws.{ArcsRetainedAreReduced, CrossingsNeverRise, GreatestRingIsGreatest, LeftArcsAreReduced, LeftIndexesReach, LeftIsValid, LeftKeeps, LeftOnGrid, NoneIsGreatest, NoneStaysNone, ShapesStay, SparedCellsAreOn, SparedIsValid, SparedKeeps, SparedNestsNoDeeper, UnguardedIsBuilt, UnguardedIsSimplified, UnprotectedIsSimplified};

use elimination_meaning::{direction_law, nothing_is_new, zero_law};
use guarded_meaning::{arcs_rise, fewer_arcs_law, rings_stay, unguarded_index_law};

/// The protected ring is an outer ring of four positions or more, and of those the first that encloses most.
#[tactic(auto, using(crate::proofs::Greatest::greatest_is))]
pub fn greatest_ring_is_greatest()
    ensures { GreatestRingIsGreatest }
{}

/// Where a shape has none, no outer ring of it has four positions.
#[tactic(auto, using(crate::proofs::Greatest::none_is))]
pub fn none_is_greatest()
    ensures { NoneIsGreatest }
{}

/// Where no ring is protected, the same is left of a topology as where nothing is said of rings.
pub fn unprotected_is_simplified()
    ensures { UnprotectedIsSimplified }
{}

/// A topology of whose arcs cells are left out between the ends is valid again, whichever rings are protected.
pub fn spared_is_valid()
    ensures { SparedIsValid }
{}

/// It has its objects with their names, their features with identifiers and properties, and its transform.
pub fn spared_keeps()
    ensures { SparedKeeps }
{}

/// Where each position of a topology lies on the grid, so does each of what is left of it.
pub fn spared_cells_are_on()
    ensures { SparedCellsAreOn }
{}

/// What is left of a topology nests no deeper than it.
pub fn spared_nests_no_deeper()
    ensures { SparedNestsNoDeeper }
{}

/// Without a guard each arc is reduced by itself.
pub fn unguarded_is_simplified()
    ensures { UnguardedIsSimplified }
{
    unguarded_index_law();
}

/// What is left without a guard of what is built of layers at zero, on a grid too, is what is built of them at the threshold.
pub fn unguarded_is_built()
    ensures { UnguardedIsBuilt }
{
    direction_law();
    nothing_is_new();
    zero_law();
    unguarded_index_law();
}

/// The positions with the indexes that stay are those that stay.
#[tactic(auto, using(crate::proofs::Reduced::retained_are_reduced))]
pub fn arcs_retained_are_reduced()
    ensures { ArcsRetainedAreReduced }
{}

/// The arcs that are left of a topology are the reduced ones that a line uses that is kept.
#[tactic(auto, using(crate::proofs::LeftOf::arcs_are_reduced))]
pub fn left_arcs_are_reduced()
    ensures { LeftArcsAreReduced }
{}

/// The indexes that stay of a valid topology's arc reach from its first cell to its last.
#[tactic(auto, using(crate::proofs::LeftOf::indexes_reach))]
pub fn left_indexes_reach()
    ensures { LeftIndexesReach }
{
    arcs_rise();
}

/// A topology whose arcs are reduced is valid again.
pub fn left_is_valid()
    ensures { LeftIsValid }
{
    arcs_rise();
}

/// It has its objects with their names, their features with identifiers and properties, and its transform.
pub fn left_keeps()
    ensures { LeftKeeps }
{}

/// On a grid on which its positions lie a topology has the same rings to stay, and what is left of it is what is left of it without the grid,
/// put on the grid.
pub fn left_on_grid()
    ensures { LeftOnGrid }
{}

/// Where no crossing may be made, no more pairs of segments meet badly than before.
#[tactic(auto, using(crate::proofs::LeftOf::crossings_never_rise))]
pub fn crossings_never_rise()
    ensures { CrossingsNeverRise }
{
    guarded_meaning::crossings_never_rise();
    fewer_arcs_law();
}

/// And none do where none did.
#[tactic(auto, using(crate::proofs::LeftOf::none_stays_none))]
pub fn none_stays_none()
    ensures { NoneStaysNone }
{
    guarded_meaning::none_stays_none();
    fewer_arcs_law();
}

/// Where shapes stay each feature that has an outer ring of four positions or more keeps the one that encloses most.
#[tactic(auto, using(crate::proofs::LeftOf::shapes_stay))]
pub fn shapes_stay()
    ensures { ShapesStay }
{
    rings_stay();
}

// Laws of the definitions. A function here changes nothing: its contract is the law.
ghost use Rattle.build_meaning.specs.SimplifiedLaws.{ArcIndexesReach, AssemblesToBuilt, AssemblingDropsExpected, AssemblingRemoves, BuiltDecodesOnGrid, BuiltIsValidOnGrid, CelledDecodes, CelledIsValid, DecodesBackOnGrid, IndexesReach, SimplifiedKeeps, RetainedIsReduced};

use crate::built_laws::{built_decodes_back, built_is_valid};
use elimination_meaning::{direction_law, ends_stay, nothing_is_new, zero_law};
use guarded_meaning::{arcs_rise, unguarded_index_law};

/// The positions with the indexes that stay are those that stay.
#[tactic(auto, using(crate::proofs::ValidRetained::retained_is_reduced))]
pub fn retained_is_reduced()
    ensures { RetainedIsReduced }
{}

/// Reducing a topology leaves its objects with their names, their features with identifiers and properties, and its transform.
pub fn simplified_keeps()
    ensures { SimplifiedKeeps }
{}

/// Where the cell of each position lies at it, the cells decode to what the positions do.
#[tactic(auto, using(crate::proofs::CelledDecoding::celled_decodes))]
pub fn celled_decodes()
    ensures { CelledDecodes }
{}

/// What is built of layers on a grid on which each of their positions lies decodes to what is built of them without a grid.
#[tactic(auto, using(crate::proofs::CelledDecoding::built_decodes))]
pub fn built_decodes_on_grid()
    ensures { BuiltDecodesOnGrid }
{
    nothing_is_new();
}

/// Decoding what is built of layers on a grid on which their positions lie gives each layer the features that are expected of it.
pub fn built_decodes_back_on_grid()
    ensures { DecodesBackOnGrid }
{
    built_decodes_back();
    nothing_is_new();
}

/// A valid topology is valid on a grid on which each of its positions lies.
pub fn celled_is_valid()
    ensures { CelledIsValid }
{}

/// What is built of layers on a grid on which each of their positions lies is valid.
pub fn built_is_valid_on_grid()
    ensures { BuiltIsValidOnGrid }
{
    built_is_valid();
    nothing_is_new();
}

/// The indexes that reduction leaves of a valid topology's arc reach from its first cell to its last.
#[tactic(auto, using(crate::proofs::LeftOf::reduced_indexes_reach))]
pub fn indexes_reach()
    ensures { IndexesReach }
{
    arcs_rise();
    unguarded_index_law();
}

/// What is assembled of layers, each arc reduced at a threshold, is what is built of them at that threshold.
#[tactic(auto, using(crate::proofs::Assembled::assembles_to_built))]
pub fn assembles_to_built()
    ensures { AssemblesToBuilt }
{
    direction_law();
    zero_law();
}

/// The lines and rings that are then dropped are those that are expected to be, for the causes that are expected.
#[tactic(auto, using(crate::proofs::Assembled::drops_expected))]
pub fn assembling_drops_expected()
    ensures { AssemblingDropsExpected }
{
    direction_law();
    zero_law();
}

/// As many positions are then removed from the arcs that stay as reduction removes from them.
#[tactic(auto, using(crate::proofs::Assembled::removes))]
pub fn assembling_removes()
    ensures { AssemblingRemoves }
{
    direction_law();
    zero_law();
}

/// The indexes that reduction leaves of an arc of layers reach from its first position to its last.
#[tactic(auto, using(crate::proofs::Assembled::indexes_reach))]
pub fn arc_indexes_reach()
    ensures { ArcIndexesReach }
{
    arcs_rise();
    unguarded_index_law();
}

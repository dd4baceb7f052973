// Laws of the definitions. A function here changes nothing: its contract is the law.
ghost use Rattle.build_meaning.specs.GridLaws.{BuiltCellsAreOn, BuiltDecodesQuantized, BuiltIsValidQuantized, QuantizedDecodes, QuantizedIsValid, QuantizedKeeps, SnappedAreOn, SnappedKeep};

use crate::built_laws::{built_decodes_back, built_is_valid};
use crate::simplified_laws::{built_decodes_back_on_grid, built_is_valid_on_grid};
use elimination_meaning::nothing_is_new;

/// Sound layers snapped to the grid that is asked for are sound under the same names, and each of their positions lies on the grid.
#[tactic(auto, using(crate::proofs::Snapped::snapped_on))]
pub fn snapped_are_on()
    ensures { SnappedAreOn }
{}

/// Snapped layers nest no deeper, and their numbers stay numbers.
#[tactic(auto, using(crate::proofs::Snapped::snapped_keep))]
pub fn snapped_keep()
    ensures { SnappedKeep }
{}

/// A valid topology without a transform each of whose positions lies on the grid is valid on the grid.
pub fn quantized_is_valid()
    ensures { QuantizedIsValid }
{}

/// It decodes to the same on the grid.
#[tactic(auto, using(crate::proofs::OnGrid::quantized_decodes))]
pub fn quantized_decodes()
    ensures { QuantizedDecodes }
{}

/// On the grid it has the same names, identifiers and properties, and as many arcs, each as long.
pub fn quantized_keeps()
    ensures { QuantizedKeeps }
{}

/// Each position of what is built of layers that lie on the grid lies on it.
pub fn built_cells_are_on()
    ensures { BuiltCellsAreOn }
{
    nothing_is_new();
}

/// What is built of such layers is valid on the grid.
pub fn built_is_valid_quantized()
    ensures { BuiltIsValidQuantized }
{
    built_is_valid();
    built_is_valid_on_grid();
}

/// Decoding it gives each layer the features that are expected of it.
pub fn built_decodes_quantized()
    ensures { BuiltDecodesQuantized }
{
    built_decodes_back();
    built_decodes_back_on_grid();
}

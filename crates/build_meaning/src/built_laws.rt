// Laws of the definitions. A function here changes nothing: its contract is the law.
ghost use Rattle.build_meaning.specs.BuiltLaws.{DecodesBack, EachSegmentOnce, IsValid, LosesNothing};

use elimination_meaning::{direction_law, ends_stay, nothing_is_new, zero_law};

/// Decoding the topology that is built of layers gives each layer the features that are expected of it.
#[tactic(auto, using(crate::proofs::Decoding::decodes_back))]
pub fn built_decodes_back()
    ensures { DecodesBack }
{
    direction_law();
}

/// The topology that is built of layers is valid.
pub fn built_is_valid()
    ensures { IsValid }
{
    ends_stay();
    nothing_is_new();
}

/// Before reduction each segment of the layers' lines lies once, in exactly one arc.
#[tactic(auto, using(crate::proofs::Once::each_segment_once))]
pub fn each_segment_once()
    ensures { EachSegmentOnce }
{}

/// At a threshold and a limit of zero what is expected of a line is the line, with equal neighbours as one position and a ring from its
/// start; only what has too few positions is dropped.
#[tactic(auto, using(crate::proofs::Whole::loses_nothing))]
pub fn zero_loses_nothing()
    ensures { LosesNothing }
{
    zero_law();
}

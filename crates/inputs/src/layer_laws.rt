// Laws of the definitions. A function here does nothing: its contract is the law.
ghost use Rattle.inputs.specs.LayerLaws.{HaveOneOutcome, HaveOutcome, ReadIsOutcome};

/// The bytes of layers, under their names, have exactly one outcome: either the layers with their counts, or the first fault. What
/// nothing promises is where and why a malformed text is malformed.
#[tactic(auto, using(crate::proofs::LayersReached::have_outcome))]
pub fn layers_have_one_outcome()
    ensures there { HaveOutcome }
    ensures one { HaveOneOutcome }
{}

/// The layers that are read of sources are the outcome of the bytes of the sources.
pub fn read_layers_are_the_outcome()
    ensures { ReadIsOutcome }
{}

// Laws of the definitions. A function here does nothing: its contract is the law.
ghost use Rattle.elimination_meaning.specs.Laws.{DirectionLaw, EndsStay, HigherKeepsFewer, IndexDirectionLaw, IndexesRise, KeptByWeight, NoneIsLeft, NoneIsNew, ZeroLaw};

/// Where the positions between its ends are distinct, a line is reduced to the same positions in either direction.
#[tactic(auto, using(crate::proofs::Direction::reduced_reverse))]
pub fn direction_law()
    ensures { DirectionLaw }
{}

/// The indexes that stay are then those of the line, counted from its other end.
#[tactic(auto, using(crate::proofs::Direction::reduce_reverse))]
pub fn index_direction_law()
    ensures { IndexDirectionLaw }
{}

/// At a threshold of zero nothing is removed.
#[tactic(auto, using(crate::proofs::Steps::nothing_under_zero))]
pub fn zero_law()
    ensures { ZeroLaw }
{}

/// The ends of a line stay.
#[tactic(auto, using(crate::proofs::Ends::ends_stay))]
pub fn ends_stay()
    ensures { EndsStay }
{}

/// A reduced line is the line without some of its positions, so each of its positions is one of the line.
#[tactic(auto, using(crate::proofs::Steps::none_is_new))]
pub fn nothing_is_new()
    ensures { NoneIsNew }
{}

/// No position that is left between the ends has a doubled area under the threshold.
#[tactic(auto, using(crate::proofs::Enough::none_is_left))]
pub fn none_is_left()
    ensures { NoneIsLeft }
{}

/// The indexes that stay rise from the first to the last of the line.
#[tactic(auto, using(crate::proofs::Rising::indexes_rise))]
pub fn indexes_rise()
    ensures { IndexesRise }
{}

/// At a higher threshold no position stays that a lower one removes.
#[tactic(auto, using(crate::proofs::Higher::higher_keeps_fewer))]
pub fn higher_keeps_fewer()
    ensures { HigherKeepsFewer }
{}

/// What stays is what a weight says: the ends, and the positions whose weight isn't under the threshold.
#[tactic(auto, using(crate::proofs::Weights::kept_by_weight))]
pub fn kept_by_weight()
    ensures { KeptByWeight }
{}

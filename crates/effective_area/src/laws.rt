// Laws of the definitions. A function here does nothing: its contract is the law.
ghost use Rattle.effective_area.specs.Capped.{CappedIsEnough};
ghost use Rattle.effective_area.specs.Shares.{KeptAtIsReduced, ShareIsGreatest};

/// The threshold of a share is zero or a weight, the share stays at it, and at no weight over it.
#[tactic(auto, using(crate::proofs::ShareLaws::share_is_greatest))]
pub fn share_is_greatest()
    ensures { ShareIsGreatest }
{}

/// By their weights the positions stay that a reducer keeps of the line.
#[tactic(auto, using(crate::proofs::KeptWeights::kept_at_is_reduced))]
pub fn kept_at_is_reduced()
    ensures { KeptAtIsReduced }
{}

/// Weights that are reported up to a level only have the threshold of a share of all, and the same positions stay at it by them, where
/// enough weights of each line that isn't reported to the end aren't over its level.
pub fn capped_is_enough()
    ensures { CappedIsEnough }
{}

// A law of the definitions. The function here does nothing: its contract is the law.
ghost use Rattle.reports.specs.LossLaws.{EachLostCountsOnce};

/// A feature that is lost counts once, however many of its lines and rings are dropped: these are told in reading order, and so feature by
/// feature.
#[tactic(auto, using(crate::proofs::LostOnce::each_lost_counts_once))]
pub fn each_lost_counts_once()
    ensures { EachLostCountsOnce }
{}

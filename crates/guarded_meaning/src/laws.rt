// Laws of the definitions. A function here does nothing: its contract is the law.
ghost use Rattle.guarded_meaning.specs.Laws.{ArcsRise, BoxLaw, CountedByWeight, CrossingsNeverRise, EitherWay, FewerArcsLaw, HigherKeepsFewer, KeptByWeight, NoCrossingsLaw, NoneGoes, NoneStaysNone, RingsStay, ShareIsGreatest, ShareStays, SideLaw, StepLaw, ThinnedLaw, UnguardedIndexLaw, UnguardedLaw};

/// What the segment in a corner's place meets badly, one of the two before it met badly.
#[tactic(auto, using(crate::proofs::Step::step_law))]
pub fn step_law()
    ensures { StepLaw }
{}

/// A triangle lies in the box round its corners.
#[tactic(auto, using(crate::proofs::Box::box_law))]
pub fn box_law()
    ensures { BoxLaw }
{}

/// A triangle holds the same in either direction.
#[tactic(auto, using(crate::proofs::Turned::either_way))]
pub fn either_way()
    ensures { EitherWay }
{}

/// What a triangle holds is beyond none of its sides.
#[tactic(auto, using(crate::proofs::Sides::side_law))]
pub fn side_law()
    ensures { SideLaw }
{}

/// Each two segments of the reduced arcs that meet badly come of two that met badly.
#[tactic(auto, using(crate::proofs::NoCrossings::no_crossings_law))]
pub fn no_crossings_law()
    ensures { NoCrossingsLaw }
{}

/// No more pairs of segments meet badly in the reduced arcs than in the arcs.
#[tactic(auto, using(crate::proofs::Counts::crossings_never_rise))]
pub fn crossings_never_rise()
    ensures { CrossingsNeverRise }
{}

/// Where no two segments of the arcs meet badly, no two of the reduced arcs do.
#[tactic(auto, using(crate::proofs::Counts::none_stays_none))]
pub fn none_stays_none()
    ensures { NoneStaysNone }
{}

/// No more pairs of segments meet badly where some of the arcs are left out.
#[tactic(auto, using(crate::proofs::Counts::fewer_arcs_law))]
pub fn fewer_arcs_law()
    ensures { FewerArcsLaw }
{}

/// Rings that have four positions or more, with equal neighbours as one, keep as many.
#[tactic(auto, using(crate::proofs::Rings::rings_stay))]
pub fn rings_stay()
    ensures { RingsStay }
{}

/// Without a guard each arc is reduced by itself.
#[tactic(auto, using(crate::proofs::Unguarded::unguarded_law))]
pub fn unguarded_law()
    ensures { UnguardedLaw }
{}

/// Without a guard the indexes that stay are those of each arc by itself.
#[tactic(auto, using(crate::proofs::Unguarded::unguarded_index_law))]
pub fn unguarded_index_law()
    ensures { UnguardedIndexLaw }
{}

/// The arcs stay as many, each with its ends, and no position is new.
#[tactic(auto, using(crate::proofs::Thinned::thinned_law))]
pub fn thinned_law()
    ensures { ThinnedLaw }
{}

/// The indexes that stay rise from the first to the last of each arc.
#[tactic(auto, using(crate::proofs::Thinned::arcs_rise))]
pub fn arcs_rise()
    ensures { ArcsRise }
{}

/// No corner that is left is under the threshold and may go.
#[tactic(auto, using(crate::proofs::Thinned::none_goes))]
pub fn none_goes()
    ensures { NoneGoes }
{}

/// At a higher threshold no position stays that a lower one removes.
#[tactic(auto, using(crate::proofs::Higher::higher_keeps_fewer))]
pub fn higher_keeps_fewer()
    ensures { HigherKeepsFewer }
{}

/// What stays is what a weight says: the ends, what never goes, and what has a weight that isn't under the threshold.
#[tactic(auto, using(crate::proofs::Weights::kept_by_weight))]
pub fn kept_by_weight()
    ensures { KeptByWeight }
{}

/// The positions between the ends of the reduced arcs are as many as the weights say.
#[tactic(auto, using(crate::proofs::Interiors::counted_by_weight))]
pub fn counted_by_weight()
    ensures { CountedByWeight }
{}

/// The threshold of a share is zero or a weight, the share stays at it, and at no weight over it.
#[tactic(auto, using(crate::proofs::Shares::share_is_greatest))]
pub fn share_is_greatest()
    ensures { ShareIsGreatest }
{}

/// At the threshold that is chosen for it the share of the positions between the ends stays, whatever the guard.
#[tactic(auto, using(crate::proofs::Shares::share_stays))]
pub fn share_stays()
    ensures { ShareStays }
{}

// Laws of the definitions. A function here changes nothing: its contract is the law.
ghost use Rattle.grid_snap.specs.Laws.{CellsAreBack, CoveredAreWithin, CoversAll, IsMade, SnappedAreSound, SnappedSettle, StepIsLeast};

/// The grid over positions begins at their least coordinates, and its steps are the least whole numbers of units that serve. There
/// is a grid exactly where there is a position.
#[tactic(auto, using(crate::proofs::Least::step_least_of))]
pub fn step_is_least()
    ensures { StepIsLeast }
{}

/// The grid over positions covers each of them.
#[tactic(auto, using(crate::proofs::Least::covers_all))]
pub fn layers_are_covered()
    ensures { CoversAll }
{}

/// The grid over positions of layers keeps what each `Grid` keeps.
pub fn grid_is_made()
    ensures { IsMade }
{}

/// A covered position has a cell, which lies at the snapped position. That one is covered, has the same cell and stays where it is
/// when it is snapped again.
pub fn snapped_stay()
    ensures { SnappedSettle }
{}

/// Where a cell lies is covered, and has that cell.
pub fn cells_lie_at_snapped()
    ensures { CellsAreBack }
{}

/// What is covered is at most `INPUT_LIMIT` + 10^9 units from zero in each coordinate, so it is a position.
#[tactic(auto, using(crate::proofs::Settled::covered_within))]
pub fn covered_are_positions()
    ensures { CoveredAreWithin }
{}

/// A snapped feature has the same lines and rings, snapped. Its rings are rings, and its positions are positions.
#[tactic(auto, using(crate::proofs::Layered::snapped_sound))]
pub fn snapped_features_are_sound()
    ensures { SnappedAreSound }
{}

// Laws of the definitions. A function here changes nothing: its contract is the law.
ghost use Rattle.build_meaning.specs.TransformLaws.{CellsAreOnGrid, CellsLieThere, HasTransform};

/// The texts of a grid's transform are numbers of a transform.
#[tactic(auto, using(crate::proofs::OnGrid::has_transform))]
pub fn grid_has_transform()
    ensures { HasTransform }
{}

/// By the grid's transform the cell of a covered position lies at the snapped position, exactly; that of a position that is snapped
/// already, at that position.
#[tactic(auto, using(crate::proofs::OnGrid::lie_there))]
pub fn cells_lie_there()
    ensures { CellsLieThere }
{}

/// The cell of a covered position may stand in a topology with the grid's transform.
pub fn cells_are_on_grid()
    ensures { CellsAreOnGrid }
{}

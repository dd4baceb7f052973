// Lines in which equal neighbours count as one position.
ghost use Rattle.std.specs.Prelude.{◌≡◌, IfOk};
ghost use Rattle.junctions.specs.Cleaning.{clean};

use geometry::Position;
use owned_values::Memory;
use std::alloc::Global;

/// The positions, each run of equal neighbours as one.
pub fn cleaned(alloc: Global, positions: &[Position]) -> Result<Vec<Position>, Memory>
    ensures { IfOk result (λ ps. ps.items ≡ clean positions.now) }
{
    Ok(without_repeats(Vec::from_slice(alloc, positions)?))
}

/// Each run of equal neighbours as one position, where they stand.
pub fn without_repeats(positions: Vec<Position>) -> Vec<Position>
    ensures { result.items ≡ clean positions.items }
{
    let mut positions = positions;
    positions.dedup();
    positions
}

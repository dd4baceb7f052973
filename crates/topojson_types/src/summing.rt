// The cells of an arc that stands as differences.
ghost use Rattle.std.specs.Prelude.{◌≡◌, IfOk, IfErr, IfSome, IfNone, true, false};
ghost use Rattle.std.specs.List.{list_all};
ghost use Rattle.topojson_types.specs.Transforms as spec;
ghost use Rattle.topojson_types.specs.Transforms.{grid_limit, is_within, moved};
ghost use Rattle.topojson_types.specs.declared.summing.SumFault.TheVariants.{Range as OutOfRange};

use crate::cell::Cell;
use owned_values::Memory;
use std::alloc::{AllocFailed, Global};
use thiserror::Error;

/// The greatest magnitude of a number of a cell in a topology with a transform.
pub const GRID_LIMIT: u64 = 2_147_483_648;

/// Why the cells of an arc couldn't be had.
#[derive(Clone, Copy, Debug, Error, PartialEq, Eq)]
pub enum SumFault {
    /// A number of a cell is farther from zero than `GRID_LIMIT`.
    #[error("Range")]
    Range,
    /// An allocation was refused.
    #[error("Memory")]
    Memory,
}

impl From<Memory> for SumFault {
    ghost use Rattle.std.specs.Prelude.{◌≡◌};
    ghost use Rattle.topojson_types.specs.declared.summing.SumFault.TheVariants.{Memory};

    ghost from_gives = { λ _ e. e ≡ Memory };

    fn from(_e: Memory) -> SumFault {
        SumFault::Memory
    }
}

impl<T: Drop> From<AllocFailed<T>> for SumFault {
    ghost use Rattle.std.specs.Prelude.{◌≡◌};
    ghost use Rattle.topojson_types.specs.declared.summing.SumFault.TheVariants.{Memory};

    ghost from_gives = { λ _ e. e ≡ Memory };

    fn from(_e: AllocFailed<T>) -> SumFault {
        SumFault::Memory
    }
}

/// The cell that lies so far from another, if it is one of a grid.
#[inline(always)]
#[tactic(auto, unfolding(crate::specs::Transforms::is_within))]
pub fn cell_after(before: Cell, difference: Cell) -> Option<Cell>
    ensures some { IfSome result (λ c. (c ≡ moved before difference) × (is_within grid_limit (moved before difference) ≡ true)) }
    ensures none { IfNone result (is_within grid_limit (moved before difference) ≡ false) }
{
    let x = before.x() + difference.x();
    let y = before.y() + difference.y();
    if x.unsigned_abs() > GRID_LIMIT || y.unsigned_abs() > GRID_LIMIT {
        return None;
    }
    Some(Cell::at(x, y))
}

/// The cells of an arc that stands as its first cell and then the difference of each from the one before (TopoJSON 1.0, section
/// 2.1.3).
#[tactic(auto, using(crate::proofs::Grids::starts, crate::proofs::Grids::turns, crate::proofs::Grids::breaks, crate::proofs::Grids::ends), unfolding(crate::specs::Transforms::sums_from))]
pub fn sums(alloc: Global, differences: &[Cell]) -> Result<Vec<Cell>, SumFault>
    ensures sums { IfOk result (λ cs. cs.items ≡ spec.sums differences.now) }
    ensures within { IfOk result (λ cs. list_all (is_within grid_limit) (spec.sums differences.now) ≡ true) }
    ensures range { IfErr result (λ e. e ≡ OutOfRange → list_all (is_within grid_limit) (spec.sums differences.now) ≡ false) }
{
    let mut cells = Vec::new(alloc);
    let mut before = Cell::at(0, 0);
    'differences: for difference in differences {
        let Some(cell) = cell_after(before, *difference) else {
            return Err(SumFault::Range);
        };
        cells.push(cell)?;
        before = cell;
    }
    Ok(cells)
}

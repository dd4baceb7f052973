// The grid that the cells of a topology with a transform lie on (TopoJSON 1.0, section 2.1.2).
ghost use Rattle.std.specs.Prelude.{◌≡◌, true, IfSome, Ok};
ghost use Rattle.topojson_types.specs.Transforms.{PlacesAll, moved};
ghost use Rattle.topojson_meaning.specs.Arcs as spec;

use topojson_meaning::TopoFault;
use topojson_types::{Cell, Transform, cell_after, placed, places_all_cells};

/// The grid of a transform, beside what is known of its cells.
#[derive(Clone, Copy)]
pub(crate) struct Grid<'t> {
    transform: &'t Transform,
    is_placed: bool,
    // where that is set, each cell lies at a position
    ghost known: { is_placed ≡ true → PlacesAll transform.now },
}

impl<'t> Grid<'t> {
    /// The grid of which a cell or a few are read.
    #[inline(always)]
    pub(crate) fn of_few(transform: &'t Transform) -> Grid<'t>
        ensures { result.transform.now ≡ transform.now }
    {
        Grid {
            transform,
            is_placed: false,
        }
    }

    /// The grid of which many cells are read. Where all lie at positions, that is seen here and not at each.
    pub(crate) fn of_many(transform: &'t Transform) -> Grid<'t>
        ensures { result.transform.now ≡ transform.now }
    {
        Grid {
            transform,
            is_placed: places_all_cells(transform),
        }
    }

    /// The cell that lies so far from another, if it is one of the grid and each of these is known to lie at a position.
    #[inline(always)]
    #[tactic(auto, using(crate::proofs::CellParts::known_by))]
    pub(crate) fn known_cell(self, before: Cell, difference: Cell) -> Option<Cell>
        ensures { IfSome result (λ c. spec.grid_cell self.entry.transform.now (moved before difference) ≡ Ok c) }
    {
        if !self.is_placed {
            return None;
        }
        cell_after(before, difference)
    }

    /// The cell that lies so far from another, and at a position. It isn't put in its place, so that what reads a cell is.
    #[inline(never)]
    #[tactic(auto, unfolding(topojson_meaning::specs::Arcs::grid_cell, topojson_types::specs::Transforms::placed))]
    pub(crate) fn cell(self, before: Cell, difference: Cell) -> Result<Cell, TopoFault>
        ensures { result ≡ spec.grid_cell self.entry.transform.now (moved before difference) }
    {
        let Some(cell) = cell_after(before, difference) else {
            return Err(TopoFault::GridNumber);
        };
        match placed(Some(self.transform), cell) {
            None => Err(TopoFault::Range),
            Some(_) => Ok(cell),
        }
    }
}

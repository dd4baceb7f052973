// Arcs as differences.
ghost use Rattle.std.specs.Prelude.{◌≡◌, IfOk};
ghost use Rattle.std.specs.List.{AllByRecursion};
ghost use Rattle.geometry.specs.Points.{IsPosition};
ghost use Rattle.topojson_types.specs.Differences.{SumsOfDeltas, StandsExactly, UnitsAreNumbers};
ghost use Rattle.topojson_types.specs.Differences as spec;

use crate::cell::Cell;
use owned_values::Memory;
use std::alloc::Global;

/// How far a cell lies from the one before.
pub fn difference(before: Cell, cell: Cell) -> Cell
    requires before { IsPosition before }
    requires cell { IsPosition cell }
    ensures { result ≡ spec.difference before cell }
{
    let x = cell.x() - before.x();
    let y = cell.y() - before.y();
    Cell::at(x, y)
}

/// An arc as its first cell and then the difference of each from the one before (TopoJSON 1.0, section 2.1.3). `sums` undoes it.
#[tactic(auto, using(owned_values::proofs::Elements::all_at, crate::proofs::SumsBack::starts, crate::proofs::SumsBack::turns, crate::proofs::SumsBack::ends))]
pub fn deltas(alloc: Global, cells: &[Cell]) -> Result<Vec<Cell>, Memory>
    requires { AllByRecursion IsPosition cells.now }
    ensures { IfOk result (λ ds. ds.items ≡ spec.deltas cells.now) }
{
    let mut differences = Vec::with_capacity(alloc, cells.len())?;
    let mut before = Cell::at(0, 0);
    'cells: for cell in cells {
        differences.push(difference(before, *cell))?;
        before = *cell;
    }
    Ok(differences)
}

/// A law: the cells of an arc that stands as differences are those that the differences were taken of.
#[tactic(auto, using(crate::proofs::SumsBack::sums_of_deltas))]
pub fn sums_of_deltas()
    ensures { SumsOfDeltas }
{}

/// A law: the least decimal of a coordinate is a number of a transform.
#[tactic(auto, using(crate::proofs::ExactTexts::units_are_numbers))]
pub fn units_are_numbers()
    ensures { UnitsAreNumbers }
{}

/// A law: with the least decimals of a step and of a first coordinate as scale and translation, a number of the grid stands for so
/// many steps from that coordinate, with nothing rounded.
#[tactic(auto, using(crate::proofs::ExactTexts::stands_exactly))]
pub fn texts_stand_exactly()
    ensures { StandsExactly }
{}

// The transform of a grid.
ghost use Rattle.std.specs.Prelude.{◌≡◌, ◌≤◌, IfOk, unsigned_abs};
ghost use Rattle.decimal_text.specs.Scaling.{units_text};
ghost use Rattle.geometry.specs.Units.{position_limit, unit_places};
ghost use Rattle.build_meaning.specs.GridTransforms.{transform_of};

use decimal_text::{NumText, units_again};
use geojson_types::PLACES;
use grid_snap::Grid;
use json_writer::{ShortText, add_units};
use owned_values::Memory;
use std::alloc::Global;
use topojson_types::{Transform, TransformNumber, units_are_numbers};

/// The number of a transform whose text is the least decimal of so many units.
pub fn units_number(alloc: Global, units: i64) -> Result<TransformNumber, Memory>
    requires { unsigned_abs units ≤ position_limit }
    ensures { IfOk result (λ n. n ≡ units_text units unit_places) }
{
    units_again(units, PLACES);
    units_are_numbers();
    let mut text = ShortText::new();
    add_units(&mut text, units, PLACES);
    let text = NumText::of(alloc, text.as_slice())?;
    match TransformNumber::of(text) {
        Some(number) => Ok(number),
        None => unreachable!(),
    }
}

/// The numbers of a transform for both axes.
fn units_numbers(
    alloc: Global,
    x: i64,
    y: i64,
) -> Result<(TransformNumber, TransformNumber), Memory>
    requires x { unsigned_abs x ≤ position_limit }
    requires y { unsigned_abs y ≤ position_limit }
    ensures { IfOk result (λ n. n ≡ (units_text x unit_places, units_text y unit_places)) }
{
    let first = units_number(alloc, x)?;
    match units_number(alloc, y) {
        Ok(second) => Ok((first, second)),
        Err(fault) => {
            drop(first);
            Err(fault)
        }
    }
}

/// The transform by which the cells of the grid lie at its positions: its steps as scale, and its first coordinates as translation.
#[tactic(auto, unfolding(build_meaning::specs::GridTransforms::transform_of))]
pub fn transform(alloc: Global, grid: &Grid) -> Result<Transform, Memory>
    ensures { IfOk result (λ t. t ≡ transform_of grid.now) }
{
    grid.law();
    let (step_x, step_y) = grid.step();
    let origin = grid.origin();
    let scale = units_numbers(alloc, step_x, step_y)?;
    match units_numbers(alloc, origin.x(), origin.y()) {
        Ok(translate) => Ok(Transform { scale, translate }),
        Err(fault) => {
            drop(scale);
            Err(fault)
        }
    }
}

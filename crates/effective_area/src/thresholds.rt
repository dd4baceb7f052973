// The threshold of an area.
ghost use Rattle.std.specs.Prelude.{◌≡◌, ◌≤◌, IfOk, IfSome};
ghost use Rattle.geometry.specs.Units.{threshold_limit};
ghost use Rattle.effective_area.specs.Thresholds.{threshold_of};

use decimal_text::NumText;
use geometry::{AREA_LIMIT, AREA_PLACES};
use owned_values::Memory;
use std::alloc::Global;

/// The threshold of an area in the square of the input's unit: twice the area in square units. None for an area below zero, above
/// 10^18, or that isn't a whole number of square units, which has more than `AREA_PLACES` decimals.
pub fn threshold(area: &NumText) -> Option<u128>
    ensures value { result ≡ threshold_of area.now }
    ensures within { IfSome result (λ t. t ≤ threshold_limit) }
{
    match area.scaled(AREA_PLACES, AREA_LIMIT as i128) {
        Ok(units) if units.exact && units.value >= 0 => Some(2 * units.value.unsigned_abs()),
        _ => None,
    }
}

/// The threshold of the area with this text. None for a text that isn't a number too.
#[tactic(auto, using(crate::proofs::ThresholdAreas::no_threshold))]
pub fn read_threshold(alloc: Global, area: &str) -> Result<Option<u128>, Memory>
    ensures value { IfOk result (λ t. t ≡ threshold_of area.now) }
    ensures within { IfOk result (λ o. IfSome o (λ t. t ≤ threshold_limit)) }
{
    match NumText::read(alloc, area)? {
        Some(number) => Ok(threshold(&number)),
        None => Ok(None),
    }
}

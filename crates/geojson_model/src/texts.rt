// Whole texts of layers.
ghost use Rattle.json_cursor.specs.Texts.{TextAnswers};
ghost use Rattle.geojson_meaning.specs.Layers.{features};
ghost use Rattle.json_value.specs.Limits.{layer_depth};

use crate::layers::layer_at;
use geojson_meaning::GeoFault;
use geojson_types::{CollectsFeatures, Counts};
use json_cursor::{Refusal, are_utf8, malformed, text_of};
use json_reading::{Fault, LAYER_DEPTH, skip};
use std::alloc::Global;

/// The features of the layer that a whole text spells (RFC 7946), with what was counted in reading it. `exact` refuses a coordinate that isn't
/// whole in units of `10^-PLACES`. Of a text that spells no value it is said why, whatever else is wrong. Else the fault is the first in the
/// order in which members are looked at, wherever they stand: the type, then the features in order, and of each its `id`, its `properties`
/// and its `geometry`.
pub fn read_features_text<D: CollectsFeatures>(
    alloc: Global,
    bytes: &[u8],
    exact: bool,
) -> Result<(D, Counts), Refusal<GeoFault>>
    ensures { TextAnswers (λ d. D.features d) (features exact) layer_depth bytes.now result }
{
    if !are_utf8(bytes) {
        return Err(Refusal::Text(malformed(alloc, bytes, LAYER_DEPTH)));
    }
    let mut counts = Counts::none();
    match layer_at::<D>(alloc, LAYER_DEPTH, skip(text_of(bytes)), exact, &mut counts) {
        Err(Fault::Memory) => Err(Refusal::Memory),
        Err(Fault::Malformed { .. }) => { Err(Refusal::Text(malformed(alloc, bytes, LAYER_DEPTH))) }
        Ok((read, rest)) => {
            let following = skip(rest);
            if !following.is_empty() {
                return Err(Refusal::Text(malformed(alloc, bytes, LAYER_DEPTH)));
            }
            match read {
                Err(fault) => Err(Refusal::Meaning(fault)),
                Ok(features) => Ok((features.into_made(), counts)),
            }
        }
    }
}

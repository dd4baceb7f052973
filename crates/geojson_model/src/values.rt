// JSON values that are read as layers.
ghost use Rattle.std.specs.Prelude.{◌≡◌, ◌≢◌, Ok, Err, IfOk, IfErr};
ghost use Rattle.std.specs.List.{All};
ghost use Rattle.geometry.specs.Points.{IsInput};
ghost use Rattle.geojson_types.specs.Places.{features_points};
ghost use Rattle.geojson_meaning.specs.Layers as spec;
ghost use Rattle.geojson_meaning.specs.declared.fault.GeoFaultKind.TheVariants.{Memory};

use crate::layers::{fault_within, layer_at};
use decimal_json::value_text;
use geojson_meaning::{GeoFault, GeoFaultKind};
use geojson_types::{Counts, Feature, Layer};
use json_value::{Items, Json};
use std::alloc::Global;

/// The layer that a JSON value stands for (RFC 7946), beside what was counted. `exact` refuses a coordinate that isn't whole in units of
/// `10^-PLACES`, which else is rounded, halves away from zero, and counted. A Feature and a bare geometry are the one feature of their
/// layer. Identifiers and properties stay unchanged. An empty array in place of coordinates, of a line, of a ring or of a polygon is left
/// out and counted; a geometry of which nothing is left is null. The fault is the first in the order in which members are looked at,
/// wherever they stand: the type, then the features in order, and of each its `id`, its `properties` and its `geometry`. The value is read
/// through its text, which takes memory for a while: that there is too little is reported too where arrays and objects nest more than
/// `u32::MAX` deep.
#[tactic(auto, using(geojson_meaning::proofs::Inputs::layer_inputs, crate::proofs::ValueParts::layer_is))]
pub fn read_layer(alloc: Global, value: Json, exact: bool) -> Result<(Layer, Counts), GeoFault>
    ensures layer { IfOk result (λ r. spec.layer exact value ≡ Ok (r.0.features, r.1)) }
    ensures inputs { IfOk result (λ r. All IsInput (features_points r.0.features)) }
    ensures fault { IfErr result (λ e. e.kind ≢ Memory → spec.layer exact value ≡ Err e) }
{
    let Ok(text) = value_text(alloc, &value) else {
        return Err(fault_within(None, GeoFaultKind::Memory));
    };
    let mut counts = Counts::none();
    match layer_at::<Vec<Feature>>(alloc, u32::MAX, &text, exact, &mut counts) {
        Err(_) => Err(fault_within(None, GeoFaultKind::Memory)),
        Ok((read, _)) => match read {
            Err(fault) => Err(fault),
            Ok(read) => {
                let features = Items::of(read.into_made());
                Ok((Layer { features }, counts))
            }
        },
    }
}

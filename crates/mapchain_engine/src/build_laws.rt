// A law of the definitions. A function here does nothing: its contract is the law.
ghost use Rattle.mapchain_engine.specs.BuildLaws.{LayerLaws, ReadAreTaken};

use geojson_meaning::{
    inputs_alone, nothing_deeper, numbers_stay, rings_close, shapes_are_proper, texts_stay,
};
use json_value::{read_values_are_bounded, read_values_are_well_formed};

/// The laws that what is known of layers rests on. This does nothing.
pub(crate) fn layer_laws()
    ensures { LayerLaws }
{
    shapes_are_proper();
    inputs_alone();
    rings_close();
    nothing_deeper();
    numbers_stay();
    texts_stay();
    read_values_are_bounded();
    read_values_are_well_formed();
}

/// Layers that are read of sources, under names that differ, are sound, lie within `INPUT_LIMIT`, and can be snapped to the grid that is
/// asked for: a topology can be made of them.
pub fn read_layers_are_taken()
    ensures { ReadAreTaken }
{
    layer_laws();
}

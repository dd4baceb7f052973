// Laws of the definitions. A function here changes nothing: its contract is the law.
ghost use Rattle.layer_topology.specs.Laws.{WrittenLaws};

use build_meaning::{
    built_decodes_quantized, built_is_valid_quantized, each_segment_once, quantized_keeps,
    snapped_are_on, snapped_keep,
};

/// What is written of layers is a valid topology with an object for each layer. Decoding it gives each layer the features that are
/// expected of it on the grid that is asked for, which nest no deeper than before, and whose numbers stay numbers. Its texts are
/// UTF-8 where those of the layers are. Before reduction each segment of the layers' lines lies once, in exactly one arc.
pub fn written_laws()
    ensures { WrittenLaws }
{
    snapped_are_on();
    snapped_keep();
    quantized_keeps();
    built_is_valid_quantized();
    built_decodes_quantized();
    each_segment_once();
}

// The linework of layers.
ghost use Rattle.std.specs.Prelude.{◌≡◌, IfOk};
ghost use Rattle.linework.specs.Linework.{linework, collapsed};

use crate::gathering::add_layer;
use geojson_types::Layer;
use junctions::Lines;
use owned_values::Memory;
use std::alloc::Global;

/// What is made of the lines and rings of layers.
pub trait OfLayers: Sized {
    /// The linework of the layers.
    fn of(alloc: Global, layers: &[Layer]) -> Result<Self, Memory>;
}

impl OfLayers for Lines {
    #[tactic(auto, using(crate::proofs::Gathered::with_none, crate::proofs::Gathered::layers_turn, crate::proofs::Gathered::linework_is, crate::proofs::Gathered::collapsed_is))]
    fn of(alloc: Global, layers: &[Layer]) -> Result<Lines, Memory>
        ensures lines_and_rings { IfOk result (λ lines. lines.lines_and_rings ≡ linework layers.now) }
        ensures dropped { IfOk result (λ lines. lines.dropped ≡ collapsed layers.now) }
    {
        let mut lines = Lines::none(alloc);
        for (number, layer) in layers.iter().enumerate() {
            add_layer(alloc, number, layer.features.as_slice(), &mut lines)?;
        }
        Ok(lines)
    }
}

// Extracted layers as a draft of a topology.
ghost use Rattle.std.specs.Prelude.{◌≡◌, IfOk};
ghost use Rattle.build_meaning.specs.Layers.{named_lines_and_rings};
ghost use Rattle.topo_model.specs.Drafts.{no_refs, objects_relined};

use extraction::ExtractedLayer;
use json_value::{Items, OwnText};
use linework::Outlines;
use owned_values::Memory;
use std::alloc::Global;
use topojson_types::TopoObject;

/// The objects of named layers, a collection each, with no arc index for a line or ring, and the lines and rings of all in reading order. No
/// feature and no position is copied.
pub fn take_apart(
    alloc: Global,
    layers: Vec<(OwnText, ExtractedLayer)>,
) -> Result<(Vec<(OwnText, TopoObject)>, Outlines), Memory>
    ensures objects { IfOk result (λ r. r.0.items ≡ objects_relined no_refs layers.items) }
    ensures outlines { IfOk result (λ r. r.1 ≡ named_lines_and_rings layers.items) }
{
    let mut objects = Vec::with_capacity(alloc, layers.len())?;
    let mut outlines = Outlines::none(alloc);
    'layers: for (name, layer) in layers {
        let (features, own) = layer.into_parts();
        outlines.append(own)?;
        objects.push((name, TopoObject::Many(Items::of(features))))?;
    }
    Ok((objects, outlines))
}

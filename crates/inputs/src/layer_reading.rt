// Reading layers.
ghost use Rattle.std.specs.Prelude.{◌≡◌, MatchResult};
ghost use Rattle.inputs.specs.Reading.{IsLayerOf, ReadsLayer};
ghost use Rattle.inputs.specs.Sources.{plus, AllReadTo, FailsToReadAll};

use crate::fault::BuildFault;
use crate::watch::{Watch, show_refused};
use byte_ends::{Feed, MAX_INPUT, ReadFault, Source, read_all};
use extraction::ExtractedLayer;
use geojson_meaning::{Counts, GeoFaultKind};
use geojson_model::read_features_text;
use json_cursor::Refusal;
use json_reading::JsonFault;
use json_value::OwnText;
use std::alloc::Global;

/// The layer of this number that the bytes spell, and what was counted in it; or why they spell none.
fn layer_of(
    alloc: Global,
    bytes: &[u8],
    layer: usize,
    exact: bool,
) -> Result<(ExtractedLayer, Counts), BuildFault>
    ensures { IsLayerOf layer exact bytes.now result }
{
    match read_features_text::<ExtractedLayer>(alloc, bytes, exact) {
        Ok(read) => Ok(read),
        Err(Refusal::Memory) => Err(BuildFault::Memory),
        Err(Refusal::Text(fault)) => {
            if fault == JsonFault::Memory {
                return Err(BuildFault::Memory);
            }
            Err(BuildFault::Json { layer, fault })
        }
        Err(Refusal::Meaning(fault)) => {
            if fault.kind == GeoFaultKind::Memory {
                return Err(BuildFault::Memory);
            }
            Err(BuildFault::Geo { layer, fault })
        }
    }
}

/// Shows a layer that is read, which these bytes spell.
fn show<K: Watch>(
    alloc: Global,
    bytes: &[u8],
    read: &Result<(ExtractedLayer, Counts), BuildFault>,
    watch: &mut K,
) {
    if let Ok((layer, _counts)) = read {
        watch.layer_read(alloc, bytes, layer);
    }
}

/// Reads a source to its end, and gives the layer of this number that its bytes spell.
fn read_source<R: Feed, K: Watch>(
    alloc: Global,
    source: &mut Source<R>,
    layer: usize,
    exact: bool,
    watch: &mut K,
) -> Result<(ExtractedLayer, Counts), BuildFault>
    ensures { ReadsLayer layer exact source.old source.new result }
{
    let bytes = match read_all(alloc, source, MAX_INPUT) {
        Ok(bytes) => bytes,
        Err(ReadFault::Memory) => return Err(BuildFault::Memory),
        Err(fault) => return Err(BuildFault::Read { layer, fault }),
    };
    let read = layer_of(alloc, &bytes, layer, exact);
    show(alloc, &bytes, &read, watch);
    show_refused(bytes, &read, watch);
    read
}

/// The counts of two parts, added.
fn sum(one: Counts, other: Counts) -> Counts
    ensures { result ≡ plus one other }
{
    Counts {
        rounded: one.rounded.saturating_add(other.rounded),
        extra: one.extra.saturating_add(other.extra),
        empty: one.empty.saturating_add(other.empty),
    }
}

/// Reads each source to its end, one after another, and gives the layers that they spell under their names, and what was
/// counted in all of them.
pub fn read_layers<R: Feed, K: Watch>(
    alloc: Global,
    sources: &mut [(OwnText, Source<R>)],
    exact: bool,
    watch: &mut K,
) -> Result<(Vec<(OwnText, ExtractedLayer)>, Counts), BuildFault>
    ensures { MatchResult result (λ r. AllReadTo exact sources.old sources.new r.0.items r.1) (λ e. FailsToReadAll exact sources.old sources.new e) }
{
    let mut layers = Vec::new(alloc);
    let mut counts = Counts::none();
    'sources: for layer in 0..sources.len() {
        let (read, counted) = read_source(alloc, &mut sources[layer].1, layer, exact, watch)?;
        let name = sources[layer].0.copy(alloc)?;
        layers.push((name, read))?;
        counts = sum(counts, counted);
    }
    Ok((layers, counts))
}

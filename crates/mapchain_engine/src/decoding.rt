// Decoding an object of a topology.
ghost use Rattle.std.specs.Prelude.{◌≡◌, ℕ, List, Some, Result, IfOk, IfErr};
ghost use Rattle.std.specs.List.{AllByRecursion};
ghost use Rattle.byte_ends.specs.Ends.{Fed};
ghost use Rattle.inputs.specs.Texts.{IsRead};
ghost use Rattle.inputs.specs.declared.file_fault.FileFault.{FileFault as Fault};
ghost use Rattle.topojson_meaning.specs.ArcTexts.{AreArcTexts};
ghost use Rattle.topojson_types.specs.Topologies.{object_features};
ghost use Rattle.topojson_types.specs.LinesAndRings.{IsShapeOption};
ghost use Rattle.topojson_writer.specs.Decoded.{object_in};
ghost use Rattle.mapchain_engine.specs.FileOutcomes.{FileHasOutcome, FollowsText, object_text, object_text_within};
ghost use Rattle.mapchain_engine.specs.Geo.{excess_of, features_text, IsDecoded, IsDecodedWithin, IsGeoFault, IsGeoFaultWithin, SendsText, SendsWithin};

use crate::file_laws::decoded_text_is_utf8;
use crate::file_reading::{bytes_of, spelled_of};
use byte_ends::{Drain, Feed, Sink, Source, flush_after};
use inputs::{FileFault, Unwatched, Watch};
use reports::decoded_positions;
use std::alloc::Global;
use std::mem;
use topojson_types::{TopoObject, Topology, named_object};
use topojson_writer::write_object;

/// Writes the features of the object and flushes the sink. The texts are those of the topology's arcs, as far as they go.
fn send<W: Drain>(
    topology: &Topology,
    texts: &[Option<&[u8]>],
    object: &TopoObject,
    sink: &mut Sink<W>,
) -> Result<u64, FileFault>
    requires texts { AreArcTexts topology.now.transform topology.now.arcs texts.now }
    requires shapes { AllByRecursion (λ f. IsShapeOption topology.now f.shape) (object_features object.now) }
    ensures { SendsText sink.old sink.new (features_text (object_in topology.now object.now)) result }
{
    let written = write_object(topology, texts, object, sink);
    let sent = flush_after(written, sink)?;
    Ok(sent)
}

/// How many positions the features of the object have, where that is more than may be written.
#[tactic(auto, using(crate::proofs::ObjectsFound::counted))]
fn excess(topology: &Topology, object: &TopoObject, most: Option<u64>) -> Option<u64>
    ensures { result ≡ excess_of most (object_in topology.now object.now) }
{
    let most = most?;
    let count = decoded_positions(topology, object);
    if count > most { Some(count) } else { None }
}

/// The same where the features have no more positions than may be written. Where they have more nothing is written.
#[tactic(auto, using(crate::proofs::Sent::within))]
fn send_within<W: Drain>(
    topology: &Topology,
    texts: &[Option<&[u8]>],
    object: &TopoObject,
    most: Option<u64>,
    sink: &mut Sink<W>,
) -> Result<u64, FileFault>
    requires texts { AreArcTexts topology.now.transform topology.now.arcs texts.now }
    requires shapes { AllByRecursion (λ f. IsShapeOption topology.now f.shape) (object_features object.now) }
    ensures { SendsWithin most sink.old sink.new (object_in topology.now object.now) result }
{
    match excess(topology, object, most) {
        Some(count) => Err(FileFault::ManyPositions { count }),
        None => send(topology, texts, object, sink),
    }
}

/// Writes the features of the object of this name of the topology that the bytes spell, which stay to the end of the process, and flushes the sink.
fn decode<W: Drain>(
    alloc: Global,
    bytes: &'static [u8],
    name: &str,
    most: Option<u64>,
    sink: &mut Sink<W>,
) -> Result<u64, FileFault>
    ensures written { (old new : Fed) → IsRead old new bytes.now → IfOk result (λ sent. IsDecodedWithin most name.now old new sink.old sink.new sent) }
    ensures refused { (old new : Fed) → IsRead old new bytes.now → IfErr result (λ e. IsGeoFaultWithin most name.now old new sink.old sink.new e) }
    ensures decided { (old new : Fed) → IsRead old new bytes.now → (spelled : List ℕ) (outcome : Result (List ℕ) Fault) → old.left ≡ Some spelled
        → FileHasOutcome (object_text_within most name.now) spelled outcome → FollowsText sink.old sink.new outcome result }
{
    decoded_text_is_utf8();
    let (read, _counts) = spelled_of(alloc, bytes)?;
    let Some(object) = named_object(&read.topology, name) else {
        drop(read);
        return Err(FileFault::NoObject);
    };
    let sent = send_within(&read.topology, &read.texts, object, most, sink);
    // (as in building)
    mem::forget(read);
    sent
}

/// Writes the features of an object of a topology (TopoJSON 1.0) as a GeoJSON text (RFC 7946), and answers the number of bytes.
///
/// The topology is read from its source to the end, and refused as by `stat`. A GeometryCollection is a FeatureCollection, any other
/// object a Feature; each line and ring is its arcs, forwards or reversed, put together. On each fault but `Write` the sink is as
/// it was. On `Write` it took a prefix of the text, of the length that is reported. At `Ok` the sink is flushed. The memory of the
/// topology and of its text, from which lines and properties are copied, is left to the end of the process.
pub fn to_geo<R: Feed, W: Drain>(
    alloc: Global,
    source: &mut Source<R>,
    name: &str,
    sink: &mut Sink<W>,
) -> Result<u64, FileFault>
    // The bytes spell a topology, and what was written is the text of the features of its object of this name, which is UTF-8.
    ensures written { IfOk result (λ sent. IsDecoded name.now source.old source.new sink.old sink.new sent) }
    // Every fault is one that the source, its bytes or the name have, or a prefix of that text was written.
    ensures refused { IfErr result (λ e. IsGeoFault name.now source.old source.new sink.old sink.new e) }
    // The outcome of the bytes of the source is answered, unless memory, the source or the sink failed.
    ensures decided { (bytes : List ℕ) (outcome : Result (List ℕ) Fault) → source.old.left ≡ Some bytes → FileHasOutcome (object_text name.now) bytes outcome
        → FollowsText sink.old sink.new outcome result }
{
    to_geo_watched(alloc, source, name, None, sink, &mut Unwatched)
}

/// The same where the features may have so many positions, if that is bounded, and a `Watch` looks on. Where they have more nothing is written,
/// and `ManyPositions` says how many.
#[tactic(auto, using(crate::proofs::FilesDecided::found_fails, crate::proofs::ObjectsFound::fails, crate::proofs::ObjectsFound::fails_decoding))]
pub fn to_geo_watched<R: Feed, W: Drain, K: Watch>(
    alloc: Global,
    source: &mut Source<R>,
    name: &str,
    most: Option<u64>,
    sink: &mut Sink<W>,
    watch: &mut K,
) -> Result<u64, FileFault>
    ensures written { IfOk result (λ sent. IsDecodedWithin most name.now source.old source.new sink.old sink.new sent) }
    ensures refused { IfErr result (λ e. IsGeoFaultWithin most name.now source.old source.new sink.old sink.new e) }
    ensures decided { (bytes : List ℕ) (outcome : Result (List ℕ) Fault) → source.old.left ≡ Some bytes
        → FileHasOutcome (object_text_within most name.now) bytes outcome → FollowsText sink.old sink.new outcome result }
{
    let bytes = bytes_of(alloc, source)?;
    // (as in building)
    let lasting: &'static [u8] = bytes.leak();
    let decoded = decode(alloc, lasting, name, most, sink);
    if decoded.is_err() {
        watch.refused(lasting);
    }
    decoded
}

// Reading topologies.
ghost use Rattle.std.specs.Prelude.{ℕ, Err, List, MatchResult};
ghost use Rattle.inputs.specs.Texts.{IsRead};
ghost use Rattle.topojson_decoder.specs.Texts.{TextAnswers};
ghost use Rattle.mapchain_engine.specs.Files.{FailsToGive, IsKeptOf, IsNoTopology, IsSpelledOf, IsTopologyOf, ReadsKept, ReadsTopology};

use byte_ends::{Feed, MAX_INPUT, ReadFault, Source, read_all};
use geojson_types::Counts;
use inputs::{FileFault, Watch, show_refused};
use json_reading::JsonFault;
use std::alloc::Global;
use topojson_decoder::{
    Keeping, Parts, Refusal, SpelledTopology, read_parts, read_spelled_text, read_text,
};
use topojson_meaning::TopoFault;
use topojson_types::Topology;

/// Why bytes spell no topology.
#[tactic(auto, using(crate::proofs::FilesRead::no_text))]
fn fault_of(refusal: Refusal) -> FileFault
    ensures { (bytes : List ℕ) → TextAnswers bytes (Err refusal) → IsNoTopology bytes result }
{
    match refusal {
        Refusal::Memory => FileFault::Memory,
        Refusal::Text(fault) => {
            if fault == JsonFault::Memory {
                return FileFault::Memory;
            }
            FileFault::Json(fault)
        }
        Refusal::Meaning(fault) => {
            if fault == TopoFault::Memory {
                return FileFault::Memory;
            }
            FileFault::Topo(fault)
        }
    }
}

/// The topology that the bytes spell, with what was counted in reading it; or why they spell none.
fn topology_of(alloc: Global, bytes: &[u8]) -> Result<(Topology, Counts), FileFault>
    ensures { IsTopologyOf bytes.now result }
{
    match read_text(alloc, bytes) {
        Ok(read) => Ok(read),
        Err(refusal) => Err(fault_of(refusal)),
    }
}

/// The same of bytes that stay to the end of the process, beside the texts in which the arcs of the topology stand, as far as these are what is
/// written of them.
pub(crate) fn spelled_of(
    alloc: Global,
    bytes: &'static [u8],
) -> Result<(SpelledTopology, Counts), FileFault>
    ensures { IsSpelledOf bytes.now result }
{
    match read_spelled_text(alloc, bytes) {
        Ok(read) => Ok(read),
        Err(refusal) => Err(fault_of(refusal)),
    }
}

/// The topology that the bytes spell, with what was counted in reading it; or why they spell none. A `Watch` looks on.
fn topology_of_watched<K: Watch>(
    alloc: Global,
    bytes: &[u8],
    watch: &mut K,
) -> Result<(Topology, Counts), FileFault>
    ensures { IsTopologyOf bytes.now result }
{
    let read = topology_of(alloc, bytes);
    if read.is_ok() {
        watch.file_read(alloc, bytes);
    }
    read
}

/// What is kept of the topology that the bytes spell; or why they spell none. A `Watch` looks on.
fn kept_of<K: Watch>(
    alloc: Global,
    keeping: Keeping,
    bytes: &[u8],
    watch: &mut K,
) -> Result<Parts, FileFault>
    ensures { IsKeptOf keeping bytes.now result }
{
    match read_parts(alloc, keeping, bytes) {
        Ok((parts, _counts)) => {
            watch.file_read(alloc, bytes);
            Ok(parts)
        }
        Err(refusal) => Err(fault_of(refusal)),
    }
}

/// The bytes of a source that is read to its end.
pub(crate) fn bytes_of<R: Feed>(alloc: Global, source: &mut Source<R>) -> Result<Vec<u8>, FileFault>
    ensures { MatchResult result (λ v. IsRead source.old source.new v.items) (λ e. FailsToGive source.old source.new e) }
{
    match read_all(alloc, source, MAX_INPUT) {
        Ok(bytes) => Ok(bytes),
        Err(ReadFault::Memory) => Err(FileFault::Memory),
        Err(fault) => Err(FileFault::Read(fault)),
    }
}

/// Reads a source to its end, and gives the topology that its bytes spell, with what was counted in reading it. A `Watch` looks on.
#[tactic(auto, using(crate::proofs::FilesRead::topology_read))]
pub(crate) fn read_watched<R: Feed, K: Watch>(
    alloc: Global,
    source: &mut Source<R>,
    watch: &mut K,
) -> Result<(Topology, Counts), FileFault>
    ensures { ReadsTopology source.old source.new result }
{
    match bytes_of(alloc, source) {
        Ok(bytes) => {
            let read = topology_of_watched(alloc, &bytes, watch);
            show_refused(bytes, &read, watch);
            read
        }
        Err(fault) => Err(fault),
    }
}

/// Reads a source to its end, and gives what is kept of the topology that its bytes spell. A `Watch` looks on.
#[tactic(auto, using(crate::proofs::FilesRead::kept_read))]
pub(crate) fn read_kept<R: Feed, K: Watch>(
    alloc: Global,
    keeping: Keeping,
    source: &mut Source<R>,
    watch: &mut K,
) -> Result<Parts, FileFault>
    ensures { ReadsKept keeping source.old source.new result }
{
    match bytes_of(alloc, source) {
        Ok(bytes) => {
            let kept = kept_of(alloc, keeping, &bytes, watch);
            show_refused(bytes, &kept, watch);
            kept
        }
        Err(fault) => Err(fault),
    }
}

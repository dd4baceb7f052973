// Summaries of topologies.
ghost use Rattle.std.specs.Prelude.{◌≡◌, ℕ, List, Some, Result, IfOk, IfErr};
ghost use Rattle.inputs.specs.declared.file_fault.FileFault.{FileFault as Fault};
ghost use Rattle.reports.specs.declared.summary.Summary.{Summary as Counted};
ghost use Rattle.reports.specs.Summaries.{summary_of};
ghost use Rattle.topojson_types.specs.Topologies.{Contents};
ghost use Rattle.topojson_types.specs.Validity.{IsTopology};
ghost use Rattle.topojson_decoder.specs.Kept.{of_contents, parts_contents};
ghost use Rattle.topojson_decoder.specs.declared.keeping.Keeping.{Keeping as Kept};
ghost use Rattle.mapchain_engine.specs.FileOutcomes.{FileHasOutcome, FollowsSummary, summarised};
ghost use Rattle.mapchain_engine.specs.Files.{FailsToGive, IsSummarised};
ghost use Rattle.mapchain_engine.specs.Numbered.{numbered};

use crate::file_reading::read_kept;
use byte_ends::{Feed, Memory, Source};
use inputs::{FileFault, Unwatched, Watch};
use json_value::OwnText;
use reports::{Summary, summary_with};
use std::alloc::Global;
use std::mem;
use topojson_decoder::{Keeping, Parts, shapes_stay_valid, topology_of_valid};
use topojson_meaning::topology_is_valid;
use topojson_types::Topology;

/// Counts what is in a topology (TopoJSON 1.0) that is read from its source to the end.
///
/// The objects are in the topology's order. A file with more than `MAX_INPUT` bytes, one that is no JSON text (RFC 8259) nested at
/// most `TOPOLOGY_DEPTH` deep, and one that is no topology are refused, with the first fault. One byte order mark before the text
/// is skipped. What was read of the topology is left in memory to the end of the process.
#[tactic(auto, using(crate::proofs::FilesDecided::summary_decides, crate::proofs::FilesDecided::summary_fails))]
pub fn stat<R: Feed>(alloc: Global, source: &mut Source<R>) -> Result<Summary, FileFault>
    // The bytes spell a topology, and the summary is that topology's.
    ensures reported { IfOk result (λ summary. IsSummarised source.old source.new summary) }
    // Every fault is one that the source or its bytes have.
    ensures refused { IfErr result (λ e. FailsToGive source.old source.new e) }
    // The outcome of the bytes of the source is answered, unless memory or the source failed.
    ensures decided { (bytes : List ℕ) (outcome : Result Counted Fault) → source.old.left ≡ Some bytes → FileHasOutcome summarised bytes outcome
        → FollowsSummary outcome result }
{
    let parts = read_kept(alloc, Keeping::Counted, source, &mut Unwatched)?;
    let summary = summary_of_kept(alloc, &parts);
    // (as in building)
    mem::forget(parts);
    Ok(summary?)
}

/// Puts these numbers of features in the place of those that were counted of objects. There may be fewer.
#[tactic(auto, using(crate::proofs::Counted::all_put, crate::proofs::Counted::put_next, crate::proofs::Counted::put_one))]
fn put_features(objects: &mut [(OwnText, u64)], features: &[u64])
    ensures { objects.new ≡ numbered features.now objects.old }
{
    let mut rest = features;
    'objects: for object in objects.iter_mut() {
        if let Some((count, following)) = rest.split_first() {
            object.1 = *count;
            rest = following;
        }
    }
}

/// The summary of a topology of which this is kept.
fn summary_of_kept(alloc: Global, parts: &Parts) -> Result<Summary, Memory>
    ensures { (keeping : Kept) (t : Contents) → parts.now ≡ of_contents keeping t → IfOk result (λ summary. summary ≡ summary_of t) }
{
    let mut summary = summary_with(
        alloc,
        parts.objects.as_slice(),
        parts.arcs.as_slice(),
        parts.transform.is_some(),
    )?;
    summary.positions = parts.positions.unwrap_or(summary.positions);
    match &parts.features {
        None => Ok(summary),
        Some(features) => {
            put_features(summary.objects.as_mut_slice(), features.as_slice());
            Ok(summary)
        }
    }
}

/// The summary of a topology.
pub(crate) fn summary_in(alloc: Global, topology: &Topology) -> Result<Summary, Memory>
    ensures { IfOk result (λ summary. summary ≡ summary_of topology.now) }
{
    summary_with(
        alloc,
        topology.objects(),
        topology.arcs(),
        topology.transform().is_some(),
    )
}

/// Shows what was counted to a `Watch`.
fn show<K: Watch>(alloc: Global, parts: Parts, watch: &mut K)
    requires { IsTopology (parts_contents parts) }
{
    let topology = topology_of_valid(parts);
    watch.counted(alloc, &topology);
    // (as in building)
    mem::forget(topology);
}

/// The same as `stat`, of a topology that is read with the geometries of its features, which a `Watch` looks at.
#[tactic(auto, using(crate::proofs::FilesDecided::summary_decides, crate::proofs::FilesDecided::summary_fails))]
fn stat_shapes<R: Feed, K: Watch>(
    alloc: Global,
    source: &mut Source<R>,
    watch: &mut K,
) -> Result<Summary, FileFault>
    ensures reported { IfOk result (λ summary. IsSummarised source.old source.new summary) }
    ensures refused { IfErr result (λ e. FailsToGive source.old source.new e) }
    ensures decided { (bytes : List ℕ) (outcome : Result Counted Fault) → source.old.left ≡ Some bytes → FileHasOutcome summarised bytes outcome
        → FollowsSummary outcome result }
{
    let parts = read_kept(alloc, Keeping::Shapes, source, watch)?;
    let summary = summary_of_kept(alloc, &parts);
    topology_is_valid();
    shapes_stay_valid();
    show(alloc, parts, watch);
    Ok(summary?)
}

/// The same as `stat`, with the same contract, and a `Watch` looks on. The geometries of features are kept in memory only where it asks for more.
pub fn stat_watched<R: Feed, K: Watch>(
    alloc: Global,
    source: &mut Source<R>,
    watch: &mut K,
) -> Result<Summary, FileFault>
    ensures reported { IfOk result (λ summary. IsSummarised source.old source.new summary) }
    ensures refused { IfErr result (λ e. FailsToGive source.old source.new e) }
    ensures decided { (bytes : List ℕ) (outcome : Result Counted Fault) → source.old.left ≡ Some bytes → FileHasOutcome summarised bytes outcome
        → FollowsSummary outcome result }
{
    if watch.asks_for_more() {
        stat_shapes(alloc, source, watch)
    } else {
        stat(alloc, source)
    }
}

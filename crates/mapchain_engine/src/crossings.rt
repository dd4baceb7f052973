// Summaries with the crossings of topologies.
ghost use Rattle.std.specs.Prelude.{◌≡◌, ℕ, List, Some, Result, IfOk, IfErr, min};
ghost use Rattle.inputs.specs.declared.file_fault.FileFault.{FileFault as Fault};
ghost use Rattle.reports.specs.declared.summary.Summary.{Summary as Counted};
ghost use Rattle.reports.specs.Summaries.{most_crossings, summary_of, with_crossings};
ghost use Rattle.build_meaning.specs.ArcPositions.{crossings_of};
ghost use Rattle.mapchain_engine.specs.FileOutcomes.{FileHasOutcome, FollowsSummary, summarised_with_crossings};
ghost use Rattle.mapchain_engine.specs.Files.{FailsToGive, IsCounted};

use crate::file_reading::read_watched;
use crate::summarising::summary_in;
use byte_ends::{Feed, Memory, Source};
use inputs::{FileFault, Unwatched, Watch};
use layer_topology::arc_positions;
use reports::{MOST_CROSSINGS, Summary};
use segment_crossings::crossings_with;
use std::alloc::Global;
use std::mem;
use topojson_types::Topology;

/// How many pairs of segments of a topology's arcs meet badly, or as many as are counted at most. Some are shown to a `Watch`.
fn crossings_in<K: Watch>(alloc: Global, topology: &Topology, watch: &mut K) -> Result<u64, Memory>
    ensures { IfOk result (λ n. n ≡ min most_crossings (crossings_of topology.now)) }
{
    let lines = arc_positions(alloc, topology.transform(), topology.arcs())?;
    let most = watch.most_crossings();
    let (count, crossings) = crossings_with(alloc, &lines, MOST_CROSSINGS, most)?;
    watch.crossed(alloc, topology, &lines, &crossings);
    Ok(count)
}

/// The summary of a topology, with its crossings.
fn summary_with_crossings<K: Watch>(
    alloc: Global,
    topology: &Topology,
    watch: &mut K,
) -> Result<Summary, Memory>
    ensures { IfOk result (λ summary. summary ≡ with_crossings (crossings_of topology.now) (summary_of topology.now)) }
{
    let crossings = crossings_in(alloc, topology, watch)?;
    let mut summary = summary_in(alloc, topology)?;
    summary.crossings = Some(crossings);
    Ok(summary)
}

/// Counts what is in a topology (TopoJSON 1.0) that is read from its source to the end, with the pairs of segments of its arcs that meet
/// badly: they cross, lie on one another, or touch but at ends of both.
///
/// Each pair of places counts once, and so do arcs that no line uses; equal neighbours make no segment. At `MOST_CROSSINGS` it stays. The
/// topology is refused as by `stat`, and left in memory to the end of the process.
pub fn stat_with_crossings<R: Feed>(
    alloc: Global,
    source: &mut Source<R>,
) -> Result<Summary, FileFault>
    // The bytes spell a topology, and the summary is that topology's, with its crossings.
    ensures reported { IfOk result (λ summary. IsCounted source.old source.new summary) }
    // Every fault is one that the source or its bytes have.
    ensures refused { IfErr result (λ e. FailsToGive source.old source.new e) }
    // The outcome of the bytes of the source is answered, unless memory or the source failed.
    ensures decided { (bytes : List ℕ) (outcome : Result Counted Fault) → source.old.left ≡ Some bytes → FileHasOutcome summarised_with_crossings bytes outcome
        → FollowsSummary outcome result }
{
    stat_with_crossings_watched(alloc, source, &mut Unwatched)
}

/// The same, with the same contract, and a `Watch` looks on.
pub fn stat_with_crossings_watched<R: Feed, K: Watch>(
    alloc: Global,
    source: &mut Source<R>,
    watch: &mut K,
) -> Result<Summary, FileFault>
    ensures reported { IfOk result (λ summary. IsCounted source.old source.new summary) }
    ensures refused { IfErr result (λ e. FailsToGive source.old source.new e) }
    ensures decided { (bytes : List ℕ) (outcome : Result Counted Fault) → source.old.left ≡ Some bytes → FileHasOutcome summarised_with_crossings bytes outcome
        → FollowsSummary outcome result }
{
    let (topology, _counts) = read_watched(alloc, source, watch)?;
    watch.counted(alloc, &topology);
    let summary = summary_with_crossings(alloc, &topology, watch);
    // (as in building)
    mem::forget(topology);
    Ok(summary?)
}

// Simplifying the topology of a file.
ghost use Rattle.std.specs.Prelude.{◌≡◌, ◌≤◌, ℕ, List, Some, Result, IfOk, IfErr, true};
ghost use Rattle.geometry.specs.Units.{threshold_limit};
ghost use Rattle.inputs.specs.declared.file_fault.FileFault.{FileFault as Fault};
ghost use Rattle.json_value.specs.Text.{json_text};
ghost use Rattle.layer_topology.specs.Levels.{is_simplifying_level};
ghost use Rattle.reports.specs.declared.report.Report.{Report as Reported};
ghost use Rattle.topojson_types.specs.Values.{topology_value};
ghost use Rattle.mapchain_engine.specs.FileOutcomes.{FileHasOutcome};
ghost use Rattle.mapchain_engine.specs.Files.{FailsToGive};
ghost use Rattle.mapchain_engine.specs.Geo.{SendsText};
ghost use Rattle.mapchain_engine.specs.SimplifyOutcomes.{FollowsSimplified, simplified};
ghost use Rattle.mapchain_engine.specs.Simplified.{CallsForTopology, IsReadAndSimplified, IsSimplified, IsSimplifyFault};

use crate::file_reading::read_watched;
use crate::reducing::simplify_topology;
use crate::simplify_laws::simplified_text_is_utf8;
use byte_ends::{Drain, Feed, Sink, Source, flush_after};
use effective_area::Reducer;
use inputs::{FileFault, Unwatched, Watch};
use layer_topology::{Guards, Level, Reduction, left_law, share_stays};
use reports::Report;
use std::alloc::Global;
use std::mem;
use topojson_meaning::topology_is_valid;
use topojson_types::Topology;
use topojson_writer::write_topology;

/// Reads a source to its end, and gives what is left of the topology that its bytes spell where its arcs are reduced, with the
/// report.
fn read_and_simplify<Q: Reducer, R: Feed, K: Watch>(
    alloc: Global,
    reducer: &mut Q,
    source: &mut Source<R>,
    asked: Reduction,
    watch: &mut K,
) -> Result<(Topology, Report), FileFault>
    requires level { is_simplifying_level asked.level ≡ true }
    requires limit { asked.ring_limit ≤ threshold_limit }
    ensures given { IfOk result (λ r. IsReadAndSimplified asked.guards asked.level asked.ring_limit source.old source.new r.0 r.1) }
    ensures reduced { IfOk result (λ _. CallsForTopology asked.guards asked.level source.old source.new (Q.calls reducer.old) (Q.calls reducer.new)) }
    ensures refused { IfErr result (λ e. FailsToGive source.old source.new e) }
{
    let (topology, counts) = read_watched(alloc, source, watch)?;
    let less = simplify_topology(alloc, reducer, topology, counts, asked)?;
    Ok(less)
}

/// Writes the topology and flushes the sink.
fn send<W: Drain>(topology: &Topology, sink: &mut Sink<W>) -> Result<u64, FileFault>
    ensures { SendsText sink.old sink.new (json_text (topology_value topology.now)) result }
{
    let written = write_topology(topology, sink);
    let sent = flush_after(written, sink)?;
    Ok(sent)
}

/// Reads a topology (TopoJSON 1.0) from its source to the end, simplifies it, and writes what is left.
///
/// Each arc is reduced once at the threshold of `level`, twice an area in square units, by the positions that it stands for (Visvalingam
/// and Whyatt 1993). For a share it is the greatest at which the share of the positions between the ends of all arcs stays. Where
/// `guards` forbid crossings or keep shapes, all arcs are reduced at once in place of that, and so is a share reckoned; then, if `ring_limit` isn't
/// zero, what is small as it stands is dropped before that, and holds nothing. The cells that stay keep their numbers, and the transform stays. A line or ring that is left with too few positions is dropped, a ring of which twice the area is
/// under `ring_limit` (in square units), and a ring of a polygon whose outer ring is, but where shapes stay not the largest outer ring of a
/// feature; arcs that no line uses are left out. The report says what was counted in reading, what is dropped, of the arcs that are left how many
/// positions stay and were removed, and the threshold, where it was chosen. The topology is refused as by `stat`. On each fault but `Write` the sink
/// is as it was. On `Write` it took a prefix of the text, of the length that is reported. At `Ok` the sink is flushed. The topology's memory is left
/// to the end of the process.
pub fn simplify<Q: Reducer, R: Feed, W: Drain>(
    alloc: Global,
    reducer: &mut Q,
    source: &mut Source<R>,
    guards: Guards,
    level: Level,
    ring_limit: u128,
    sink: &mut Sink<W>,
) -> Result<Report, FileFault>
    requires level { is_simplifying_level level ≡ true }
    requires limit { ring_limit ≤ threshold_limit }
    // The bytes spell a topology, what was written is the text of what is left of it, which is UTF-8, and the report is that of it. Where no
    // crossing may be made, no more pairs of segments of what is left meet badly than of the topology, and none where none of that do. Where
    // shapes stay, each feature that has an outer ring of four positions or more keeps the one that encloses most. Where either is asked for, at
    // least the share that is asked for stays of the positions between the ends of its arcs, before lines are dropped.
    ensures written { IfOk result (λ report. IsSimplified guards level ring_limit source.old source.new sink.old sink.new report) }
    // The reducer was asked to reduce each arc of the topology that was read at the threshold, in order, and for nothing else; for nothing at all
    // where a guard or a share is asked for.
    ensures reduced { IfOk result (λ _. CallsForTopology guards level source.old source.new (Q.calls reducer.old) (Q.calls reducer.new)) }
    // Every fault is one that the source or its bytes have, or a prefix of that text was written.
    ensures refused { IfErr result (λ e. IsSimplifyFault guards level ring_limit source.old source.new sink.old sink.new e) }
    // The outcome of the bytes of the source is answered, unless memory, the source or the sink failed.
    ensures decided { (bytes : List ℕ) (outcome : Result (List ℕ × Reported) Fault) → source.old.left ≡ Some bytes → FileHasOutcome (simplified guards level ring_limit) bytes outcome
        → FollowsSimplified sink.old sink.new outcome result }
{
    let watch = &mut Unwatched;
    simplify_watched(
        alloc, reducer, source, guards, level, ring_limit, sink, watch,
    )
}

/// The same, and a `Watch` looks on: `simplify` by another name, with the same contract.
pub fn simplify_watched<Q: Reducer, R: Feed, W: Drain, K: Watch>(
    alloc: Global,
    reducer: &mut Q,
    source: &mut Source<R>,
    guards: Guards,
    level: Level,
    ring_limit: u128,
    sink: &mut Sink<W>,
    watch: &mut K,
) -> Result<Report, FileFault>
    requires level { is_simplifying_level level ≡ true }
    requires limit { ring_limit ≤ threshold_limit }
    ensures written { IfOk result (λ report. IsSimplified guards level ring_limit source.old source.new sink.old sink.new report) }
    ensures reduced { IfOk result (λ _. CallsForTopology guards level source.old source.new (Q.calls reducer.old) (Q.calls reducer.new)) }
    ensures refused { IfErr result (λ e. IsSimplifyFault guards level ring_limit source.old source.new sink.old sink.new e) }
    ensures decided { (bytes : List ℕ) (outcome : Result (List ℕ × Reported) Fault) → source.old.left ≡ Some bytes → FileHasOutcome (simplified guards level ring_limit) bytes outcome
        → FollowsSimplified sink.old sink.new outcome result }
{
    simplified_text_is_utf8();
    left_law();
    share_stays();
    topology_is_valid();
    let asked = Reduction {
        guards,
        level,
        ring_limit,
    };
    let (less, report) = read_and_simplify(alloc, reducer, source, asked, watch)?;
    let sent = send(&less, sink);
    watch.simplified(alloc, &less, report.dropped.as_slice());
    // (as in building)
    mem::forget(less);
    match sent {
        Ok(_) => Ok(report),
        Err(fault) => {
            drop(report);
            Err(fault)
        }
    }
}

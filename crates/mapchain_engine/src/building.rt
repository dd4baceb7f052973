// Building a topology.
ghost use Rattle.std.specs.List.{AllByRecursion};
ghost use Rattle.std.specs.Prelude.{◌≡◌, ◌⊎◌, None, Some, IfOk, IfErr, IsUtf8, map};
ghost use Rattle.json_value.specs.Text.{json_text};
ghost use Rattle.topojson_types.specs.Values.{topology_value};
ghost use Rattle.mapchain_engine.specs.Building.{BuildingLaws, CallsForLayers, IsBuilt, IsLateFault, Sends};
ghost use Rattle.inputs.specs.Names.{name_fault};
ghost use Rattle.inputs.specs.Outcomes.{HasOutcome, HaveBytesFor, Outcome, Texts};
ghost use Rattle.mapchain_engine.specs.BuildOutcomes.{Follows};

use crate::build_laws::layer_laws;
use crate::options::Options;
use crate::reducing::reported;
use byte_ends::{Drain, Feed, Sink, Source, flush_after};
use effective_area::Reducer;
use inputs::{BuildFault, Unwatched, Watch, check_names, read_layers};
use json_value::OwnText;
use layer_topology::{
    Reduction, share_stays, topology_of_layers, unguarded_is_written, written_laws,
    written_left_law,
};
use reports::Report;
use std::alloc::Global;
use std::mem;
use topojson_meaning::{reads_back, topology_text_is_read, topology_text_is_utf8};
use topojson_types::Topology;
use topojson_writer::write_topology;

/// Writes the topology and flushes the sink.
fn send<W: Drain>(topology: &Topology, sink: &mut Sink<W>) -> Result<(), BuildFault>
    ensures { Sends sink.old sink.new (json_text (topology_value topology.now)) result }
{
    let written = write_topology(topology, sink);
    flush_after(written, sink)?;
    Ok(())
}

/// The laws that the contract of building rests on. This does nothing.
fn building_laws()
    ensures { BuildingLaws }
{
    written_laws();
    written_left_law();
    unguarded_is_written();
    share_stays();
    reads_back();
    topology_text_is_read();
    topology_text_is_utf8();
    layer_laws();
}

/// Builds the topology of named layers, whose names are taken, and writes it.
#[tactic(auto, using(crate::proofs::SoundLayers::level_of, crate::proofs::SoundLayers::limit_of))]
fn build_layers<Q: Reducer, R: Feed, W: Drain, K: Watch>(
    alloc: Global,
    reducer: &mut Q,
    sources: &mut [(OwnText, Source<R>)],
    options: &Options,
    sink: &mut Sink<W>,
    watch: &mut K,
) -> Result<Report, BuildFault>
    requires names { name_fault (map (λ s. s.0) sources.old) ≡ None }
    requires texts { AllByRecursion IsUtf8 (map (λ s. s.0) sources.old) }
    ensures built { IfOk result (λ report. IsBuilt options.now sources.old sources.new sink.old sink.new report) }
    ensures reduced { IfOk result (λ _. CallsForLayers options.now sources.old sources.new (Q.calls reducer.old) (Q.calls reducer.new)) }
    ensures refused { IfErr result (λ e. IsLateFault options.now sources.old sources.new sink.old sink.new e) }
{
    building_laws();
    let (layers, counts) = read_layers(alloc, sources, options.exact, watch)?;
    let asked = Reduction {
        guards: options.guards,
        level: options.level,
        ring_limit: options.ring_limit,
    };
    let left = topology_of_layers(alloc, reducer, options.seed, layers, options.grid, asked)?;
    let (topology, report) = reported(counts, left);
    let sent = send(&topology, sink);
    watch.built(alloc, &topology, report.dropped.as_slice());
    // (the run ends soon, and to take a large topology apart costs it more than to write some of it)
    mem::forget(topology);
    match sent {
        Ok(()) => Ok(report),
        Err(fault) => {
            drop(report);
            Err(fault)
        }
    }
}

/// Builds the topology (TopoJSON 1.0) of named layers (RFC 7946), each read from its source to the end, and writes it.
///
/// A border that lines and rings of the layers share is one arc, which is reduced once. Where no crossing may be made or shapes stay, all arcs are
/// reduced at once in place of that. Names are looked at first, in order: up to there nothing is read. Then each layer is read, parsed and modelled
/// before the next. Nothing is written before all layers are taken, so on each fault but `Write` the sink is as it was. On `Write` it took a prefix
/// of the topology's text, of the length that is reported. At `Ok` the sink is flushed. The topology's memory is left to the end of the process.
pub fn build<Q: Reducer, R: Feed, W: Drain>(
    alloc: Global,
    reducer: &mut Q,
    sources: &mut [(OwnText, Source<R>)],
    options: &Options,
    sink: &mut Sink<W>,
) -> Result<Report, BuildFault>
    // The first fault of the names is answered, and nothing is read or written.
    ensures early { (e : BuildFault) → name_fault (map (λ s. s.0) sources.old) ≡ Some e
        → (result ≡ Err e) × (sources.new ≡ sources.old) × (sink.new ≡ sink.old) }
    // The text that was written is UTF-8, and JSON of a topology whose objects bear the layers' names in order. Decoding each gives the features
    // that are expected of its layer, snapped to the grid that is asked for: identifiers and properties unchanged, each line cut at
    // the junctions of all lines, each piece reduced at the threshold in the line's own direction and joined again, rings from their
    // starts, without what is dropped, as rings that enclose less than is asked for. The report says exactly what is dropped, and before
    // reduction each segment of the lines lies once, in exactly one arc. Where no crossing may be made or shapes stay, what was written is in place of
    // that what is left of the topology that is written at zero, whose features decode whole: under the first no more pairs of segments of it meet badly,
    // and under the second each feature keeps the outer ring that encloses most.
    ensures built { IfOk result (λ report. IsBuilt options.now sources.old sources.new sink.old sink.new report) }
    // The reducer was asked to reduce each arc of all lines at the threshold, in order, or nothing where a share is asked for: each arc is
    // weighed once in place of that; and nothing where no crossing may be made or shapes stay.
    ensures reduced { IfOk result (λ _. CallsForLayers options.now sources.old sources.new (Q.calls reducer.old) (Q.calls reducer.new)) }
    // Every other fault is one that the sources or their bytes have, or a prefix of that text was written.
    ensures refused { IfErr result (λ e. (name_fault (map (λ s. s.0) sources.old) ≡ Some e)
        ⊎ IsLateFault options.now sources.old sources.new sink.old sink.new e) }

    // The outcome of the bytes of the sources is answered, unless memory, a source or the sink failed. Where
    // the first sources have a fault, nothing need be known of those after them.
    ensures decided { (bytes : Texts) (outcome : Outcome) → name_fault (map (λ s. s.0) sources.old) ≡ None
        → HaveBytesFor outcome sources.old bytes → HasOutcome options.now.exact bytes outcome → Follows options.now outcome result }
{
    build_watched(alloc, reducer, sources, options, sink, &mut Unwatched)
}

/// The same, and a `Watch` looks on: `build` by another name, with the same contract.
#[tactic(auto, using(crate::proofs::Built::early_names))]
pub fn build_watched<Q: Reducer, R: Feed, W: Drain, K: Watch>(
    alloc: Global,
    reducer: &mut Q,
    sources: &mut [(OwnText, Source<R>)],
    options: &Options,
    sink: &mut Sink<W>,
    watch: &mut K,
) -> Result<Report, BuildFault>
    ensures early { (e : BuildFault) → name_fault (map (λ s. s.0) sources.old) ≡ Some e
        → (result ≡ Err e) × (sources.new ≡ sources.old) × (sink.new ≡ sink.old) }
    ensures built { IfOk result (λ report. IsBuilt options.now sources.old sources.new sink.old sink.new report) }
    ensures reduced { IfOk result (λ _. CallsForLayers options.now sources.old sources.new (Q.calls reducer.old) (Q.calls reducer.new)) }
    ensures refused { IfErr result (λ e. (name_fault (map (λ s. s.0) sources.old) ≡ Some e)
        ⊎ IsLateFault options.now sources.old sources.new sink.old sink.new e) }
    ensures decided { (bytes : Texts) (outcome : Outcome) → name_fault (map (λ s. s.0) sources.old) ≡ None
        → HaveBytesFor outcome sources.old bytes → HasOutcome options.now.exact bytes outcome → Follows options.now outcome result }
{
    check_names(alloc, sources)?;
    build_layers(alloc, reducer, sources, options, sink, watch)
}

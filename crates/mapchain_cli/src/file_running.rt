// Running the commands that take the file of a topology.
ghost use Rattle.std.specs.Prelude.{◌≡◌, ◌≤◌, None, Some, IfErr, IfOk, OnOk, true};
ghost use Rattle.byte_ends.specs.declared.source.ReadFault.TheVariants as read;
ghost use Rattle.geometry.specs.Units.{threshold_limit};
ghost use Rattle.inputs.specs.declared.file_fault.FileFault.TheVariants as file;
ghost use Rattle.layer_topology.specs.Levels.{is_simplifying_level};
ghost use Rattle.reports.specs.Summaries as spec;
ghost use Rattle.mapchain_engine.specs.Files.{FailsToGive, IsReported};
ghost use Rattle.mapchain_engine.specs.Geo.{IsGeoFaultWithin, SendsText};
ghost use Rattle.byte_ends.specs.Ends.{Fed};
ghost use Rattle.mapchain_engine.specs.Simplified.{CallsForTopology, IsSimplifyFault};
ghost use Rattle.mapchain_cli.specs.Endings.{DecodesOf, IsSummaryFault, RefusesFile, SimplifiesOf, Summarises};
ghost use Rattle.mapchain_cli.specs.Files.{IsOpened, Opened, RefusedAfter, used};

use crate::files::Files;
use byte_ends::{Drain, Feed, ReadFault, Sink, Source, flush_after};
use effective_area::HeapLinks;
use explanations::Observed;
use inputs::FileFault;
use mapchain_engine::{
    Guards, Level, simplify_watched, stat_watched, stat_with_crossings_watched, to_geo_watched,
};
use reports::{Report, Summary, summary_text};
use std::alloc::Global;

/// Opens the file of a topology.
fn open_file<F: Files>(path: &str, files: &mut F) -> Result<Source<F::R>, FileFault>
    ensures opened { IfOk result (λ source. IsOpened ((F.state files.old).contents) path.now source) }
    ensures once { OnOk result (Opened 1 (used (F.state files.old) (F.state files.new))) }
    ensures refused { IfErr result (λ e. ((F.state files.old).contents path.now ≡ None)
        × RefusedAfter 0 (used (F.state files.old) (F.state files.new)) × (e ≡ file.Read read.Read)) }
{
    match files.open(path) {
        Some(source) => Ok(source),
        None => Err(FileFault::Read(ReadFault::Read)),
    }
}

/// Decodes the object of this name.
pub(crate) fn decode_object<F: Files, V: Drain>(
    alloc: Global,
    observed: &mut Observed,
    name: &str,
    most: Option<u64>,
    path: &str,
    files: &mut F,
    out: &mut Sink<V>,
) -> Result<(), FileFault>
    ensures decoded { IfOk result (λ _. DecodesOf (used (F.state files.old) (F.state files.new)) name.now most path.now out.old out.new) }
    ensures refused { IfErr result (λ e. RefusesFile (used (F.state files.old) (F.state files.new)) path.now out.old out.new
        (λ s u. IsGeoFaultWithin most name.now s u out.old out.new) e) }
{
    let mut source = open_file(path, files)?;
    let decoded = to_geo_watched(alloc, &mut source, name, most, out, observed);
    files.done_with(&source);
    decoded?;
    Ok(())
}

/// Simplifies a topology at this level under these guards, without rings under this limit, and gives the report.
pub(crate) fn simplify_file<F: Files, V: Drain>(
    alloc: Global,
    reducer: &mut HeapLinks,
    observed: &mut Observed,
    guards: Guards,
    level: Level,
    ring_limit: u128,
    path: &str,
    files: &mut F,
    out: &mut Sink<V>,
) -> Result<Report, FileFault>
    requires level { is_simplifying_level level ≡ true }
    requires limit { ring_limit ≤ threshold_limit }
    ensures simplified { IfOk result (λ report. SimplifiesOf (used (F.state files.old) (F.state files.new)) guards level ring_limit path.now out.old out.new report) }
    ensures reduced { IfOk result (λ _. (old : Fed) × (new : Fed) × IsOpened ((F.state files.old).contents) path.now old
        × ((F.state files.new).noted.source ≡ Some new) × CallsForTopology guards level old new reducer.old.calls reducer.new.calls) }
    ensures refused { IfErr result (λ e. RefusesFile (used (F.state files.old) (F.state files.new)) path.now out.old out.new
        (λ s u. IsSimplifyFault guards level ring_limit s u out.old out.new) e) }
{
    let mut source = open_file(path, files)?;
    let simplified = simplify_watched(
        alloc,
        reducer,
        &mut source,
        guards,
        level,
        ring_limit,
        out,
        observed,
    );
    files.done_with(&source);
    let report = simplified?;
    Ok(report)
}

/// Writes a summary and flushes the sink.
fn send_summary<V: Drain>(summary: &Summary, out: &mut Sink<V>) -> Result<u64, FileFault>
    ensures { SendsText out.old out.new (spec.summary_text summary.now) result }
{
    let written = summary_text(summary, out);
    let sent = flush_after(written, out)?;
    Ok(sent)
}

/// The summary of a topology, with its crossings or without.
fn summary_of<R: Feed>(
    alloc: Global,
    observed: &mut Observed,
    crossings: bool,
    source: &mut Source<R>,
) -> Result<Summary, FileFault>
    ensures reported { IfOk result (λ summary. IsReported crossings source.old source.new summary) }
    ensures refused { IfErr result (λ e. FailsToGive source.old source.new e) }
{
    if crossings {
        stat_with_crossings_watched(alloc, source, observed)
    } else {
        stat_watched(alloc, source, observed)
    }
}

/// Counts what is in a topology, and its crossings, where they are asked for.
pub(crate) fn summarise<F: Files, V: Drain>(
    alloc: Global,
    observed: &mut Observed,
    crossings: bool,
    path: &str,
    files: &mut F,
    out: &mut Sink<V>,
) -> Result<(), FileFault>
    ensures reported { IfOk result (λ _. Summarises (used (F.state files.old) (F.state files.new)) crossings path.now out.old out.new) }
    ensures refused { IfErr result (λ e. RefusesFile (used (F.state files.old) (F.state files.new)) path.now out.old out.new (IsSummaryFault crossings out.old out.new) e) }
{
    let mut source = open_file(path, files)?;
    let summarised = summary_of(alloc, observed, crossings, &mut source);
    files.done_with(&source);
    let summary = summarised?;
    send_summary(&summary, out)?;
    Ok(())
}

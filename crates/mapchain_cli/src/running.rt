// Running the program.
ghost use Rattle.std.specs.Prelude.{◌≡◌, ◌⊎◌, ◌<◌, ◌≤◌, IfErr, IfOk, IfSome, None, OnOk, Some, length, map, option_map, true};
ghost use Rattle.std.specs.String.{string_bytes};
ghost use Rattle.command_words.specs.Asked.{detail, output_of, report_of};
ghost use Rattle.command_words.specs.Joined.{joined};
ghost use Rattle.command_words.specs.Requests.{IsInRange};
ghost use Rattle.inputs.specs.declared.fault.BuildFault.{BuildFault as Fault};
ghost use Rattle.inputs.specs.Sources.{Sources};
ghost use Rattle.mapchain_engine.specs.Building.{CallsForLayers};
ghost use Rattle.mapchain_cli.specs.Asking.{CallsFor, IsAnswered, IsRefused, texts_of};
ghost use Rattle.mapchain_cli.specs.Endings.{BuildsOf, IsUnopened, RefusesLayers};
ghost use Rattle.mapchain_cli.specs.Files.{AreOpened, HoldsBut, Opened, OpensPrefix, used};
ghost use Rattle.mapchain_cli.specs.Following.{IsCarriedOut};
ghost use Rattle.mapchain_cli.specs.Outputs.{IsPerformed, Settles, asked_output};
ghost use Rattle.mapchain_cli.specs.Runs.{Runs, RunsOn};
ghost use Rattle.mapchain_cli.specs.declared.ending.Ending.TheVariants as ending;

use crate::delivering::deliver;
use crate::ending::Ending;
use crate::file_running::{decode_object, simplify_file, summarise};
use crate::files::Files;
use crate::following::{follow, is_followed};
use crate::options::{level_and_limit, options_of};
use crate::printing::{print_outcome, print_words_fault};
use byte_ends::{Drain, ReadFault, Sink, Source};
use command_words::{Order, Request, WordsFault, joined_words, read_words};
use effective_area::HeapLinks;
use explanations::Observed;
use inputs::BuildFault;
use json_value::OwnText;
use mapchain_engine::{Guards, Options, build_watched};
use reports::Report;
use std::alloc::Global;

/// Opens the file of each layer, in order.
fn open_layers<F: Files>(
    alloc: Global,
    layers: &[(&str, &str)],
    files: &mut F,
) -> Result<Vec<(OwnText, Source<F::R>)>, Ending>
    ensures opened { IfOk result (λ v. AreOpened ((F.state files.old).contents) (texts_of layers.now) v.items) }
    ensures each_once { OnOk result (Opened (length (texts_of layers.now)) (used (F.state files.old) (F.state files.new))) }
    ensures refused { IfErr result (λ e. ((e ≡ ending.Memory) × OpensPrefix (length (texts_of layers.now)) (used (F.state files.old) (F.state files.new)))
        ⊎ ((fault : Fault) × (e ≡ ending.Refused fault) × IsUnopened (used (F.state files.old) (F.state files.new)) (texts_of layers.now) fault)) }
{
    let mut sources = Vec::new(alloc);
    'layers: for (layer, (name, path)) in layers.iter().enumerate() {
        let name = OwnText::of(String::from_str(alloc, name)?);
        match files.open(path) {
            Some(source) => sources.push((name, source))?,
            None => {
                let fault = ReadFault::Read;
                return Err(Ending::Refused(BuildFault::Read { layer, fault }));
            }
        }
    }
    Ok(sources)
}

/// Builds the topology of the layers with these names, each in the file of its path.
fn build_layers<F: Files, V: Drain>(
    alloc: Global,
    reducer: &mut HeapLinks,
    observed: &mut Observed,
    layers: &[(&str, &str)],
    options: &Options,
    files: &mut F,
    out: &mut Sink<V>,
) -> Result<Report, Ending>
    ensures built { IfOk result (λ report. BuildsOf (used (F.state files.old) (F.state files.new)) options.now (texts_of layers.now) out.old out.new report) }
    ensures reduced { IfOk result (λ _. (olds : Sources) × (news : Sources) × AreOpened ((F.state files.old).contents) (texts_of layers.now) olds
        × ((F.state files.new).noted.sources ≡ Some news) × CallsForLayers options.now olds news reducer.old.calls reducer.new.calls) }
    ensures refused { IfErr result (λ e. ((e ≡ ending.Memory) × (out.new ≡ out.old)
        × OpensPrefix (length (texts_of layers.now)) (used (F.state files.old) (F.state files.new)))
        ⊎ ((fault : Fault) × (e ≡ ending.Refused fault)
        × RefusesLayers (used (F.state files.old) (F.state files.new)) options.now (texts_of layers.now) out.old out.new fault)) }
{
    let mut sources = open_layers(alloc, layers, files)?;
    let built = build_watched(
        alloc,
        reducer,
        sources.as_mut_slice(),
        options,
        out,
        observed,
    );
    files.done_with_all(&sources);
    let report = built?;
    Ok(report)
}

/// Does what is asked for, and gives the report of a build or of simplifying.
pub(crate) fn answer<F: Files, V: Drain>(
    alloc: Global,
    reducer: &mut HeapLinks,
    observed: &mut Observed,
    request: &Request<'_>,
    files: &mut F,
    out: &mut Sink<V>,
) -> Result<Option<Report>, Ending>
    requires { IsInRange request.now }
    ensures answered { IfOk result (λ report. IsAnswered (used (F.state files.old) (F.state files.new)) request.now out.old out.new report) }
    ensures reduced { IfOk result (λ _. CallsFor (used (F.state files.old) (F.state files.new)) request.now reducer.old.calls reducer.new.calls) }
    ensures refused { IfErr result (λ e. IsRefused (used (F.state files.old) (F.state files.new)) request.now out.old out.new e) }
{
    match request {
        Request::Build {
            layers,
            exact,
            grid,
            area,
            keep,
            ring_area,
            no_crossings,
            keep_shapes,
        } => {
            let guards = Guards {
                no_crossings: *no_crossings,
                keep_shapes: *keep_shapes,
            };
            let options = options_of(
                alloc,
                *exact,
                files.seed(),
                *grid,
                area,
                *keep,
                ring_area,
                guards,
            )?;
            let report = build_layers(
                alloc,
                reducer,
                observed,
                layers.as_slice(),
                &options,
                files,
                out,
            )?;
            Ok(Some(report))
        }
        Request::Simplify {
            area,
            keep,
            ring_area,
            no_crossings,
            keep_shapes,
            path,
        } => {
            let guards = Guards {
                no_crossings: *no_crossings,
                keep_shapes: *keep_shapes,
            };
            let (level, ring_limit) = level_and_limit(alloc, area, *keep, ring_area)?;
            let report = simplify_file(
                alloc, reducer, observed, guards, level, ring_limit, path, files, out,
            )?;
            Ok(Some(report))
        }
        Request::Geo { name, most, path } => {
            decode_object(alloc, observed, name, *most, path, files, out)?;
            Ok(None)
        }
        Request::Stat { crossings, path } => {
            summarise(alloc, observed, *crossings, path, files, out)?;
            Ok(None)
        }
    }
}

/// Does what is asked for, by this reducer where lines are reduced, over standard output or over an output that takes the place of the
/// file of this path. Gives the report of a build or of simplifying, or why it isn't done; what is observed says more of it.
pub fn perform<F: Files, V: Drain>(
    alloc: Global,
    reducer: &mut HeapLinks,
    observed: &mut Observed,
    request: &Request<'_>,
    output: Option<&str>,
    files: &mut F,
    out: &mut Sink<V>,
) -> Result<Option<Report>, Ending>
    requires { IsInRange request.now }
    ensures performed { IsPerformed (used (F.state files.old) (F.state files.new)) (option_map (λ o. o.now) output.entry) request.now out.old out.new result }
    ensures reduced { IfOk result (λ _. CallsFor (used (F.state files.old) (F.state files.new)) request.now reducer.old.calls reducer.new.calls) }
{
    match output {
        None => answer(alloc, reducer, observed, request, files, out),
        Some(path) => deliver(alloc, reducer, observed, request, path, files),
    }
}

/// Carries out an order: does what is asked for, reports how that came out, and says more of it where that is asked. The answer is the
/// exit status.
fn carry_out<F: Files, V: Drain, W: Drain>(
    alloc: Global,
    order: &Order<'_>,
    files: &mut F,
    out: &mut Sink<V>,
    err: &mut Sink<W>,
) -> u8
    requires { IsInRange order.now.request }
    ensures { IsCarriedOut (used (F.state files.old) (F.state files.new)) (asked_output order.now) (detail order.now) order.now.request
        (record { out = out.old; err = err.old }) (record { out = out.new; err = err.new }) result }
{
    let mut reducer = HeapLinks::new();
    let is_count = matches!(&order.request, Request::Stat { .. });
    let mut observed = Observed::new(alloc, is_followed(order), is_count);
    let request = &order.request;
    let outcome = perform(
        alloc,
        &mut reducer,
        &mut observed,
        request,
        order.output,
        files,
        out,
    );
    print_outcome(order.quiet, &outcome, err);
    follow(alloc, order, &outcome, &mut observed, files, err)
}

/// Runs the program on these words, in which an option whose value may be any text and that value are one word.
fn run<F: Files, V: Drain, W: Drain>(
    alloc: Global,
    words: &[String],
    files: &mut F,
    out: &mut Sink<V>,
    err: &mut Sink<W>,
) -> u8
    ensures { RunsOn (used (F.state files.old) (F.state files.new)) (map string_bytes words.now)
        (record { out = out.old; err = err.old }) (record { out = out.new; err = err.new }) result }
{
    match read_words(alloc, words) {
        Ok(order) => carry_out(alloc, &order, files, out, err),
        Err(fault) => print_words_fault(alloc, &fault, out, err),
    }
}

/// Runs the program on the words after its name. Standard output, or the file that is named for the output, takes the topology, the
/// features or the summary, standard output the help. Standard error takes the report of a build or of simplifying, or a line that says
/// what is wrong. The answer is the exit status: 0 where it is done, 1 where the contents of a file are refused, 2 where the words are,
/// and 3 where reading, writing or memory failed.
pub fn command<F: Files, V: Drain, W: Drain>(
    alloc: Global,
    words: Vec<String>,
    files: &mut F,
    out: &mut Sink<V>,
    err: &mut Sink<W>,
) -> u8
    // The request that the words ask for is done or refused. Where they ask for none help is given, or the words are refused. Standard
    // error took what there is to say.
    ensures ran { Runs (used (F.state files.old) (F.state files.new)) (map string_bytes words.items)
        (record { out = out.old; err = err.old }) (record { out = out.new; err = err.new }) result }
    ensures status { result ≤ 3 }
    // At status 0 standard output took all that was written to it, and passed it on, unless the words name a file for the output.
    ensures done { result ≡ 0 → output_of (joined (map string_bytes words.items)) ≡ None → out.new.failures ≡ 0 }
    ensures flushed { result ≡ 0 → output_of (joined (map string_bytes words.items)) ≡ None → out.new.flushed ≡ true }
    // Where they name one, standard output takes nothing.
    ensures elsewhere { IfSome (output_of (joined (map string_bytes words.items))) (λ _. out.new ≡ out.old) }
    // Where the input or the words are refused, standard output takes nothing.
    ensures refused { (result ≡ 1) ⊎ (result ≡ 2) → out.new ≡ out.old }
    // Unless all is done, every file holds what it held, where the words name none for a report of the run.
    ensures lost { 0 < result → report_of (joined (map string_bytes words.items)) ≡ None → (F.state files.new).contents ≡ (F.state files.old).contents }
    // Where the input or the words are refused, every file but that of the report holds what it held.
    ensures kept { (result ≡ 1) ⊎ (result ≡ 2) → HoldsBut (report_of (joined (map string_bytes words.items))) (F.state files.old) (F.state files.new) }
    // No output to a file was tried, or one or two: each couldn't be begun, or was kept, or couldn't be, or taken away, before the next.
    ensures settled { Settles (F.state files.old).counts.outputs (F.state files.new).counts.outputs }
{
    match joined_words(alloc, words.as_slice()) {
        Ok(joined) => run(alloc, joined.as_slice(), files, out, err),
        Err(_) => print_words_fault(alloc, &WordsFault::Memory, out, err),
    }
}

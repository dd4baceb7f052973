// Saying more of a run than its report or the line of its fault, where that is asked.
ghost use Rattle.std.specs.Prelude.{◌≡◌, false, true};
ghost use Rattle.command_words.specs.Asked.{detail};
ghost use Rattle.mapchain_cli.specs.Files.{used};
ghost use Rattle.mapchain_cli.specs.Following.{Follows, IsFaultOf, IsReportOf, IsReported, IsUnwritten, PutsReport, PrintsIf, TellsUnwritten, no_report};
ghost use Rattle.mapchain_cli.specs.Following as spec;
ghost use Rattle.mapchain_cli.specs.Performing as performing;

use crate::ending::Ending;
use crate::explaining::{explanation_of, unwritten_report};
use crate::files::Files;
use crate::printing::status_after;
use byte_ends::{Drain, Sink, flush_after};
use command_words::Order;
use explanations::{Observed, put_brief};
use reports::{FAILED, Report, RunFault, RunReport, print_text, write_run_report};
use std::alloc::Global;

/// The fault of a report of a run.
fn fault_of(ending: &Ending) -> Option<RunFault<'_>>
    ensures { IsFaultOf ending.now result }
{
    Some(match ending {
        Ending::BadArea => RunFault::Words("bad area"),
        Ending::BadRingArea => RunFault::Words("bad ring area"),
        Ending::BadShare => RunFault::Words("bad share"),
        Ending::Refused(fault) => RunFault::Build(fault),
        Ending::FileRefused(fault) => RunFault::File(fault),
        Ending::Memory => RunFault::Memory,
    })
}

/// The report of a run that came out so, with this explanation.
fn run_report<'a>(
    outcome: &'a Result<Option<Report>, Ending>,
    explanation: &'a str,
) -> RunReport<'a>
    ensures { IsReportOf outcome.now explanation.now (performing.status_after outcome.now) result }
{
    let status = status_after(outcome);
    match outcome {
        Ok(report) => RunReport {
            status,
            fault: None,
            report: report.as_ref(),
            explanation,
        },
        Err(ending) => RunReport {
            status,
            fault: fault_of(ending),
            report: None,
            explanation,
        },
    }
}

/// The exit status where the report of the run couldn't be written: that of the run, unless that is done.
fn unreported(status: u8) -> u8
    ensures { result ≡ spec.unreported status }
{
    if status == 0 { FAILED } else { status }
}

/// Puts the report of a run in the place of the file of this path, and answers whether that was done.
fn put_report<F: Files>(path: &str, run: &RunReport<'_>, files: &mut F) -> bool
    ensures written { result ≡ true → PutsReport (used (F.state files.old) (F.state files.new)) path.now run.now }
    ensures unwritten { result ≡ false → IsUnwritten (used (F.state files.old) (F.state files.new)) path.now run.now }
{
    let Some(mut output) = files.begin(path) else {
        return false;
    };
    let written = write_run_report(run, &mut output);
    match flush_after(written, &mut output) {
        Ok(_) => files.keep(output.into_inner()),
        Err(_) => {
            files.discard(output.into_inner());
            false
        }
    }
}

/// Prints that the report of the run couldn't be written to the file of this path, and why, if that is asked.
fn print_unreported<F: Files, W: Drain>(
    alloc: Global,
    path: &str,
    explains: bool,
    files: &F,
    err: &mut Sink<W>,
)
    ensures { TellsUnwritten explains err.old err.new }
{
    print_text(b"error: F4 NoReport\n", err);
    let reason = unwritten_report(alloc, path, files);
    print_if(explains, reason.as_str(), err);
}

/// Writes the report of a run to the file of this path, or says that it can't be, and why, if that is asked. The answer is the exit status.
fn report_run<F: Files, W: Drain>(
    alloc: Global,
    path: &str,
    explains: bool,
    outcome: &Result<Option<Report>, Ending>,
    explanation: &str,
    files: &mut F,
    err: &mut Sink<W>,
) -> u8
    ensures { IsReported (used (F.state files.old) (F.state files.new)) path.now explains outcome.now explanation.now err.old err.new result }
{
    let run = run_report(outcome, explanation);
    let status = run.status;
    if put_report(path, &run, files) {
        return status;
    }
    print_unreported(alloc, path, explains, files, err);
    unreported(status)
}

/// Prints an explanation in brief where that is asked.
fn print_if<W: Drain>(is_asked: bool, text: &str, err: &mut Sink<W>)
    ensures { PrintsIf is_asked err.old err.new text.now }
{
    if is_asked {
        let written = put_brief(text, err);
        let _ = flush_after(written, err);
    }
}

/// Whether more is to be said of a run than how it came out.
pub(crate) fn is_followed(order: &Order<'_>) -> bool {
    order.explains || order.report.is_some()
}

/// Explains a run that came out so, and writes its report, each where that is asked. The answer is the exit status.
pub(crate) fn follow<F: Files, W: Drain>(
    alloc: Global,
    order: &Order<'_>,
    outcome: &Result<Option<Report>, Ending>,
    observed: &mut Observed,
    files: &mut F,
    err: &mut Sink<W>,
) -> u8
    ensures { Follows order.now.explains (detail order.now).report (used (F.state files.old) (F.state files.new)) (detail order.now) outcome.now
        err.old err.new result }
{
    if !order.explains && order.report.is_none() {
        return status_after(outcome);
    }
    let explanation = explanation_of(alloc, order, outcome, observed, files);
    print_if(order.explains, explanation.as_str(), err);
    match order.report {
        None => status_after(outcome),
        Some(path) => {
            let text = explanation.as_str();
            report_run(alloc, path, order.explains, outcome, text, files, err)
        }
    }
}

// Telling how a run ended.
ghost use Rattle.std.specs.Prelude.{◌≡◌, Ok};
ghost use Rattle.reports.specs.Printing.{Prints};
ghost use Rattle.mapchain_cli.specs.Performing as spec;
ghost use Rattle.mapchain_cli.specs.Performing.{line_of, printed_text, printed_unless_quiet};
ghost use Rattle.mapchain_cli.specs.Runs.{EndsAtWords, IsHelped};

use crate::ending::Ending;
use byte_ends::{Drain, Sink, flush_after};
use command_words::WordsFault;
use inputs::BuildFault;
use reports::{
    DONE, FAILED, Report, WORDS_REFUSED, file_status, print_fault, print_file_fault, print_text,
    report_text, status,
};
use std::alloc::Global;

/// Prints why a request isn't done.
fn print_ending<W: Drain>(ending: &Ending, err: &mut Sink<W>)
    ensures { Prints err.old err.new (line_of ending.now) }
{
    match ending {
        Ending::BadArea => print_text(b"error: bad area\n", err),
        Ending::BadRingArea => print_text(b"error: bad ring area\n", err),
        Ending::BadShare => print_text(b"error: bad share\n", err),
        Ending::Refused(fault) => {
            print_fault(fault, err);
        }
        Ending::FileRefused(fault) => {
            print_file_fault(fault, err);
        }
        Ending::Memory => print_text(b"", err),
    }
}

/// Prints the report of a request that is done, if it has one.
fn print_done<W: Drain>(report: &Option<Report>, err: &mut Sink<W>)
    ensures { Prints err.old err.new (printed_text (Ok report.now)) }
{
    match report {
        Some(report) => {
            let written = report_text(report, err);
            let _ = flush_after(written, err);
        }
        None => print_text(b"", err),
    }
}

/// Prints how a request came out: the report of a build or of simplifying, unless that is to be left out, or why it isn't done.
pub(crate) fn print_outcome<W: Drain>(
    quiet: bool,
    outcome: &Result<Option<Report>, Ending>,
    err: &mut Sink<W>,
)
    ensures { Prints err.old err.new (printed_unless_quiet quiet outcome.now) }
{
    match outcome {
        Ok(report) => {
            if quiet {
                print_text(b"", err);
            } else {
                print_done(report, err);
            }
        }
        Err(ending) => print_ending(ending, err),
    }
}

/// The exit status of a request that isn't done.
fn ending_status(ending: &Ending) -> u8
    ensures { result ≡ spec.ending_status ending.now }
{
    match ending {
        Ending::BadArea | Ending::BadRingArea | Ending::BadShare => WORDS_REFUSED,
        Ending::Refused(fault) => status(fault),
        Ending::FileRefused(fault) => file_status(fault),
        Ending::Memory => FAILED,
    }
}

/// The exit status of a request that came out so.
pub(crate) fn status_after(outcome: &Result<Option<Report>, Ending>) -> u8
    ensures { result ≡ spec.status_after outcome.now }
{
    match outcome {
        Ok(_) => DONE,
        Err(ending) => ending_status(ending),
    }
}

/// Writes help to standard output, and gives the status.
fn help<V: Drain, W: Drain>(text: &str, out: &mut Sink<V>, err: &mut Sink<W>) -> u8
    ensures { IsHelped (record { out = out.old; err = err.old }) (record { out = out.new; err = err.new }) result }
{
    let written = out.put(0, text.as_bytes());
    match flush_after(written, out) {
        Ok(_) => {
            print_text(b"", err);
            DONE
        }
        Err(fault) => print_fault(&BuildFault::from(fault), err),
    }
}

/// Prints what there is to say of words that ask for nothing that is done: help on standard output, what is wrong with them on
/// standard error, nothing for want of memory. Gives the status.
pub(crate) fn print_words_fault<V: Drain, W: Drain>(
    alloc: Global,
    fault: &WordsFault,
    out: &mut Sink<V>,
    err: &mut Sink<W>,
) -> u8
    ensures { EndsAtWords fault.now (record { out = out.old; err = err.old }) (record { out = out.new; err = err.new }) result }
{
    let Ok(text) = fault.to_string(alloc) else {
        print_text(b"", err);
        return FAILED;
    };
    match fault {
        WordsFault::Memory => {
            print_text(b"", err);
            FAILED
        }
        WordsFault::Help(_) => help(text.as_str(), out, err),
        WordsFault::Refused(_) | WordsFault::NoEquals { .. } | WordsFault::GridRange => {
            print_text(text.as_bytes(), err);
            WORDS_REFUSED
        }
    }
}

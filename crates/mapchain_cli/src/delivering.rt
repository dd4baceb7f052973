// Doing a request whose output takes the place of a file.
ghost use Rattle.std.specs.Prelude.{◌≡◌, IfOk};
ghost use Rattle.command_words.specs.Requests.{IsInRange};
ghost use Rattle.mapchain_cli.specs.Asking.{CallsFor};
ghost use Rattle.mapchain_cli.specs.Files.{used};
ghost use Rattle.mapchain_cli.specs.Outputs as spec;
ghost use Rattle.mapchain_cli.specs.Outputs.{IsSent};

use crate::ending::Ending;
use crate::files::Files;
use crate::running::answer;
use command_words::Request;
use effective_area::HeapLinks;
use explanations::Observed;
use inputs::{BuildFault, FileFault};
use reports::Report;
use std::alloc::Global;

/// Whether a topology is to be built.
fn is_build(request: &Request<'_>) -> bool
    ensures { result ≡ spec.is_build request.now }
{
    matches!(request, Request::Build { .. })
}

/// How a run ends whose output couldn't be begun or kept, once it had taken so many bytes: as where its device fails.
fn unkept(is_build: bool, sent: u64) -> Ending
    ensures { result ≡ spec.unkept is_build sent }
{
    if is_build {
        return Ending::Refused(BuildFault::Write { sent });
    }
    Ending::FileRefused(FileFault::Write { sent })
}

/// Does what is asked for, by this reducer where lines are reduced, and puts the output in the place of the file of this path. Gives the
/// report of a build or of simplifying, or why it isn't done, and leaves the file as it is then.
pub(crate) fn deliver<F: Files>(
    alloc: Global,
    reducer: &mut HeapLinks,
    observed: &mut Observed,
    request: &Request<'_>,
    path: &str,
    files: &mut F,
) -> Result<Option<Report>, Ending>
    requires { IsInRange request.now }
    ensures sent { IsSent (used (F.state files.old) (F.state files.new)) path.now request.now result }
    ensures reduced { IfOk result (λ _. CallsFor (used (F.state files.old) (F.state files.new)) request.now reducer.old.calls reducer.new.calls) }
{
    let is_build = is_build(request);
    let Some(mut output) = files.begin(path) else {
        return Err(unkept(is_build, 0));
    };
    match answer(alloc, reducer, observed, request, files, &mut output) {
        Ok(report) => {
            let sent = output.sent();
            if files.keep(output.into_inner()) {
                return Ok(report);
            }
            Err(unkept(is_build, sent))
        }
        Err(ending) => {
            files.discard(output.into_inner());
            Err(ending)
        }
    }
}

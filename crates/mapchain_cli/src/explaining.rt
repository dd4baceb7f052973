// What is said in words of how a request came out.
use crate::ending::Ending;
use crate::files::Files;
use byte_ends::ReadFault;
use command_words::{Order, Request};
use effective_area::read_threshold;
use explanations::{Observed, built};
use fault_explanations::{
    FileKind, bad_area, bad_share, layer_fault, topology_fault, unopened, unwritten_output,
    unwritten_stream,
};
use inputs::{BuildFault, FileFault};
use reports::Report;
use std::alloc::{AllocError, Global};

/// What a path was to be by which there is no file, as a line, if it shows that.
fn path_tip(path: &str, is_layer: bool) -> &'static str {
    if path == "-" {
        return "  standard input has the path /dev/stdin\n";
    }
    if !is_layer && path.contains("=") {
        return "  the path stands alone here, with no name and = before it\n";
    }
    ""
}

/// Why a file couldn't be opened or read: that of a layer, or that of a topology.
fn explain_unread<F: Files>(
    alloc: Global,
    path: &str,
    is_layer: bool,
    files: &F,
) -> Result<String, AllocError> {
    let kind = files.look(path);
    let mut text = unopened(alloc, path, kind)?;
    if kind == FileKind::Missing {
        text.push_str(path_tip(path, is_layer))?;
    }
    Ok(text)
}

/// Both texts as one, if there was memory for each of them and is for that.
fn joined(
    first: Result<String, AllocError>,
    second: Result<String, AllocError>,
) -> Result<String, AllocError> {
    let mut text = first?;
    text.push_str(second?.as_str())?;
    Ok(text)
}

/// The number of the layer that a fault is in, if it is in one.
fn layer_in(fault: &BuildFault) -> Option<usize> {
    match fault {
        BuildFault::EmptyName { layer }
        | BuildFault::DuplicateName { layer }
        | BuildFault::Read { layer, .. }
        | BuildFault::Json { layer, .. }
        | BuildFault::Geo { layer, .. } => Some(*layer),
        BuildFault::Write { .. } | BuildFault::Memory => None,
    }
}

/// Why one of these layers is refused, of which these are the bytes, or none where it couldn't be read.
fn explain_layer<F: Files>(
    alloc: Global,
    layers: &[(&str, &str)],
    exact: bool,
    refused: &[u8],
    fault: &BuildFault,
    files: &F,
) -> Result<String, AllocError> {
    let Some(layer) = layer_in(fault) else {
        return Ok(String::new(alloc));
    };
    let Some((name, path)) = layers.get(layer) else {
        return Ok(String::new(alloc));
    };
    if matches!(
        fault,
        BuildFault::Read {
            fault: ReadFault::Read,
            ..
        }
    ) {
        if path.is_empty() {
            return format!(in alloc; "  layer {layer} needs a path behind its =\n");
        }
        let unread = layer_fault(alloc, layer, name, path, exact, refused, fault);
        return joined(unread, explain_unread(alloc, path, true, files));
    }
    layer_fault(alloc, layer, name, path, exact, refused, fault)
}

/// Why the file of a topology is refused, of which these are the bytes, or none where it couldn't be read.
fn explain_file<F: Files>(
    alloc: Global,
    path: &str,
    refused: &[u8],
    fault: &FileFault,
    files: &F,
) -> Result<String, AllocError> {
    if matches!(fault, FileFault::Read(ReadFault::Read)) {
        if path.is_empty() {
            return String::from_str(alloc, "  the path of the file is empty\n");
        }
        let unread = topology_fault(alloc, path, refused, fault);
        return joined(unread, explain_unread(alloc, path, false, files));
    }
    topology_fault(alloc, path, refused, fault)
}

/// The threshold of the area that a request asks for, or zero where it asks for none.
fn threshold_in(alloc: Global, request: &Request<'_>) -> Result<u128, AllocError> {
    match request {
        Request::Build { area, .. } | Request::Simplify { area, .. } => {
            match read_threshold(alloc, area) {
                Ok(threshold) => Ok(threshold.unwrap_or(0)),
                Err(_) => Err(AllocError),
            }
        }
        Request::Geo { .. } | Request::Stat { .. } => Ok(0),
    }
}

/// What is said of a request that is done.
fn explain_done(
    alloc: Global,
    request: &Request<'_>,
    report: &Option<Report>,
    observed: &mut Observed,
) -> Result<String, AllocError> {
    let mut text = observed.take_lines(alloc)?;
    if let Some(report) = report {
        let threshold = threshold_in(alloc, request)?;
        text.insert_str(0, built(alloc, report, threshold, observed)?.as_str())?;
    }
    Ok(text)
}

/// Why words of a request are refused: an area, the area of rings, or the share.
fn explain_words(
    alloc: Global,
    request: &Request<'_>,
    ending: &Ending,
) -> Result<String, AllocError> {
    match (request, ending) {
        (Request::Build { area, .. } | Request::Simplify { area, .. }, Ending::BadArea) => {
            bad_area(alloc, "--min-area", area)
        }
        (
            Request::Build { ring_area, .. } | Request::Simplify { ring_area, .. },
            Ending::BadRingArea,
        ) => bad_area(alloc, "--min-ring-area", ring_area),
        (
            Request::Build {
                keep: Some(keep),
                ..
            }
            | Request::Simplify {
                keep: Some(keep),
                ..
            },
            Ending::BadShare,
        ) => bad_share(alloc, keep),
        _ => Ok(String::new(alloc)),
    }
}

/// Whether the output couldn't be begun, written or kept.
fn is_unwritten(ending: &Ending) -> bool {
    matches!(
        ending,
        Ending::Refused(BuildFault::Write { .. }) | Ending::FileRefused(FileFault::Write { .. })
    )
}

/// Why the output couldn't be begun, written or kept.
fn explain_unwritten<F: Files>(
    alloc: Global,
    output: Option<&str>,
    files: &F,
) -> Result<String, AllocError> {
    match output {
        Some(path) => unwritten_output(alloc, path, files.write_failure()),
        None => unwritten_stream(alloc, files.stream_failure()),
    }
}

/// Why an order isn't done, where these are the bytes that were refused, if any were.
fn explain_refused<F: Files>(
    alloc: Global,
    order: &Order<'_>,
    ending: &Ending,
    refused: &[u8],
    files: &F,
) -> Result<String, AllocError> {
    if is_unwritten(ending) {
        return explain_unwritten(alloc, order.output, files);
    }
    let request = &order.request;
    match (request, ending) {
        (Request::Build { layers, exact, .. }, Ending::Refused(fault)) => {
            explain_layer(alloc, layers.as_slice(), *exact, refused, fault, files)
        }
        (
            Request::Geo { path, .. } | Request::Simplify { path, .. } | Request::Stat { path, .. },
            Ending::FileRefused(fault),
        ) => explain_file(alloc, path, refused, fault, files),
        _ => explain_words(alloc, request, ending),
    }
}

/// What is said in words of how an order came out, in lines, each ended by a line feed: nothing for want of memory.
pub(crate) fn explanation_of<F: Files>(
    alloc: Global,
    order: &Order<'_>,
    outcome: &Result<Option<Report>, Ending>,
    observed: &mut Observed,
    files: &F,
) -> String {
    let said = match outcome {
        Ok(report) => explain_done(alloc, &order.request, report, observed),
        Err(ending) => explain_refused(alloc, order, ending, observed.refused_bytes(), files),
    };
    said.unwrap_or(String::new(alloc))
}

/// Why the report of the run isn't written to the file of this path: nothing for want of memory.
pub(crate) fn unwritten_report<F: Files>(alloc: Global, path: &str, files: &F) -> String {
    unwritten_output(alloc, path, files.write_failure()).unwrap_or(String::new(alloc))
}

// Why an output isn't written.
use std::alloc::{AllocError, Global};
use topojson_decoder::shown;

/// Why an output couldn't be begun, written or kept, as the system says.
#[derive(Clone, Copy, Debug, PartialEq, Eq)]
pub enum WriteFailure {
    /// The folder of the file isn't there, or the file is a link that leads nowhere.
    NoFolder,
    /// It is a folder.
    Folder,
    /// The system doesn't let this user write it, or write in its folder.
    NotAllowed,
    /// Its file system can only be read.
    ReadOnly,
    /// The disk is full.
    Full,
    /// The user has no more room on the disk.
    OverQuota,
    /// A file may not be that long.
    TooLarge,
    /// No file can have the name.
    BadName,
    /// The program that reads the pipe has ended.
    NoReader,
    /// All names for the new file beside it are taken.
    NamesTaken,
    /// It has taken the output of the run.
    HoldsOutput,
    /// It is an input of the run.
    HoldsInput,
    /// Too many files are open.
    TooManyOpen,
    /// It is closed, or can only be read.
    Closed,
    /// Anything else.
    Other,
}

/// What a failure is in words.
fn words(failure: Option<WriteFailure>) -> &'static str {
    match failure {
        Some(WriteFailure::NoFolder) =>
            "its folder is not there, or it is a link that leads nowhere",
        Some(WriteFailure::Folder) => "a folder, not a file",
        Some(WriteFailure::NotAllowed) => "no permission to write it, or to write in its folder",
        Some(WriteFailure::ReadOnly) => "its file system can only be read",
        Some(WriteFailure::Full) => "the disk is full",
        Some(WriteFailure::OverQuota) => "this user has no more room on the disk",
        Some(WriteFailure::TooLarge) => "no file may be that long here",
        Some(WriteFailure::BadName) => "no file can have this name",
        Some(WriteFailure::NoReader) => "the program that reads it has ended",
        Some(WriteFailure::NamesTaken) =>
            "a thousand files with the names of new ones stand beside it",
        Some(WriteFailure::HoldsOutput) => "it has taken the output of this run",
        Some(WriteFailure::HoldsInput) => "an input of this run",
        Some(WriteFailure::TooManyOpen) =>
            "too many files are open: ulimit -n says how many may be",
        Some(WriteFailure::Closed) => "closed, or open for reading alone",
        Some(WriteFailure::Other) | None => "could not be written",
    }
}

/// Why the output isn't written to the file of this path.
pub fn unwritten_output(
    alloc: Global,
    path: &str,
    failure: Option<WriteFailure>,
) -> Result<String, AllocError> {
    let path = shown(alloc, path)?;
    let words = words(failure);
    format!(in alloc; "  {path}: {words}\n")
}

/// Why the output isn't written to standard output.
pub fn unwritten_stream(
    alloc: Global,
    failure: Option<WriteFailure>,
) -> Result<String, AllocError> {
    if matches!(failure, Some(WriteFailure::Other) | None) {
        return String::from_str(alloc, "  standard output took no more\n");
    }
    let words = words(failure);
    format!(in alloc; "  standard output: {words}\n")
}

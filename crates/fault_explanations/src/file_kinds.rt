// Why a file isn't read.
use std::alloc::{AllocError, Global};
use topojson_decoder::shown;

/// What the system says of a path.
#[derive(Clone, Copy, Debug, PartialEq, Eq)]
pub enum FileKind {
    /// A file that can be opened.
    Regular,
    /// There is nothing of this name.
    Missing,
    /// A folder.
    Folder,
    /// The system doesn't let this user read it.
    NotAllowed,
    /// It couldn't be opened, as too many files are open.
    TooManyOpen,
    /// A device, a pipe, or what the system says nothing of.
    Other,
}

/// Why the file of this path isn't read.
pub fn unopened(alloc: Global, path: &str, kind: FileKind) -> Result<String, AllocError> {
    let path = shown(alloc, path)?;
    match kind {
        FileKind::Missing => format!(in alloc; "  {path}: no such file\n"),
        FileKind::Folder => format!(in alloc; "  {path}: a folder, not a file\n"),
        FileKind::NotAllowed => format!(in alloc; "  {path}: no permission to read it\n"),
        FileKind::TooManyOpen => format!(in alloc;
            "  {path}: too many files are open: ulimit -n says how many may be\n"
        ),
        FileKind::Regular => format!(in alloc; "  {path}: could not be read\n"),
        FileKind::Other => format!(in alloc; "  {path}: could not be read\n"),
    }
}

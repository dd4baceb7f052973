// What errors of the system say.
use mapchain_cli::{FileKind, WriteFailure};
use std::io;
use std::io::ErrorKind;

// The system's numbers for an error at opening where as many files are open as the process or the whole system may have.
const PROCESS_IS_FULL: i32 = 24;

const SYSTEM_IS_FULL: i32 = 23;

// Its number where a stream is closed, or may not be written.
const BAD_STREAM: i32 = 9;

// Whether a file couldn't be opened as too many are open.
pub(crate) fn is_full(error: &io::Error) -> bool {
    matches!(error.raw_os_error(), Some(PROCESS_IS_FULL | SYSTEM_IS_FULL))
}

// What an error says of an output.
pub(crate) fn failure_of(error: &io::Error) -> WriteFailure {
    if is_full(error) {
        return WriteFailure::TooManyOpen;
    }
    if error.raw_os_error() == Some(BAD_STREAM) {
        return WriteFailure::Closed;
    }
    failure_by(error.kind())
}

// What an error of this kind says of an output.
fn failure_by(kind: ErrorKind) -> WriteFailure {
    match kind {
        ErrorKind::NotFound | ErrorKind::NotADirectory => WriteFailure::NoFolder,
        ErrorKind::IsADirectory => WriteFailure::Folder,
        ErrorKind::PermissionDenied => WriteFailure::NotAllowed,
        ErrorKind::ReadOnlyFilesystem => WriteFailure::ReadOnly,
        ErrorKind::StorageFull => WriteFailure::Full,
        ErrorKind::QuotaExceeded => WriteFailure::OverQuota,
        ErrorKind::FileTooLarge => WriteFailure::TooLarge,
        ErrorKind::InvalidFilename => WriteFailure::BadName,
        ErrorKind::BrokenPipe => WriteFailure::NoReader,
        ErrorKind::AlreadyExists => WriteFailure::NamesTaken,
        _ => WriteFailure::Other,
    }
}

// What an error says of a path.
pub(crate) fn kind_by(error: &io::Error) -> FileKind {
    if is_full(error) {
        return FileKind::TooManyOpen;
    }
    match error.kind() {
        ErrorKind::NotFound => FileKind::Missing,
        ErrorKind::PermissionDenied => FileKind::NotAllowed,
        _ => FileKind::Other,
    }
}

// Which file it is, whatever its names are.
use std::fs::Metadata;
use std::os::unix::fs::MetadataExt;

/// What a file is told by from others of the system, by whichever path it is named: the device that it is on, and its number there.
#[derive(Clone, Copy, PartialEq, Eq)]
pub(crate) struct FileIdentity {
    device: u64,
    number: u64,
}

impl FileIdentity {
    /// That of the file with this metadata.
    pub(crate) fn of(file: &Metadata) -> FileIdentity {
        FileIdentity {
            device: file.dev(),
            number: file.ino(),
        }
    }
}

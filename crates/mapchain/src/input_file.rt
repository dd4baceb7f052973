// A file that is read: one of the file system, or standard input.
use std::fs::{File, Metadata};
use std::io::{Read, Stdin};
use std::os::unix::fs::FileTypeExt;
use std::{fs, io};

/// The path of standard input.
const STANDARD_INPUT: &str = "/dev/stdin";

/// A file that is read.
#[derive(Drop)]
pub(crate) enum InputFile {
    /// The file of a path.
    Opened(File),
    /// Standard input where it is a socket, which no path can open: programs as node start others with sockets for streams.
    Socket(Stdin),
}

/// Whether this is the path of standard input, and that is a socket.
fn is_socket(rt: &HostRuntime, path: &str) -> bool {
    path == STANDARD_INPUT && fs::metadata(rt, path).is_ok_and(|file| file.file_type().is_socket())
}

impl InputFile {
    /// The file of this path from its first byte on, or the socket that is standard input from where it stands.
    pub(crate) fn open(rt: &HostRuntime, path: &str) -> io::Result<InputFile> {
        if is_socket(rt, path) {
            return Ok(InputFile::Socket(rt.stdin()));
        }
        Ok(InputFile::Opened(File::open(rt, path)?))
    }

    /// What the system says of it, if it is a file of the file system.
    pub(crate) fn metadata(&self) -> io::Result<Option<Metadata>> {
        match self {
            InputFile::Opened(file) => Ok(Some(file.metadata()?)),
            InputFile::Socket(_) => Ok(None),
        }
    }
}

impl Read for InputFile {
    fn read(&mut self, buf: &mut [u8]) -> io::Result<usize> {
        match self {
            InputFile::Opened(file) => file.read(buf),
            InputFile::Socket(stream) => stream.read(buf),
        }
    }
}

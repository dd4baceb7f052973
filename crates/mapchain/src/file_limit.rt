// How long a file may become.
use std::fs::File;
use std::io::{ErrorKind, Read};
use std::{fs, io};

/// The file in which the system tells the limits of this process, one in a line.
const LIMITS: &str = "/proc/self/limits";

/// How the line of the length of a file begins. The limit follows it, after blanks: in digits, where there is one.
const FILE_LENGTH: &[u8] = b"Max file size";

/// The bytes of that file that are read: it has some fifteen hundred.
const MOST_BYTES: usize = 4_096;

/// The length that a file may have which this process writes, as `ulimit -f` says. Where a file has it the system would end the process at the
/// next write, by a signal.
#[derive(Clone, Copy)]
pub(crate) struct FileLimit {
    /// Nothing where there is none, or it isn't known.
    length: Option<u64>,
}

/// The number that stands at the front, after blanks, if one does: the greatest `u64` where it is greater than that.
fn number_at(text: &[u8]) -> Option<u64> {
    let mut number = None;
    for byte in text {
        match (byte, number) {
            (b' ', None) => {}
            (b'0'..=b'9', _) => {
                let digit = u64::from(*byte - b'0');
                number = Some(
                    number
                        .unwrap_or(0u64)
                        .saturating_mul(10)
                        .saturating_add(digit),
                );
            }
            _ => return number,
        }
    }
    number
}

/// The limit in the text of the system's file.
fn length_in(limits: &[u8]) -> Option<u64> {
    for line in limits.split(|byte| *byte == b'\n') {
        if let Some(limit) = line.strip_prefix(FILE_LENGTH) {
            return number_at(limit);
        }
    }
    None
}

impl FileLimit {
    /// The limit of this process.
    pub(crate) fn of_process(rt: &HostRuntime) -> FileLimit {
        let mut text = [0u8; MOST_BYTES];
        let read = match File::open(rt, LIMITS) {
            Ok(mut file) => file.read(&mut text).unwrap_or(0),
            Err(_) => 0,
        };
        FileLimit {
            length: length_in(&text[..read]),
        }
    }

    /// Refuses a write to the file of this path that the system would end the process for. One that would pass the limit is cut there by the system.
    pub(crate) fn check(self, rt: &HostRuntime, path: &str) -> io::Result<()> {
        let Some(length) = self.length else {
            return Ok(());
        };
        match fs::metadata(rt, path) {
            Ok(file) if file.is_file() && file.len() >= length => {
                Err(io::Error::from(ErrorKind::FileTooLarge))
            }
            _ => Ok(()),
        }
    }
}

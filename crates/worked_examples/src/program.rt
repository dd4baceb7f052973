// What runs the commands of pages.
ghost use Rattle.std.specs.Prelude.{◌≡◌, ◌<◌, [], Some};

use crate::devices::Devices;
use crate::lent_files::{LentFiles, Written};
use byte_ends::devices::{CutWriter, Fault};
use byte_ends::{Sink, ToWrite};
use std::alloc::{AllocError, Global};

/// The streams that a run writes to, in memory.
#[derive(Drop)]
pub struct Streams {
    pub output: Sink<ToWrite<CutWriter>>,
    pub error: Sink<ToWrite<CutWriter>>,
}

/// A stream that takes so many bytes a call at most.
pub(crate) fn stream(alloc: Global, step: usize, fault: Fault) -> Sink<ToWrite<CutWriter>>
    requires { 0 < step }
    ensures empty { result.taken ≡ Some [] }
    ensures unsent { result.sent ≡ 0 }
    ensures sound { result.failures ≡ 0 }
{
    Sink::new(ToWrite::new(CutWriter::new(Vec::new(alloc), step, fault)))
}

/// All that a stream took.
fn taken(alloc: Global, stream: Sink<ToWrite<CutWriter>>) -> Result<Vec<u8>, AllocError> {
    Vec::from_slice(alloc, stream.into_inner().into_inner().held())
}

impl Streams {
    /// The streams of a run on these devices.
    pub(crate) fn on(alloc: Global, devices: Devices) -> Streams {
        let step = devices.step();
        Streams {
            output: stream(alloc, step, devices.output),
            error: stream(alloc, step, devices.error_fault()),
        }
    }

    /// What a run that ended so wrote.
    pub(crate) fn into_ran(self, alloc: Global, ended: Ended<'_>) -> Result<Ran, AllocError> {
        let Streams { output, error } = self;
        Ok(Ran {
            status: ended.status,
            output: taken(alloc, output)?,
            error: taken(alloc, error)?,
            written: ended.files.into_written()?,
        })
    }
}

/// How a run ended: its exit status, and the files that it was lent.
#[derive(Drop)]
pub struct Ended<'a> {
    pub status: u8,
    pub files: LentFiles<'a>,
}

/// A program that is run by words over files and streams.
pub trait Program {
    /// Runs it on the words after its name.
    fn run<'a>(
        &self,
        alloc: Global,
        words: Vec<String>,
        files: LentFiles<'a>,
        streams: &mut Streams,
    ) -> Ended<'a>;
}

/// What a run answered and wrote.
#[derive(Drop)]
pub(crate) struct Ran {
    pub(crate) status: u8,
    pub(crate) output: Vec<u8>,
    pub(crate) error: Vec<u8>,
    pub(crate) written: Written,
}

impl Ran {
    /// The file that took the place of standard output, or else what standard output took.
    pub(crate) fn main_output(&self) -> &[u8] {
        match &self.written.file {
            Some(file) => file.bytes.as_slice(),
            None => self.output.as_slice(),
        }
    }
}

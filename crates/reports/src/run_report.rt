// What is said of a run.
use crate::report::Report;
use inputs::{BuildFault, FileFault};

/// Why a run didn't do what was asked for.
#[derive(Clone, Copy)]
pub enum RunFault<'a> {
    /// Something that has no code, in these words: as "bad area".
    Words(&'a str),
    /// No topology was built of the layers.
    Build(&'a BuildFault),
    /// The topology of a file wasn't used.
    File(&'a FileFault),
    /// An allocation was refused before any input was read.
    Memory,
}

/// What is said of a run.
#[derive(Clone, Copy)]
pub struct RunReport<'a> {
    /// The exit status.
    pub status: u8,
    /// Why the run didn't do what was asked for, if it didn't.
    pub fault: Option<RunFault<'a>>,
    /// What was counted, where a topology was built or simplified.
    pub report: Option<&'a Report>,
    /// Lines that explain the run, each with a line feed at its end, and with two blanks in front if it is indented. The empty text is no
    /// line.
    pub explanation: &'a str,
}

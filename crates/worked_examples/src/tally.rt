// The outcomes of the runs of a page.
use crate::example::Example;
use crate::lent_files::Written;
use crate::program::Ran;
use std::alloc::{AllocError, Global};

/// The outcomes of the runs of a page.
#[derive(Drop)]
pub struct Tally {
    runs: u64,
    differences: Vec<String>,
}

impl Tally {
    pub(crate) fn new(alloc: Global) -> Tally {
        Tally {
            runs: 0,
            differences: Vec::new(alloc),
        }
    }

    /// How many runs were judged.
    pub fn runs(&self) -> u64 {
        self.runs
    }

    /// A line for each run that went otherwise, and for what of the page cannot be tried.
    pub fn differences(&self) -> &[String] {
        self.differences.as_slice()
    }

    /// Adds a line.
    pub(crate) fn print(&mut self, line: String) -> Result<(), AllocError> {
        self.differences.push(line)?;
        Ok(())
    }

    /// Judges a run of a command by what was to be written to standard output, or to the file that takes its place.
    pub(crate) fn judge(
        &mut self,
        alloc: Global,
        example: &Example<'_>,
        ran: &Ran,
        output: &[u8],
        error: &[u8],
    ) -> Result<(), AllocError> {
        self.runs = self.runs.saturating_add(1);
        if ran.status == example.status
            && is_written(example, ran, output)
            && ran.error.as_slice() == error
        {
            return Ok(());
        }
        let words = example.words;
        let status = ran.status;
        let shown_output = shown(&ran.output);
        let shown_error = shown(&ran.error);
        let shown_file = shown_file(alloc, &ran.written)?;
        self.print(format!(in alloc;
            "mapchain{words}\nstatus {status}\n{shown_output}\n{shown_error}\n{shown_file}"
        )?)
    }
}

/// Whether this output went where it was to go: to standard output, or to a file in its place. No file is left where the status isn't 0.
fn is_written(example: &Example<'_>, ran: &Ran, output: &[u8]) -> bool {
    let (streamed, file) = match example.file {
        None => (output, None),
        Some(name) if example.status == 0 => (&output[..0], Some(name)),
        Some(_) => (&output[..0], None),
    };
    ran.output.as_slice() == streamed
        && ran.written.begun == example.begun()
        && ran.written.leaves(file, output)
}

/// The file that a run has written, as text.
fn shown_file(alloc: Global, written: &Written) -> Result<String, AllocError> {
    let begun = written.begun;
    let discarded = written.discarded;
    match &written.file {
        Some(file) => {
            let name = file.name.as_str();
            let bytes = shown(&file.bytes);
            format!(in alloc; "file {name}, begun {begun}, discarded {discarded}\n{bytes}")
        }
        None => format!(in alloc; "no file, begun {begun}, discarded {discarded}"),
    }
}

/// Bytes as text.
fn shown(bytes: &Vec<u8>) -> &str {
    str::from_utf8(bytes.as_slice()).unwrap_or("(not UTF-8)")
}

//! The program `mapchain` over the file system and the standard streams. `mapchain_cli` has all that it does.
#![tactic(auto)]

mod file_identity;
mod file_limit;
mod input_file;
mod new_file;
mod part_file;
mod system;
mod system_errors;

use byte_ends::{Sink, ToWrite};
use file_limit::FileLimit;
use mapchain_cli::{WriteFailure, command, with_explain};
use part_file::{Destination, PartFile};
use std::alloc::AllocError;
use std::cell::Cell;
use std::env::VarError;
use std::io::{BufWriter, ErrorKind};
use std::process::ExitCode;
use std::{env, io};
use system::System;

/// The bytes that an output holds back, so that small parts go out together.
const OUT_BUFFER: usize = 65_536;

/// The bytes that standard error holds back: a report lists each line that is dropped.
const ERROR_BUFFER: usize = 8_192;

/// The words after the program's name, with `--explain` where the environment asks for it by the value 1.
fn words(rt: &HostRuntime) -> io::Result<Vec<String>> {
    let words = env::args(rt)?.skip(1).collect(rt.alloc())?;
    match env::var(rt, "MAPCHAIN_EXPLAIN") {
        Ok(value) if value.as_str() == "1" => Ok(with_explain(rt.alloc(), words)?),
        Err(VarError::OutOfMemory) => Err(io::Error::from(AllocError)),
        _ => Ok(words),
    }
}

/// The status where the words can't be had: 2 where one is not UTF-8, and 3 for want of memory.
fn refuse(rt: &HostRuntime, error: &io::Error) -> ExitCode {
    if error.kind() == ErrorKind::InvalidData {
        let _ = eprintln!(rt; "error: a word is not UTF-8");
        return ExitCode::from(2);
    }
    ExitCode::from(3)
}

/// A standard stream with a buffer of this size before it.
fn buffered<'a>(
    rt: &HostRuntime,
    size: usize,
    stream: Destination,
    limit: FileLimit,
    failure: &'a Cell<Option<WriteFailure>>,
) -> io::Result<BufWriter<PartFile<'a>>> {
    let stream = PartFile::to(rt, stream, limit, failure)?;
    BufWriter::with_capacity(rt.alloc(), size, stream)
}

fn main(rt: HostRuntime) -> ExitCode {
    let words = match words(&rt) {
        Ok(words) => words,
        Err(error) => return refuse(&rt, &error),
    };
    let alloc = rt.alloc();
    // Why each of them couldn't be written last, if it couldn't.
    let stream_failure = Cell::new(None);
    let error_failure = Cell::new(None);
    let file_failure = Cell::new(None);
    let limit = FileLimit::of_process(&rt);
    let output = Destination::Output(rt.stdout());
    let error = Destination::Error(rt.stderr());
    let stdout = buffered(&rt, OUT_BUFFER, output, limit, &stream_failure);
    let stderr = buffered(&rt, ERROR_BUFFER, error, limit, &error_failure);
    let (Ok(stdout), Ok(stderr)) = (stdout, stderr) else {
        return ExitCode::from(3);
    };
    // (each input is a word)
    let Ok(mut files) = System::new(rt, words.len(), limit, &stream_failure, &file_failure) else {
        return ExitCode::from(3);
    };
    let mut out = Sink::new(ToWrite::new(stdout));
    let mut err = Sink::new(ToWrite::new(stderr));
    ExitCode::from(command(alloc, words, &mut files, &mut out, &mut err))
}

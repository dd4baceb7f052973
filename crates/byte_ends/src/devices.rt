//! Readers and writers over memory for tests: they give or take a few bytes a call, and fail where a test wants it.
ghost use Rattle.std.specs.Prelude.{◌≡◌, ◌<◌, ◌≤◌, List, ℕ, Some, length};

use std::io;
use std::io::{ErrorKind, Read, Write};
use std::marker::Model;

/// Where a device fails. Calls are counted from zero, reads or writes alone.
#[derive(Clone, Copy, Debug, PartialEq, Eq)]
pub enum Fault {
    /// It doesn't fail.
    Never,
    /// The call of this number fails.
    AtCall(u64),
    /// Each call fails once this many bytes were given or taken. No call goes past them.
    AtByte(usize),
    /// Each flush fails. A reader has none.
    AtFlush,
    /// The call of this number takes nothing and answers so, with no error. A reader doesn't do that: it would say
    /// that its bytes are at their end.
    NothingAtCall(u64),
    /// The call of this number is interrupted, as by a signal: tried again it succeeds.
    InterruptedAtCall(u64),
    /// The first flush is interrupted. A reader has none.
    InterruptedAtFlush,
}

// The error of this call, if it is to fail, when so many bytes went through before it.
fn fault_at(fault: Fault, call: u64, done: usize) -> Option<ErrorKind> {
    match fault {
        Fault::AtCall(number) if number == call => Some(ErrorKind::Other),
        Fault::AtByte(most) if most <= done => Some(ErrorKind::Other),
        Fault::InterruptedAtCall(number) if number == call => Some(ErrorKind::Interrupted),
        _ => None,
    }
}

// How many bytes this call gives or takes at most: `step`, but none past the byte of the fault.
fn room_at(fault: Fault, step: usize, done: usize) -> usize
    requires { 0 < step }
    ensures { 0 < result }
{
    match fault {
        Fault::AtByte(most) if done < most => step.min(most - done),
        _ => step,
    }
}

/// A reader that gives a slice, at most `step` bytes a call.
#[derive(Drop)]
pub struct CutReader<'a> {
    rest: &'a [u8],
    step: usize,
    calls: u64,
    given: usize,
    fault: Fault,
}

impl<'a> Model for CutReader<'a> {
    ghost Value = { List ℕ };

    ghost view = { λ r. r.rest.now };

    ghost invariant = { λ r. 0 < r.step };
}

impl<'a> CutReader<'a> {
    /// A reader that has these bytes left.
    pub fn new(bytes: &'a [u8], step: usize, fault: Fault) -> CutReader<'a>
        requires { 0 < step }
        ensures { result ≡ bytes.now }
    {
        CutReader {
            rest: bytes,
            step,
            calls: 0,
            given: 0,
            fault,
        }
    }
}

impl Read for CutReader<'_> {
    ghost remaining = { λ r. Some r };

    fn read(&mut self, buf: &mut [u8]) -> io::Result<usize> {
        let call = self.calls;
        self.calls = call.saturating_add(1);
        if let Some(kind) = fault_at(self.fault, call, self.given) {
            return Err(io::Error::from(kind));
        }
        let room = room_at(self.fault, self.step, self.given).min(buf.len());
        let mut rest = self.rest;
        let n = rest.read(&mut buf[..room])?;
        self.rest = rest;
        self.given = self.given.saturating_add(n);
        Ok(n)
    }
}

/// A writer into a vector, at most `step` bytes a call. Where the vector needs more room and gets none, that is an
/// error of the writer.
#[derive(Drop)]
pub struct CutWriter {
    held: Vec<u8>,
    step: usize,
    calls: u64,
    was_flushed: bool,
    fault: Fault,
}

impl Model for CutWriter {
    ghost Value = { List ℕ };

    ghost view = { λ w. w.held.items };

    ghost invariant = { λ w. 0 < w.step };
}

impl CutWriter {
    /// A writer that goes on after these bytes, which count as taken.
    pub fn new(held: Vec<u8>, step: usize, fault: Fault) -> CutWriter
        requires { 0 < step }
        ensures { result ≡ held.items }
    {
        CutWriter {
            held,
            step,
            calls: 0,
            was_flushed: false,
            fault,
        }
    }

    /// The bytes that it took, after those that it was made with.
    pub fn held(&self) -> &[u8]
        ensures { result.now ≡ self.now }
    {
        self.held.as_slice()
    }
}

impl Write for CutWriter {
    ghost contents = { λ w. Some w };

    fn write(&mut self, buf: &[u8]) -> io::Result<usize> {
        let call = self.calls;
        self.calls = call.saturating_add(1);
        if let Some(kind) = fault_at(self.fault, call, self.held.len()) {
            return Err(io::Error::from(kind));
        }
        if self.fault == Fault::NothingAtCall(call) {
            return Ok(0);
        }
        let room = room_at(self.fault, self.step, self.held.len()).min(buf.len());
        self.held.extend_from_slice(&buf[..room])?;
        Ok(room)
    }

    fn flush(&mut self) -> io::Result<()> {
        let is_first = !self.was_flushed;
        self.was_flushed = true;
        match self.fault {
            Fault::AtFlush => Err(io::Error::from(ErrorKind::Other)),
            Fault::InterruptedAtFlush if is_first => Err(io::Error::from(ErrorKind::Interrupted)),
            _ => Ok(()),
        }
    }
}

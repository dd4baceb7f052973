// Where bytes come from.
ghost use Rattle.std.specs.Prelude.{◌≡◌, ◌<◌, ◌≤◌, ℕ, List, Option, None, IfSome, length, true};
ghost use Rattle.std.specs.Io.{ReadsAtMost};
ghost use Rattle.std.specs.Io.KnownBytes.{ReadConsumes};
ghost use Rattle.byte_ends.specs.Ends.{CountsEmpty, CountsFailure, CountsGiving};

use std::io::{ErrorKind, Read};
use std::marker::Model;
use thiserror::Error;

/// A call of a device failed. The device counts it.
#[derive(Clone, Copy, Debug, PartialEq, Eq, Error)]
#[error("the device failed")]
pub struct Failed;

/// A device that gives bytes, and counts its reads: those that failed, those that gave bytes, and those that gave none.
pub trait Feed {
    // The bytes that reads will give from here on, where they are known.
    ghost left: { Self → Option (List ℕ) } = { λ _. None };

    // How many reads failed, up to `u64::MAX`.
    ghost failures: { Self → ℕ };

    // How many reads gave bytes, up to `u64::MAX`.
    ghost giving_reads: { Self → ℕ };

    // How many reads gave none without a failure, at the end or for want of room, up to `u64::MAX`.
    ghost empty_reads: { Self → ℕ };

    /// Fills the front of `buf` and answers how many bytes it is: none only at the end, or where `buf` has no room.
    /// A failed read consumes nothing.
    fn read(&mut self, buf: &mut [u8]) -> Result<usize, Failed>
        ensures bound { ReadsAtMost result buf.new }
        ensures bytes { ReadConsumes (left self.old) (left self.new) result buf.new }
        ensures failures { CountsFailure (failures self.old) result (failures self.new) }
        ensures giving { CountsGiving (giving_reads self.old) result (giving_reads self.new) }
        ensures empty { CountsEmpty (empty_reads self.old) result (empty_reads self.new) };

    /// Whether it is known, without a read, that more bytes are left than that.
    fn has_more_than(&self, limit: usize) -> bool
        ensures { result ≡ true → IfSome (left self.now) (λ bytes. limit < length bytes) };

    /// How many reads failed: a count that stays at `u64::MAX` once it is there.
    fn failures(&self) -> u64
        ensures { result ≡ failures self.now };
}

/// A reader of std as a feed: an error of the reader is a failure, but for an interrupted read, which is tried again.
/// A read and all that was tried for it count as one.
#[derive(Drop)]
pub struct FromRead<R: Read> {
    inner: R,
    /// How many bytes it is known to have left at least: nothing is known once it was read.
    least: u64,
    failures: u64,
    giving_reads: u64,
    empty_reads: u64,
}

impl<R: Read> Model for FromRead<R> {
    ghost use Rattle.std.specs.Prelude.{◌≤◌, IfSome, length};
    ghost use Rattle.byte_ends.specs.Ends.{Fed};

    ghost Value = { Fed };

    ghost view = { λ s. record {
      left = R.remaining s.inner;
      failures = s.failures;
      giving_reads = s.giving_reads;
      empty_reads = s.empty_reads;
    } };

    ghost invariant = { λ s. IfSome (R.remaining s.inner) (λ bytes. s.least ≤ length bytes) };
}

impl<R: Read> FromRead<R> {
    /// A feed over this reader, with no reads yet.
    pub fn new(inner: R) -> FromRead<R>
        ensures left { result.left ≡ R.remaining inner }
        ensures failures { result.failures ≡ 0 }
        ensures giving { result.giving_reads ≡ 0 }
        ensures empty { result.empty_reads ≡ 0 }
    {
        FromRead::with_least(inner, 0)
    }

    /// The same of a reader that has so many bytes left, or more.
    pub fn with_least(inner: R, least: u64) -> FromRead<R>
        requires { IfSome (R.remaining inner) (λ bytes. least ≤ length bytes) }
        ensures left { result.left ≡ R.remaining inner }
        ensures failures { result.failures ≡ 0 }
        ensures giving { result.giving_reads ≡ 0 }
        ensures empty { result.empty_reads ≡ 0 }
    {
        FromRead {
            inner,
            least,
            failures: 0,
            giving_reads: 0,
            empty_reads: 0,
        }
    }
}

impl<R: Read> Feed for FromRead<R> {
    ghost left = { λ s. s.left };

    ghost failures = { λ s. s.failures };

    ghost giving_reads = { λ s. s.giving_reads };

    ghost empty_reads = { λ s. s.empty_reads };

    fn read(&mut self, buf: &mut [u8]) -> Result<usize, Failed> {
        self.least = 0;
        let given = read_uninterrupted(&mut self.inner, buf);
        match given {
            Ok(0) => self.empty_reads = self.empty_reads.saturating_add(1),
            Ok(_) => self.giving_reads = self.giving_reads.saturating_add(1),
            Err(Failed) => self.failures = self.failures.saturating_add(1),
        }
        given
    }

    fn has_more_than(&self, limit: usize) -> bool {
        self.least > limit as u64
    }

    fn failures(&self) -> u64 {
        self.failures
    }
}

// One read, tried again where a signal interrupts it: up to 2^64 - 1 times, so that the call returns.
fn read_uninterrupted<R: Read>(reader: &mut R, buf: &mut [u8]) -> Result<usize, Failed>
    ensures bound { ReadsAtMost result buf.new }
    ensures bytes { ReadConsumes (R.remaining reader.old) (R.remaining reader.new) result buf.new }
{
    for _ in 0..u64::MAX {
        match reader.read(buf) {
            Ok(n) => return Ok(n),
            Err(error) if error.kind() == ErrorKind::Interrupted => {}
            Err(_) => return Err(Failed),
        }
    }
    Err(Failed)
}

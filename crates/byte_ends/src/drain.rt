// Where bytes go.
ghost use Rattle.std.specs.Prelude.{◌≡◌, ◌<◌, ℕ, Bool, List, Option, None, IfOk, false, length};
ghost use Rattle.std.specs.Io.{WritesAtMost};
ghost use Rattle.std.specs.Io.KnownBytes.{WriteAppends, Keeps};
ghost use Rattle.byte_ends.specs.Ends.{CountsFailure, HoldsBack, MakesLate, PassesOn, not_called};

use crate::calls::Calls;
use crate::feed::Failed;
use std::io::{ErrorKind, Write};
use std::marker::Model;

/// A device that takes bytes, and counts its failures.
pub trait Drain {
    // The bytes that the device took, where they are known.
    ghost taken: { Self → Option (List ℕ) } = { λ _. None };

    // How many writes and flushes failed, up to `u64::MAX`.
    ghost failures: { Self → ℕ };

    // Whether all that the device took is passed on: it was flushed, and took nothing since.
    ghost flushed: { Self → Bool };

    // Whether the device was called again once a call of it had failed.
    ghost late: { Self → Bool };

    /// Takes the front of `buf` and answers how many bytes it is: at least one, unless `buf` is empty.
    /// A failed write takes nothing.
    fn write(&mut self, buf: &[u8]) -> Result<usize, Failed>
        ensures bound { WritesAtMost result buf.now }
        ensures some { IfOk result (λ n. 0 < length buf.now → 0 < n) }
        ensures bytes { WriteAppends (taken self.old) (taken self.new) result buf.now }
        ensures failures { CountsFailure (failures self.old) result (failures self.new) }
        ensures flushed { HoldsBack (flushed self.old) result (flushed self.new) }
        ensures late { MakesLate (late self.old) (failures self.old) (late self.new) };

    /// Passes on what the device holds back. What it took stays as it was.
    fn flush(&mut self) -> Result<(), Failed>
        ensures bytes { Keeps (taken self.old) (taken self.new) }
        ensures failures { CountsFailure (failures self.old) result (failures self.new) }
        ensures flushed { PassesOn (flushed self.old) result (flushed self.new) }
        ensures late { MakesLate (late self.old) (failures self.old) (late self.new) };

    /// How many writes and flushes failed: a count that stays at `u64::MAX` once it is there.
    fn failures(&self) -> u64
        ensures failures { result ≡ failures self.now }
        // A device of which no call failed wasn't called after a failure.
        ensures in_time { failures self.now ≡ 0 → late self.now ≡ false };
}

/// A writer of std as a drain: an error of the writer is a failure, but for an interrupted call, which is tried again.
/// A writer that takes nothing of some bytes has failed too.
#[derive(Drop)]
pub struct ToWrite<W: Write> {
    inner: W,
    calls: Calls,
}

impl<W: Write> Model for ToWrite<W> {
    ghost use Rattle.byte_ends.specs.Ends.{Written};

    ghost Value = { Written };

    ghost view = { λ s. record { taken = W.contents s.inner; calls = s.calls } };
}

impl<W: Write> ToWrite<W> {
    /// A drain over this writer, with no calls yet: what the writer took before may be held back.
    pub fn new(inner: W) -> ToWrite<W>
        ensures taken { result.taken ≡ W.contents inner }
        ensures calls { result.calls ≡ not_called }
    {
        ToWrite {
            inner,
            calls: Calls::none(),
        }
    }

    /// The writer, with all that it took.
    pub fn into_inner(self) -> W
        ensures { W.contents result ≡ self.taken }
    {
        self.inner
    }
}

impl<W: Write> Drain for ToWrite<W> {
    ghost taken = { λ s. s.taken };

    ghost failures = { λ s. s.calls.failures };

    ghost flushed = { λ s. s.calls.flushed };

    ghost late = { λ s. s.calls.late };

    fn write(&mut self, buf: &[u8]) -> Result<usize, Failed> {
        let taken = write_uninterrupted(&mut self.inner, buf);
        self.calls.count_write(taken);
        taken
    }

    fn flush(&mut self) -> Result<(), Failed> {
        let flushed = flush_uninterrupted(&mut self.inner);
        self.calls.count_flush(flushed);
        flushed
    }

    fn failures(&self) -> u64 {
        self.calls.failures()
    }
}

// One write, tried again where a signal interrupts it: up to 2^64 - 1 times, so that the call returns.
fn write_uninterrupted<W: Write>(writer: &mut W, buf: &[u8]) -> Result<usize, Failed>
    ensures bound { WritesAtMost result buf.now }
    ensures some { IfOk result (λ n. 0 < length buf.now → 0 < n) }
    ensures bytes { WriteAppends (W.contents writer.old) (W.contents writer.new) result buf.now }
{
    for _ in 0..u64::MAX {
        match writer.write(buf) {
            Ok(n) if n > 0 || buf.is_empty() => return Ok(n),
            Err(error) if error.kind() == ErrorKind::Interrupted => {}
            Ok(_) | Err(_) => return Err(Failed),
        }
    }
    Err(Failed)
}

// One flush, tried again where a signal interrupts it: up to 2^64 - 1 times, so that the call returns.
fn flush_uninterrupted<W: Write>(writer: &mut W) -> Result<(), Failed>
    ensures { Keeps (W.contents writer.old) (W.contents writer.new) }
{
    for _ in 0..u64::MAX {
        match writer.flush() {
            Ok(()) => return Ok(()),
            Err(error) if error.kind() == ErrorKind::Interrupted => {}
            Err(_) => return Err(Failed),
        }
    }
    Err(Failed)
}

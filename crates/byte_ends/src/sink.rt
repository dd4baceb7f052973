// A sink for bytes.
ghost use Rattle.std.specs.Prelude.{◌≡◌, ◌<◌, ◌≤◌, ℕ, OnOk, OnErr, false, length, true};
ghost use Rattle.std.specs.Io.KnownBytes.{Keeps};
ghost use Rattle.byte_ends.specs.Ends.{Takes};
ghost use Rattle.byte_ends.specs.Writes.{Writes};

use crate::drain::Drain;
use crate::feed::Failed;
use std::marker::Model;
use thiserror::Error;

/// The device of a sink has failed, in this call or earlier.
#[derive(Clone, Copy, Debug, PartialEq, Eq, Error)]
#[error("the sink is broken")]
pub struct Broken;

/// Why a text was not written whole. A writer takes no memory, since it writes in parts, so that its device alone can fail.
#[derive(Clone, Copy, Debug, PartialEq, Eq, Error)]
pub enum WriteFault {
    /// The device failed, once it had taken this many bytes of the text.
    #[error("the sink is broken after {sent} bytes")]
    Write { sent: u64 },
}

/// Bytes to be written, to a device that had not failed when the sink was made. Once the device has failed the sink is
/// broken: it answers faults alone, and the device gets no further call, which is an invariant of the type.
#[derive(Drop)]
pub struct Sink<W: Drain> {
    drain: W,
    sent: u64,
}

impl<W: Drain> Model for Sink<W> {
    ghost use Rattle.std.specs.Prelude.{◌≡◌, ◌<◌, ◌^◌, false};
    ghost use Rattle.byte_ends.specs.Ends.{Drained};

    ghost Value = { Drained };

    ghost view = { λ s. record { taken = W.taken s.drain; sent = s.sent; failures = W.failures s.drain; flushed = W.flushed s.drain } };

    // The device was never called after a failure.
    ghost invariant = { λ s. record { small : s.sent < 2 ^ 64; late : W.late s.drain ≡ false } };
}

impl<W: Drain> Sink<W> {
    /// A sink over a device that has not failed.
    pub fn new(drain: W) -> Sink<W>
        requires { W.failures drain ≡ 0 }
        ensures taken { result.taken ≡ W.taken drain }
        ensures sent { result.sent ≡ 0 }
        ensures failures { result.failures ≡ 0 }
        ensures flushed { result.flushed ≡ W.flushed drain }
    {
        // None failed, so no call came after a failure.
        let _failures = drain.failures();
        Sink { drain, sent: 0 }
    }

    /// The device, with all that it took and its failures.
    pub fn into_inner(self) -> W
        ensures taken { W.taken result ≡ self.taken }
        ensures failures { W.failures result ≡ self.failures }
        ensures flushed { W.flushed result ≡ self.flushed }
        // It was never called after a failure.
        ensures late { W.late result ≡ false }
    {
        self.drain
    }

    /// How many bytes the device took through this sink: a count that stays at `u64::MAX` once it is there.
    pub fn sent(&self) -> u64
        ensures { result ≡ self.now.sent }
    {
        self.sent
    }

    /// How many calls of the device failed. The sink is broken where this isn't zero.
    pub fn failures(&self) -> u64
        ensures { result ≡ self.now.failures }
    {
        self.drain.failures()
    }

    /// Flushes the device. A sink that is broken already is left as it is.
    pub fn finish(&mut self) -> Result<(), Broken>
        ensures taken { Keeps self.old.taken self.new.taken }
        ensures sent { self.new.sent ≡ self.old.sent }
        ensures ok { OnOk result (self.new.failures ≡ 0) }
        ensures flushed { OnOk result (self.new.flushed ≡ true) }
        ensures err { OnErr result (0 < self.new.failures) }
        ensures broken { 0 < self.old.failures → self.new ≡ self.old }
    {
        if self.drain.failures() > 0 {
            return Err(Broken);
        }
        match self.drain.flush() {
            Ok(()) => Ok(()),
            Err(Failed) => Err(Broken),
        }
    }

    /// Writes all of the bytes, or those up to the device's failure, and counts on from `count`: a writer of a longer
    /// text passes each answer to its next `put`, so that the last answer, or the fault's `sent`, counts its whole text.
    pub fn put(&mut self, count: u64, bytes: &[u8]) -> Result<u64, WriteFault>
        ensures wrote { Writes self.old self.new count bytes.now result }
        ensures broken { 0 < self.old.failures → self.new ≡ self.old }
    {
        let mut count = count;
        if self.drain.failures() > 0 {
            return Err(WriteFault::Write { sent: count });
        }
        let mut at = 0;
        while at < bytes.len() {
            match self.drain.write(&bytes[at..]) {
                Ok(n) => {
                    self.sent = self.sent.saturating_add(n as u64);
                    count = count.saturating_add(n as u64);
                    at += n;
                }
                Err(Failed) => return Err(WriteFault::Write { sent: count }),
            }
        }
        Ok(count)
    }

    /// Writes all of the bytes, or those up to the device's failure.
    pub fn push(&mut self, bytes: &[u8]) -> Result<(), Broken>
        ensures all { OnOk result (Takes self.old self.new bytes.now (length bytes.now)) }
        ensures prefix { (n : ℕ) × Takes self.old self.new bytes.now n }
        ensures ok { OnOk result (self.new.failures ≡ 0) }
        ensures err { OnErr result (0 < self.new.failures) }
        ensures broken { 0 < self.old.failures → self.new ≡ self.old }
    {
        match self.put(0, bytes) {
            Ok(_) => Ok(()),
            Err(_) => Err(Broken),
        }
    }
}

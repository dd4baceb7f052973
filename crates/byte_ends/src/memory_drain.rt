// A drain that keeps its bytes in memory.
ghost use Rattle.std.specs.Prelude.{◌≡◌, ◌<◌, ℕ, List, [], Option, Some, IfOk, IsOk, length};
ghost use Rattle.std.specs.Io.{WritesAtMost};
ghost use Rattle.std.specs.Io.KnownBytes.{WriteAppends, Keeps};
ghost use Rattle.byte_ends.specs.Ends.{CountsFailure, HoldsBack, MakesLate, PassesOn, not_called};

use crate::calls::Calls;
use crate::drain::Drain;
use crate::feed::Failed;
use std::alloc::Global;
use std::marker::Model;

/// A drain that holds all its bytes in memory, as a text that is to be sent on only once it is whole.
/// Its one failure is an allocation that is refused.
#[derive(Drop)]
pub struct MemoryDrain {
    bytes: Vec<u8>,
    calls: Calls,
}

impl Model for MemoryDrain {
    ghost use Rattle.byte_ends.specs.Ends.{Held};

    ghost Value = { Held };

    ghost view = { λ s. record { bytes = s.bytes.items; calls = s.calls } };
}

impl MemoryDrain {
    /// A drain that holds nothing. This allocates nothing.
    pub fn new(alloc: Global) -> MemoryDrain
        ensures bytes { result.bytes ≡ [] }
        ensures calls { result.calls ≡ not_called }
    {
        MemoryDrain {
            bytes: Vec::new(alloc),
            calls: Calls::none(),
        }
    }

    /// The bytes that it took.
    pub fn as_slice(&self) -> &[u8]
        ensures { result.now ≡ self.now.bytes }
    {
        self.bytes.as_slice()
    }

    /// The bytes that it took.
    pub fn into_inner(self) -> Vec<u8>
        ensures { result.items ≡ self.bytes }
    {
        self.bytes
    }
}

impl Drain for MemoryDrain {
    ghost taken = { λ s. Some s.bytes };

    ghost failures = { λ s. s.calls.failures };

    ghost flushed = { λ s. s.calls.flushed };

    ghost late = { λ s. s.calls.late };

    /// Takes the whole slice, or nothing where an allocation is refused.
    fn write(&mut self, buf: &[u8]) -> Result<usize, Failed>
        ensures bound { WritesAtMost result buf.now }
        ensures some { IfOk result (λ n. 0 < length buf.now → 0 < n) }
        ensures bytes { WriteAppends (Some self.old.bytes) (Some self.new.bytes) result buf.now }
        ensures failures { CountsFailure self.old.calls.failures result self.new.calls.failures }
        ensures flushed { HoldsBack self.old.calls.flushed result self.new.calls.flushed }
        ensures late { MakesLate self.old.calls.late self.old.calls.failures self.new.calls.late }
        ensures whole { IfOk result (λ n. n ≡ length buf.now) }
    {
        let taken = match self.bytes.extend_from_slice(buf) {
            Ok(()) => Ok(buf.len()),
            Err(_) => Err(Failed),
        };
        self.calls.count_write(taken);
        taken
    }

    /// Always done: there is nowhere to pass the bytes on to.
    fn flush(&mut self) -> Result<(), Failed>
        ensures bytes { Keeps (Some self.old.bytes) (Some self.new.bytes) }
        ensures failures { CountsFailure self.old.calls.failures result self.new.calls.failures }
        ensures flushed { PassesOn self.old.calls.flushed result self.new.calls.flushed }
        ensures late { MakesLate self.old.calls.late self.old.calls.failures self.new.calls.late }
        ensures ok { IsOk result }
    {
        self.calls.count_flush(Ok(()));
        Ok(())
    }

    fn failures(&self) -> u64 {
        self.calls.failures()
    }
}

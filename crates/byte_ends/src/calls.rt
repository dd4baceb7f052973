// What a device that takes bytes knows of its calls.
ghost use Rattle.std.specs.Prelude.{◌≡◌, ℕ, false};
ghost use Rattle.byte_ends.specs.Ends.{CountsFailure, HoldsBack, MakesLate, PassesOn, not_called};

use crate::feed::Failed;
use std::marker::Model;

/// The calls of a device that takes bytes.
#[derive(Drop)]
pub(crate) struct Calls {
    failures: u64,
    is_flushed: bool,
    is_late: bool,
}

impl Model for Calls {
    ghost use Rattle.std.specs.Prelude.{◌≡◌, false};
    ghost use Rattle.byte_ends.specs.Ends.{Called};

    ghost Value = { Called };

    ghost view = { λ c. record { failures = c.failures; flushed = c.is_flushed; late = c.is_late } };

    // Where none failed, none came after a failure.
    ghost invariant = { λ c. c.failures ≡ 0 → c.is_late ≡ false };
}

impl Calls {
    /// No calls yet.
    pub(crate) fn none() -> Calls
        ensures { result ≡ not_called }
    {
        Calls {
            failures: 0,
            is_flushed: false,
            is_late: false,
        }
    }

    /// How many failed: a count that stays at `u64::MAX` once it is there.
    pub(crate) fn failures(&self) -> u64
        ensures failures { result ≡ self.now.failures }
        ensures in_time { self.now.failures ≡ 0 → self.now.late ≡ false }
    {
        self.failures
    }

    /// One more call was made, a write with this answer.
    pub(crate) fn count_write(&mut self, taken: Result<usize, Failed>)
        ensures failures { CountsFailure self.old.failures taken self.new.failures }
        ensures flushed { HoldsBack self.old.flushed taken self.new.flushed }
        ensures late { MakesLate self.old.late self.old.failures self.new.late }
    {
        self.is_late = self.is_late || self.failures > 0;
        match taken {
            Ok(n) => self.is_flushed = self.is_flushed && n == 0,
            Err(Failed) => self.failures = self.failures.saturating_add(1),
        }
    }

    /// One more call was made, a flush with this answer.
    pub(crate) fn count_flush(&mut self, flushed: Result<(), Failed>)
        ensures failures { CountsFailure self.old.failures flushed self.new.failures }
        ensures flushed { PassesOn self.old.flushed flushed self.new.flushed }
        ensures late { MakesLate self.old.late self.old.failures self.new.late }
    {
        self.is_late = self.is_late || self.failures > 0;
        match flushed {
            Ok(()) => self.is_flushed = true,
            Err(Failed) => self.failures = self.failures.saturating_add(1),
        }
    }
}

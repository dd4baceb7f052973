ghost use Rattle.std.specs.Prelude.{◌≡◌, List, [], ◌∷◌, ◌++◌};
ghost use Rattle.std.specs.Borrow.{ftrue};
ghost use Rattle.effective_area.specs.Calls.{Call, call_at};

use geometry::Position;
use std::marker::Model;

/// What a reducer was asked for so far, in order: a history that contracts alone see. It takes no memory, and one call more takes no time.
#[derive(Debug, Drop)]
pub struct CallLog {
    pub ghost calls: { List Call },
}

impl Model for CallLog {
    ghost also_owns = { λ _. ftrue };
}

impl CallLog {
    /// Nothing yet.
    pub fn none() -> CallLog
        ensures { result.calls ≡ [] }
    {
        CallLog {}
    }

    /// One call more, for this line at this threshold.
    pub fn and(&self, line: &[Position], threshold: u128) -> CallLog
        ensures { result.calls ≡ self.now.calls ++ call_at threshold line.now ∷ [] }
    {
        CallLog {}
    }
}

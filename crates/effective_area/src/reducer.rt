ghost use Rattle.std.specs.Prelude.{◌≡◌, ℕ, ◌≤◌, ◌∷◌, ◌++◌, [], IfOk, List, length};
ghost use Rattle.effective_area.specs.Calls.{Call, call_at};
ghost use Rattle.elimination_meaning.specs.Elimination.{reduce};

use geometry::Position;
use owned_values::Memory;
use std::alloc::Global;

/// What reduces lines by repeated elimination (Visvalingam and Whyatt 1993).
pub trait Reducer {
    // What it was asked for: each line, with the threshold, in order. Contracts alone see it.
    ghost calls: { Self → List Call };

    /// The rising indexes of the positions that stay where, while some position between the ends has twice an effective area
    /// under `t`, in square units, the least by area, position and index is removed. They depend on the line and the
    /// threshold alone, whatever this reducer answered before, want of memory too.
    fn kept(&mut self, alloc: Global, arc: &[Position], t: u128) -> Result<Vec<usize>, Memory>
        requires { 2 ≤ length arc.now }
        ensures kept { IfOk result (λ kept. kept.items ≡ reduce t arc.now) }
        // It was asked for this line at this threshold, whether it answered or not, and for nothing else.
        ensures called { calls self.new ≡ calls self.old ++ call_at t arc.now ∷ [] };
}

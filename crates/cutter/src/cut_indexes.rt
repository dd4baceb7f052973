// The indexes at which lines and rings are cut.
ghost use Rattle.std.specs.Prelude.{◌≡◌, ◌<◌, ◌≤◌, ◌∷◌, Some, length, slice_get, slice_index_or, slice_range};
ghost use Rattle.cutter.specs.SharedCuts.{AreEnds, own_indexes};

use std::marker::Model;

/// For each of some lines and rings the indexes of the positions at which it is cut.
#[derive(Debug, Drop)]
pub struct CutIndexes {
    /// The indexes, line after line.
    indexes: Vec<usize>,
    /// For each line, how many of the indexes are its own or those of lines before it.
    ends: Vec<usize>,
}

impl Model for CutIndexes {
    ghost use Rattle.std.specs.Prelude.{ℕ, List};
    ghost use Rattle.cutter.specs.SharedCuts.{AreEnds, own_indexes};

    ghost Value = { List (List ℕ) };

    ghost view = { λ s. own_indexes s.indexes.items 0 s.ends.items };

    ghost invariant = { λ s. AreEnds s.indexes.items 0 s.ends.items };
}

impl CutIndexes {
    /// The indexes of lines, line after line, where those of each line end at the place that is listed for it.
    pub(crate) fn of(indexes: Vec<usize>, ends: Vec<usize>) -> CutIndexes
        requires { AreEnds indexes.items 0 ends.items }
        ensures { result ≡ own_indexes indexes.items 0 ends.items }
    {
        CutIndexes { indexes, ends }
    }

    /// The indexes of the line with this number.
    #[tactic(auto, using(crate::proofs::SharedCuts::has_own, crate::proofs::SharedCuts::own_read))]
    pub fn of_line(&self, i: usize) -> &[usize]
        requires { i < length self.now }
        ensures { slice_get self.now i ≡ Some result.now }
    {
        let indexes = self.indexes.as_slice();
        let ends = self.ends.as_slice();
        between(indexes, begin_of(ends, i), ends[i])
    }
}

// The indexes from one place up to another.
fn between(indexes: &[usize], begin: usize, end: usize) -> &[usize]
    requires order { begin ≤ end }
    requires within { end ≤ length indexes.now }
    ensures { result.now ≡ slice_range indexes.now begin end }
{
    &indexes[begin..end]
}

// How many cut indexes are those of lines before the line with this number.
fn begin_of(ends: &[usize], i: usize) -> usize
    requires { i ≤ length ends.now }
    ensures { result ≡ slice_index_or (0 ∷ ends.now) i 0 }
{
    if i == 0 { 0 } else { ends[i - 1] }
}

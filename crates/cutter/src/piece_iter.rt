// The pieces of a line, lent one by one.
ghost use Rattle.std.specs.Prelude.{◌≡◌, length, slice_index_or};
ghost use Rattle.std.specs.Iterator.{YieldsFirstRef, item_count};
ghost use Rattle.cutter.specs.Slices.{slices, IsRising};

use geometry::Position;
use std::marker::Model;

/// The pieces of a line or a ring, in its order, each lent as a slice of its positions. It takes no memory.
#[derive(Debug, Drop)]
pub struct PieceIter<'a> {
    positions: &'a [Position],
    cuts: &'a [usize],
}

impl<'a> Model for PieceIter<'a> {
    ghost use Rattle.std.specs.Prelude.{List, length};
    ghost use Rattle.geometry.specs.Points.{Point};
    ghost use Rattle.cutter.specs.Slices.{slices, IsRising};

    ghost Value = { List (List Point) };

    ghost view = { λ s. slices s.positions.now s.cuts.now };

    ghost invariant = { λ s. IsRising (length s.positions.now) s.cuts.now };
}

impl<'a> PieceIter<'a> {
    /// The pieces from each of the indexes to the next.
    pub(crate) fn over(positions: &'a [Position], cuts: &'a [usize]) -> PieceIter<'a>
        requires { IsRising (length positions.now) cuts.now }
        ensures { result ≡ slices positions.now cuts.now }
    {
        PieceIter { positions, cuts }
    }

    /// How many pieces are left; it is only how much room is made for them.
    pub fn room(&self) -> usize {
        self.cuts.len().saturating_sub(1)
    }
}

impl<'a> Iterator for PieceIter<'a> {
    type Item = &'a [Position];

    ghost next_gives = { YieldsFirstRef (λ s. s) };

    ghost remaining = { item_count (λ s. s) };

    #[tactic(auto, using(crate::proofs::SliceLaws::two_indexes, crate::proofs::SliceLaws::no_slice))]
    fn next(&mut self) -> Option<&'a [Position]> {
        if self.cuts.len() < 2 {
            return None;
        }
        let i = self.cuts[0];
        let j = self.cuts[1];
        self.cuts = &self.cuts[1..];
        Some(&self.positions[i..j + 1])
    }
}

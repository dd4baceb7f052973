// Where many places have one position.
ghost use Rattle.std.specs.Prelude.{◌<◌, length};
ghost use Rattle.guarded_reduction.specs.Indexes.{IsIndex};

use crate::index::box_tree::BoxTree;
use geometry::is_same;

impl BoxTree {
    /// The place of this rank, if there is one, has the position of another.
    fn is_beside(&self, rank: usize, place: usize) -> bool
        requires index { IsIndex self.now }
        requires within { place < length self.now.positions.items }
    {
        rank < self.places.len()
            && is_same(self.positions[self.places[rank]], self.positions[place])
    }

    /// More than so many places have the position of this one, as far as the places so many ranks before and after it show.
    fn is_crowded(&self, place: usize, many: usize) -> bool
        requires index { IsIndex self.now }
        requires within { place < length self.now.positions.items }
    {
        let rank = self.ranks[place];
        self.is_beside(rank.saturating_add(many), place)
            || rank >= many && self.is_beside(rank - many, place)
    }

    /// By powers of two, more places have the position of the first than that of the other.
    pub fn is_more_crowded(&self, place: usize, other: usize) -> bool
        requires index { IsIndex self.now }
        requires place { place < length self.now.positions.items }
        requires other { other < length self.now.positions.items }
    {
        for power in 2..40u32 {
            let many = 1usize << power;
            if !self.is_crowded(place, many) {
                return false;
            }
            if !self.is_crowded(other, many) {
                return true;
            }
        }
        false
    }
}

// The arcs among which pieces are looked up.
ghost use Rattle.std.specs.Prelude.{◌≡◌, ◌<◌, ◌≤◌, ◌^◌, [], IfOk, OnOk, false, length};
ghost use Rattle.arc_table.specs.Ends.{no_ends, EndIdentifies};
ghost use Rattle.arc_table.specs.Growth.{found, grown, has_alike};
ghost use Rattle.arc_table.specs.Lookup.{unlisted, AreListed};

use crate::ends::{Ends, directed};
use geometry::{ArcRef, Position};
use owned_values::{Items, Memory};
use std::alloc::Global;

/// The arcs that are looked up, in order: the end by which each is found, and its number among all arcs.
#[derive(Debug, Drop)]
pub struct Lookup {
    ends: Ends,
    numbers: Vec<usize>,
}

impl Lookup {
    /// None yet, with room for so many, which are found by hashes that begin with the seed.
    pub fn with_room(alloc: Global, arcs: usize, seed: u64) -> Result<Lookup, Memory>
        ensures numbers { IfOk result (λ lookup. lookup.numbers.items ≡ []) }
        ensures ends { IfOk result (λ lookup. lookup.ends ≡ no_ends) }
    {
        let ends = Ends::with_room(alloc, arcs, seed)?;
        let numbers = Vec::with_capacity(alloc, arcs)?;
        Ok(Lookup { ends, numbers })
    }

    /// The index of the first arc that is alike the piece, where no unlisted one is. If there is none, the piece is listed as the next arc.
    pub fn find_or_list(
        &mut self,
        arcs: &[Items<Position>],
        piece: &[Position],
    ) -> Result<Option<ArcRef>, Memory>
        requires small { length arcs.now < 2 ^ 63 }
        requires long { 2 ≤ length piece.now }
        requires known { AreListed arcs.now self.old.numbers.items self.old.ends }
        requires identifies { EndIdentifies arcs.now piece.now }
        requires apart { has_alike (unlisted 0 self.old.numbers.items arcs.now) piece.now ≡ false }
        ensures found { IfOk result (λ o. o ≡ found 0 arcs.now piece.now) }
        ensures known { OnOk result (AreListed (grown arcs.now piece.now) self.new.numbers.items self.new.ends) }
        ensures unlisted { OnOk result
            (unlisted 0 self.new.numbers.items (grown arcs.now piece.now) ≡ unlisted 0 self.old.numbers.items arcs.now) }
    {
        if let Some(r) = self.ends.find_or_add(piece)? {
            let number = self.numbers[r.index()];
            return Ok(Some(directed(number, !r.reversed())));
        }
        self.numbers.push(arcs.len())?;
        Ok(None)
    }
}

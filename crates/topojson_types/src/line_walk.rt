ghost use Rattle.std.specs.Prelude.{◌≡◌, length};
ghost use Rattle.std.specs.Iterator.{YieldsFirst, item_count};
ghost use Rattle.topojson_types.specs.Decoding.{decoded_line, placed_arcs};
ghost use Rattle.topojson_types.specs.Validity.{AreInRange};

use crate::topology::Topology;
use crate::walk::Walk;
use geojson_types::Position;
use geometry::ArcRef;
use std::marker::Model;

/// The fewest positions of a ring (RFC 7946, section 3.1.6).
const RING_POSITIONS: usize = 4;

/// The positions that a line or a ring of a topology stands for: those of a walk along its arcs, and after fewer than four of a ring
/// its first, until there are four. It takes no memory.
#[derive(Debug, Drop)]
pub struct LineWalk<'a> {
    walk: Walk<'a>,
    // the first position of a ring; an open line isn't filled up
    filler: Option<Position>,
    missing: usize,
}

impl<'a> Model for LineWalk<'a> {
    ghost use Rattle.std.specs.Prelude.{List, ◌++◌, ◌-◌, length};
    ghost use Rattle.geometry.specs.Points.{Point};
    ghost use Rattle.topojson_types.specs.Filling.{filling};

    ghost Value = { List Point };

    ghost view = { λ w. w.walk ++ filling w.filler (w.missing - length w.walk) };
}

impl<'a> LineWalk<'a> {
    /// The positions of the line of these indexes, or of the ring, if it is closed.
    pub fn over(topology: &'a Topology, refs: &'a [ArcRef], is_closed: bool) -> LineWalk<'a>
        requires { AreInRange (length topology.now.arcs) refs.now }
        ensures { result ≡ decoded_line (placed_arcs topology.now.transform topology.now.arcs) is_closed refs.now }
    {
        let filler = if is_closed {
            Walk::over(topology, refs).next()
        } else {
            None
        };
        LineWalk {
            walk: Walk::over(topology, refs),
            filler,
            missing: RING_POSITIONS,
        }
    }
}

impl<'a> Iterator for LineWalk<'a> {
    type Item = Position;

    ghost next_gives = { YieldsFirst (λ w. w) };

    ghost remaining = { item_count (λ w. w) };

    #[inline(always)]
    #[tactic(auto, using(crate::proofs::Filled::filled_up, crate::proofs::Filled::left))]
    fn next(&mut self) -> Option<Position> {
        if let Some(position) = self.walk.next() {
            self.missing = self.missing.saturating_sub(1);
            return Some(position);
        }
        self.missing = self.missing.checked_sub(1)?;
        self.filler
    }
}

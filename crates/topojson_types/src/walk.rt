ghost use Rattle.std.specs.Prelude.{◌≡◌, length, map};
ghost use Rattle.std.specs.Iterator.{YieldsFirst, YieldsLast, item_count};
ghost use Rattle.topojson_types.specs.Decoding.{placed_arcs};
ghost use Rattle.geometry.specs.Joins.{arc_at, stitched};
ghost use Rattle.topojson_types.specs.Validity.{AreInRange};

use crate::cell_walk::CellWalk;
use crate::placing::position_at;
use crate::topology::Topology;
use crate::transform::Transform;
use geojson_types::Position;
use geometry::ArcRef;
use std::marker::Model;

/// The positions of a line or a ring of a topology (TopoJSON 1.0, section 2.1.4), from either end: those of the arcs that its indexes
/// name, forwards or reversed, in a row, each arc but the first without its first position. It takes no memory.
#[derive(Debug, Drop)]
pub struct Walk<'a> {
    transform: Option<&'a Transform>,
    cells: CellWalk<'a>,
}

impl<'a> Model for Walk<'a> {
    ghost use Rattle.std.specs.Prelude.{List, map};
    ghost use Rattle.std.specs.List.{AllByRecursion};
    ghost use Rattle.std.specs.Option.{option_copied};
    ghost use Rattle.geometry.specs.Points.{Point};
    ghost use Rattle.topojson_types.specs.Transforms.{place};
    ghost use Rattle.topojson_types.specs.Validity.{IsPlace};

    ghost Value = { List Point };

    ghost view = { λ w. map (place (option_copied w.transform)) w.cells };

    ghost invariant = { λ w. AllByRecursion (IsPlace (option_copied w.transform)) w.cells };
}

impl<'a> Walk<'a> {
    /// The positions of the arcs of the topology that these indexes name.
    pub fn over(topology: &'a Topology, refs: &'a [ArcRef]) -> Walk<'a>
        requires { AreInRange (length topology.now.arcs) refs.now }
        ensures { result ≡ stitched (map (arc_at (placed_arcs topology.now.transform topology.now.arcs)) refs.now) }
    {
        Walk {
            transform: topology.transform(),
            cells: CellWalk::over(topology.arcs(), refs),
        }
    }
}

impl<'a> Iterator for Walk<'a> {
    type Item = Position;

    ghost next_gives = { YieldsFirst (λ w. w) };

    ghost remaining = { item_count (λ w. w) };

    #[inline(always)]
    fn next(&mut self) -> Option<Position> {
        let cell = self.cells.take_first()?;
        Some(position_at(self.transform, cell))
    }
}

impl<'a> DoubleEndedIterator for Walk<'a> {
    ghost next_back_gives = { YieldsLast (λ w. w) };

    fn next_back(&mut self) -> Option<Position> {
        let cell = self.cells.take_last()?;
        Some(position_at(self.transform, cell))
    }
}

// The cells of one arc, walked in either direction.
ghost use Rattle.std.specs.Prelude.{◌≡◌, ◌<◌, [], length};
ghost use Rattle.std.specs.Iterator.{YieldsFirst, YieldsLast};
ghost use Rattle.geometry.specs.Joins.{arc_at, number_of};

use crate::cell::Cell;
use geometry::ArcRef;
use json_value::Items;
use std::marker::Model;

/// What is left of the cells of an arc, walked forwards or backwards.
#[derive(Debug, Drop)]
pub struct DirectedArc<'a> {
    cells: &'a [Cell],
    is_backwards: bool,
}

impl<'a> Model for DirectedArc<'a> {
    ghost use Rattle.std.specs.Prelude.{List, reverse, if◌then◌else◌};
    ghost use Rattle.geometry.specs.Points.{Point};

    ghost Value = { List Point };

    ghost view = { λ r. if r.is_backwards then reverse r.cells.now else r.cells.now };
}

impl<'a> DirectedArc<'a> {
    /// No cells.
    pub fn empty() -> DirectedArc<'a>
        ensures { result ≡ [] }
    {
        DirectedArc {
            cells: &[],
            is_backwards: false,
        }
    }

    /// The cells of the arc that an index names.
    #[tactic(auto, using(crate::proofs::Opening::arc_is))]
    pub fn of_arc(arcs: &'a [Items<Cell>], index: ArcRef) -> DirectedArc<'a>
        requires { number_of index < length arcs.now }
        ensures { result ≡ arc_at arcs.now index }
    {
        DirectedArc {
            cells: arcs[index.index()].as_slice(),
            is_backwards: index.reversed(),
        }
    }

    /// Takes the first cell that is left.
    pub fn take_first(&mut self) -> Option<Cell>
        ensures { YieldsFirst (λ r. r) self.old result self.new }
    {
        let split = if self.is_backwards {
            self.cells.split_last()
        } else {
            self.cells.split_first()
        };
        let (cell, rest) = split?;
        self.cells = rest;
        Some(*cell)
    }

    /// Takes the last cell that is left.
    pub fn take_last(&mut self) -> Option<Cell>
        ensures { YieldsLast (λ r. r) self.old result self.new }
    {
        let split = if self.is_backwards {
            self.cells.split_first()
        } else {
            self.cells.split_last()
        };
        let (cell, rest) = split?;
        self.cells = rest;
        Some(*cell)
    }
}

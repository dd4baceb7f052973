// The cells of a line, from arc to arc.
ghost use Rattle.std.specs.Prelude.{◌≡◌, ◌≤◌, length, map};
ghost use Rattle.std.specs.Iterator.{YieldsFirst, YieldsLast};
ghost use Rattle.std.specs.List.{AllByRecursion};
ghost use Rattle.geometry.specs.Joins.{arc_at, stitched};
ghost use Rattle.topojson_types.specs.Validity.{AreInRange};

use crate::cell::Cell;
use crate::directed_arc::DirectedArc;
use geometry::ArcRef;
use json_value::Items;
use std::marker::Model;

/// The cells of the arcs that indexes name, in a row, each arc but the first without its first cell.
#[derive(Debug, Drop)]
pub struct CellWalk<'a> {
    arcs: &'a [Items<Cell>],
    prefix: DirectedArc<'a>,
    // the indexes of the arcs between, of which none is opened yet
    refs: &'a [ArcRef],
    back: DirectedArc<'a>,
}

impl<'a> Model for CellWalk<'a> {
    ghost use Rattle.std.specs.Prelude.{List, ◌++◌, ◌≤◌, length, map};
    ghost use Rattle.std.specs.List.{AllByRecursion};
    ghost use Rattle.geometry.specs.Points.{Point};
    ghost use Rattle.geometry.specs.Joins.{arc_at, joined_after_first};
    ghost use Rattle.topojson_types.specs.Validity.{AreInRange};

    ghost Value = { List Point };

    ghost view = { λ w. w.prefix ++ (joined_after_first (map (arc_at w.arcs.now) w.refs.now) ++ w.back) };

    ghost invariant = { λ w. AreInRange (length w.arcs.now) w.refs.now × AllByRecursion (λ cs. 2 ≤ length cs) w.arcs.now };
}

impl<'a> CellWalk<'a> {
    /// The cells of these arcs.
    pub fn over(arcs: &'a [Items<Cell>], refs: &'a [ArcRef]) -> CellWalk<'a>
        requires range { AreInRange (length arcs.now) refs.now }
        requires long { AllByRecursion (λ cs. 2 ≤ length cs) arcs.now }
        ensures { result ≡ stitched (map (arc_at arcs.now) refs.now) }
    {
        let (prefix, refs) = match refs.split_first() {
            None => (DirectedArc::empty(), refs),
            Some((first, rest)) => (DirectedArc::of_arc(arcs, *first), rest),
        };
        CellWalk {
            arcs,
            prefix,
            refs,
            back: DirectedArc::empty(),
        }
    }

    /// Takes the first cell that is left.
    pub fn take_first(&mut self) -> Option<Cell>
        ensures { YieldsFirst (λ w. w) self.old result self.new }
    {
        if let Some(cell) = self.prefix.take_first() {
            return Some(cell);
        }
        let Some((index, rest)) = self.refs.split_first() else {
            return self.back.take_first();
        };
        let mut run = DirectedArc::of_arc(self.arcs, *index);
        let _joint = run.take_first();
        let cell = run.take_first();
        self.refs = rest;
        self.prefix = run;
        cell
    }

    /// Takes the last cell that is left.
    pub fn take_last(&mut self) -> Option<Cell>
        ensures { YieldsLast (λ w. w) self.old result self.new }
    {
        if let Some(cell) = self.back.take_last() {
            return Some(cell);
        }
        let Some((index, rest)) = self.refs.split_last() else {
            return self.prefix.take_last();
        };
        let mut run = DirectedArc::of_arc(self.arcs, *index);
        let _first = run.take_first();
        let cell = run.take_last();
        self.refs = rest;
        self.back = run;
        cell
    }
}

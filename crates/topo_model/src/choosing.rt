// The lines and rings of a topology with new arc indexes.
ghost use Rattle.std.specs.Prelude.{◌≡◌, None};
ghost use Rattle.topo_model.specs.ArcUses.{renumbered_refs};

use crate::pruning::Keeps;
use crate::trimming::renumber_all;
use geojson_types::Cause;
use json_value::Items;
use std::marker::Model;
use topojson_types::{ArcRef, Cell};

/// Keeps all lines and rings, each index replaced by the new index of its arc.
#[derive(Drop)]
pub struct Renumbered<'a> {
    renumbering: &'a [ArcRef],
}

impl<'a> Model for Renumbered<'a> {
    ghost use Rattle.std.specs.Prelude.{List, ℤ};

    ghost Value = { List ℤ };

    ghost view = { λ r. r.renumbering.now };
}

impl<'a> Renumbered<'a> {
    /// By this list, which has the new index of each arc.
    pub fn by(renumbering: &'a [ArcRef]) -> Renumbered<'a>
        ensures { result ≡ renumbering.now }
    {
        Renumbered { renumbering }
    }
}

impl<'a> Keeps for Renumbered<'a> {
    ghost places = { λ renumbering cell. cell };

    ghost keeps = { renumbered_refs };

    ghost goes = { λ renumbering closed l. None };

    fn place(&self, cell: Cell) -> Cell {
        cell
    }

    fn keep(&self, _closed: bool, refs: &mut Items<ArcRef>) -> Option<Cause> {
        renumber_all(refs.as_mut_slice(), self.renumbering);
        None
    }

    fn hole_goes(&self, _outer: &[ArcRef], _hole: &[ArcRef]) -> Option<Cause> {
        None
    }
}

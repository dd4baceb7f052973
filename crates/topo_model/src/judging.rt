// Lines and rings that are judged by the arcs as they stand first, and then by what is left of the arcs.
ghost use Rattle.std.specs.Prelude.{◌≡◌, None};
ghost use Rattle.geometry.specs.Lists.{map_some};
ghost use Rattle.build_meaning.specs.InTurn.{cause_in_turn};
ghost use Rattle.topo_model.specs.Drops.{cause_at_first, draft_causes, judged_refs};

use crate::pruning::Keeps;
use crate::rebuilding::Rebuilding;
use geojson_types::Cause;
use json_value::Items;
use std::marker::Model;
use topojson_types::{ArcRef, Cell};

/// The arcs that lines and rings are judged by, and where there are others before that, those first.
#[derive(Drop)]
pub struct Judging<'a> {
    first: Option<&'a Rebuilding<'a>>,
    later: &'a Rebuilding<'a>,
}

impl<'a> Model for Judging<'a> {
    ghost use Rattle.geometry.specs.Lists.{map_some};
    ghost use Rattle.topo_model.specs.Rebuilding.{Judging as ByArcs};

    ghost Value = { ByArcs };

    ghost view = { λ j. record { first = map_some (λ r. r.now) j.first; later = j.later.now } };
}

/// Why a line or ring is dropped where this is why the outer ring of its polygon is dropped at first, if it is a hole and that is, and this is
/// why it is itself, and this is why it is then.
fn cause_in_turn(outer: Option<Cause>, first: Option<Cause>, later: Option<Cause>) -> Option<Cause>
    ensures { result ≡ cause_in_turn outer first later }
{
    match (outer, first) {
        (None, None) | (Some(Cause::Collapsed), _) => later,
        _ => first,
    }
}

impl<'a> Judging<'a> {
    /// By these arcs, and by the others first.
    pub fn by(first: Option<&'a Rebuilding<'a>>, later: &'a Rebuilding<'a>) -> Judging<'a>
        ensures { result ≡ record { first = map_some (λ r. r.now) first.entry; later = later.now } }
    {
        Judging { first, later }
    }

    /// Why a line or ring is dropped at first, if it is.
    fn at_first(&self, closed: bool, refs: &[ArcRef]) -> Option<Cause>
        ensures { result ≡ cause_at_first self.now.first closed refs.now }
    {
        match self.first {
            None => None,
            Some(arcs) => arcs.cause(closed, refs),
        }
    }
}

/// Keeps the lines and rings that aren't small as they are.
impl<'a> Keeps for Judging<'a> {
    ghost places = { λ judging cell. cell };

    ghost keeps = { λ judging. judged_refs judging.first judging.later };

    ghost goes = { draft_causes };

    fn place(&self, cell: Cell) -> Cell {
        cell
    }

    fn keep(&self, closed: bool, refs: &mut Items<ArcRef>) -> Option<Cause> {
        let refs = refs.as_slice();
        cause_in_turn(
            None,
            self.at_first(closed, refs),
            self.later.cause(closed, refs),
        )
    }

    fn hole_goes(&self, outer: &[ArcRef], hole: &[ArcRef]) -> Option<Cause> {
        cause_in_turn(
            self.at_first(true, outer),
            self.at_first(true, hole),
            self.later.cause(true, hole),
        )
    }
}

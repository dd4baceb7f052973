// Laws of the definitions. A function here does nothing: its contract is the law.
ghost use Rattle.linework.specs.Laws.{NoneIsNew, PlacedAreAll};

/// The lines and rings of a shape with the ways to them are its lines and rings, in the same order.
#[tactic(auto, using(crate::proofs::Placing::reported))]
pub fn placed_lines_and_rings_are_all()
    ensures { PlacedAreAll }
{}

/// Each position of the linework is a position of the layers, so what bounds these bounds it too.
#[tactic(auto, using(crate::proofs::Positions::none_is_new))]
pub fn no_position_is_new()
    ensures { NoneIsNew }
{}

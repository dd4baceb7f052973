// Laws that an algorithm can use. A function here does nothing: its contract is the law.
ghost use Rattle.guarded_meaning.specs.NextLaws.{FreeOrHeld, HeldIsNotFree, HolderStays, NeverAgain, NextLaw, NoNextLaw};

/// A corner that goes, and that no other that goes is before, is the next to go.
#[tactic(auto, using(crate::proofs::First::next_law))]
pub fn next_law()
    ensures { NextLaw }
{}

/// Where no corner goes, there is no next.
#[tactic(auto, using(crate::proofs::First::no_next_law))]
pub fn no_next_law()
    ensures { NoNextLaw }
{}

/// A corner that isn't free is held by something that is left.
#[tactic(auto, using(crate::proofs::Holders::free_or_held))]
pub fn free_or_held()
    ensures { FreeOrHeld }
{}

/// A corner that is held isn't free.
#[tactic(auto, using(crate::proofs::Holders::held_is_not_free))]
pub fn held_is_not_free()
    ensures { HeldIsNotFree }
{}

/// What doesn't go with a corner is left by it.
#[tactic(auto, using(crate::proofs::Holders::holder_stays))]
pub fn holder_stays()
    ensures { HolderStays }
{}

/// A corner that can't go for its rings never can.
#[tactic(auto, using(crate::proofs::Holders::never_again))]
pub fn never_again()
    ensures { NeverAgain }
{}

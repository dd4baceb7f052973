// The law of the rings that are protected. The function changes nothing: its contract is the law.
ghost use Rattle.build_meaning.specs.ProtectedRings.{ProtectedRingsCanStay};

/// The protected rings of a valid topology are of its arcs, which meet, and have four positions or more.
#[tactic(auto, using(crate::proofs::ProtectedRings::can_stay))]
pub fn protected_rings_can_stay()
    ensures { ProtectedRingsCanStay }
{}

// Laws of the definitions. A function here changes nothing: its contract is the law.
ghost use Rattle.explanations.specs.BriefLaws.{KindInBrief, OthersStand};

/// In an explanation in brief lines of no kind stand as they are.
#[tactic(auto, using(crate::proofs::BriefLaws::others_stand))]
pub fn others_stand()
    ensures { OthersStand }
{}

/// Of lines of one kind beside each other the first ten stand, and then how many more there are, if there are more.
#[tactic(auto, using(crate::proofs::BriefLaws::kind_in_brief))]
pub fn kind_in_brief()
    ensures { KindInBrief }
{}

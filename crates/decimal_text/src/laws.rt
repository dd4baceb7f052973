// Laws of the definitions. Each function does nothing; what it says is its contract.
ghost use Rattle.decimal_text.specs.Laws.{NumbersHaveParts, PartsAreSpelled, RoundedIsUnique, ScaledIsNearest};

/// The nearest whole number to a fraction, halves up, is there and is the only one.
#[tactic(auto, using(crate::proofs::Nearest::rounded_is_unique))]
pub fn rounded_is_unique()
    ensures { RoundedIsUnique }
{}

/// The parts that a number text is read as are those that it spells by RFC 8259, section 6.
pub fn parts_are_spelled()
    ensures { PartsAreSpelled }
{}

/// A text is read as the parts of a number exactly where it is a number by RFC 8259, section 6.
pub fn numbers_have_parts()
    ensures { NumbersHaveParts }
{}

/// What `NumText::scaled` answers is the nearest whole number to the fraction that the text spells, and `Range` exactly
/// where that passes the limit.
pub fn scaled_is_nearest()
    ensures { ScaledIsNearest }
{}

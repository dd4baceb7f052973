// A law of the definition. The function does nothing; what it says is its contract.
ghost use Rattle.effective_area.specs.ThresholdLaws.{ThresholdIsTwiceTheArea};

/// A number text has a threshold exactly where the number isn't negative, is at most 10^18 and is a whole number of square units; the
/// threshold is twice as many.
pub fn threshold_is_twice_the_area()
    ensures { ThresholdIsTwiceTheArea }
{}

// A law of what is kept. The function here does nothing: its contract is the law.
ghost use Rattle.topojson_decoder.specs.Kept.{ShapesStayValid};

/// A valid topology of which each feature's geometry alone is kept is one, too.
pub fn shapes_stay_valid()
    ensures { ShapesStayValid }
{}

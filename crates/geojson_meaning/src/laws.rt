// Laws of the definition of a layer. A function here does nothing: its contract is the law.
ghost use Rattle.geojson_meaning.specs.Laws.{
  ExactIsStricter,
  InputsAlone,
  NothingDeeper,
  NumbersStay,
  RingsClose,
  ShapesAreProper,
  TextsStay,
};

/// Each shape of a layer is one that a feature may have.
#[tactic(auto, using(crate::proofs::SoundLayers::shapes_are_proper))]
pub fn shapes_are_proper()
    ensures { ShapesAreProper }
{}

/// Each position of a layer is within `INPUT_LIMIT`.
pub fn inputs_alone()
    ensures { InputsAlone }
{}

/// Each ring of a layer has four positions or more and is closed (RFC 7946, section 3.1.6).
#[tactic(auto, using(crate::proofs::SoundLayers::rings_close))]
pub fn rings_close()
    ensures { RingsClose }
{}

/// No feature of a layer nests deeper than the JSON value that it is read of.
#[tactic(auto, using(crate::proofs::SoundLayers::nothing_deeper))]
pub fn nothing_deeper()
    ensures { NothingDeeper }
{}

/// The number texts of a layer's identifiers and properties are numbers, if those of its JSON value are.
#[tactic(auto, using(crate::proofs::SoundLayers::numbers_stay))]
pub fn numbers_stay()
    ensures { NumbersStay }
{}

/// The texts of a layer's identifiers and properties are UTF-8 (RFC 8259, section 8.1), if those of its JSON value are.
#[tactic(auto, using(crate::proofs::SoundLayers::texts_stay))]
pub fn texts_stay()
    ensures { TextsStay }
{}

/// What is accepted with `exact` is accepted without it: the same features with the same counts, none rounded.
#[tactic(auto, using(crate::proofs::StricterLayers::exact_is_stricter))]
pub fn exact_is_stricter()
    ensures { ExactIsStricter }
{}

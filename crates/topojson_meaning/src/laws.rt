// Laws of the definitions. A function here does nothing: its contract is the law.
ghost use Rattle.topojson_meaning.specs.Laws.{ReadsBack, ReadsValid, TextIsRead, ValueHasNumbers, ValueNests};
ghost use Rattle.topojson_meaning.specs.Texts.{NumbersStay, TextIsUtf8, TextsStay};

use json_value::text_spells_value;

/// A topology that a value stands for is valid: its names differ, its arcs are long enough, its arc indexes name arcs, its lines
/// are joined, its rings closed, no list in it is empty but that of a collection, and all its cells lie at positions.
pub fn topology_is_valid()
    ensures { ReadsValid }
{}

/// The value that is written for a topology stands for that topology: the same objects in order, the same arcs, the same texts in
/// its transform, if it has one, and nothing rounded, left out or dropped.
pub fn reads_back()
    ensures { ReadsBack }
{}

/// The numbers of that value are numbers (RFC 8259, section 6) where those in its identifiers and properties are, and it nests
/// four deeper than its features.
pub fn topology_value_is_bounded()
    ensures numbers { ValueHasNumbers }
    ensures depth { ValueNests }
{}

/// The text of that value is read as the value, at each depth that leaves four to the features.
pub fn topology_text_is_read()
    ensures { TextIsRead }
{
    text_spells_value();
    topology_value_is_bounded();
}

/// The text of that value is UTF-8 (RFC 8259, section 8.1), if the texts of the topology are.
pub fn topology_text_is_utf8()
    ensures { TextIsUtf8 }
{}

/// What stands for a number in a topology that is read is one, if that is so in the value.
#[tactic(auto, using(crate::proofs::ReadTexts::numbers_stay))]
pub fn numbers_stay()
    ensures { NumbersStay }
{}

/// The names of objects, and the identifiers and properties of features, have UTF-8 texts, if the value has.
#[tactic(auto, using(crate::proofs::ReadTexts::texts_stay))]
pub fn texts_stay()
    ensures { TextsStay }
{}

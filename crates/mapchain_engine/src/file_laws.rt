// Laws of the definitions. A function here does nothing: its contract is the law.
ghost use Rattle.std.specs.Prelude.{ℕ, List};
ghost use Rattle.mapchain_engine.specs.FileOutcomes.{object_text, summarised};
ghost use Rattle.mapchain_engine.specs.FileLaws.{DecodedIsUtf8, HaveFileOutcome, HaveOneFileOutcome};

use json_value::read_values_are_well_formed;
use topojson_meaning::{numbers_stay, texts_stay};
use topojson_writer::features_text_is_utf8;

/// The bytes of a file have exactly one outcome where `stat` is asked: either the summary, or the fault. What nothing promises is
/// where and why a malformed text is malformed.
pub fn summary_is_one_outcome()
    ensures there { HaveFileOutcome summarised }
    ensures one { HaveOneFileOutcome summarised }
{}

/// The bytes of a file have exactly one outcome where `to_geo` is asked for the object of a name: either the text of its features,
/// or the fault, but for where and why a malformed text is malformed.
pub fn features_are_one_outcome()
    ensures there { (name : List ℕ) → HaveFileOutcome (object_text name) }
    ensures one { (name : List ℕ) → HaveOneFileOutcome (object_text name) }
{}

/// The text of the features of an object is UTF-8 (RFC 8259, section 8.1), whichever topology the bytes of a file spell.
pub fn decoded_text_is_utf8()
    ensures { DecodedIsUtf8 }
{
    read_values_are_well_formed();
    numbers_stay();
    texts_stay();
    features_text_is_utf8();
}

// Laws on what is written and read: the functions do nothing, their contracts are the laws.
ghost use Rattle.std.specs.Prelude.{◌≡◌, ◌≤◌, ℕ, List, [], Some};
ghost use Rattle.std.specs.Str.{is_utf8};
ghost use Rattle.json_value.specs.Depth.{depth};
ghost use Rattle.json_value.specs.Text.{json_text};
ghost use Rattle.json_value.specs.WellFormed.{IsWellFormed};
ghost use Rattle.json_value.specs.declared.json.Json.{Json as Value};
ghost use Rattle.json_value.specs.Reading.{value_at};

/// The text that is written for a well-formed value is read as it, with nothing after it, wherever arrays and objects may nest as deep as
/// they do in it.
#[tactic(auto, using(crate::proofs::PrefixValues::text_is_read))]
pub fn written_text_is_read()
    ensures { (v : Value) (d : ℕ) → IsWellFormed v → depth v ≤ d → value_at is_utf8 d (json_text v) ≡ Some (v, []) }
{}

/// A value that is read at the front of bytes is well formed, and nests no deeper than the reader allows. So its text is read as it.
#[tactic(auto, using(crate::proofs::PrefixValues::prefix_formed, crate::proofs::PrefixValues::prefix_no_deeper))]
pub fn prefix_values_are_well_formed()
    ensures formed { (d : ℕ) (bytes rest : List ℕ) (v : Value) → value_at is_utf8 d bytes ≡ Some (v, rest) → IsWellFormed v }
    ensures depth { (d : ℕ) (bytes rest : List ℕ) (v : Value) → value_at is_utf8 d bytes ≡ Some (v, rest) → depth v ≤ d }
{}

// Laws on texts and values: the functions do nothing, their contracts are the laws.
ghost use Rattle.std.specs.Prelude.{ℕ, List, ◌≤◌, IsUtf8};
ghost use Rattle.json_value.specs.Depth.{depth};
ghost use Rattle.json_value.specs.Grammar.{Reads};
ghost use Rattle.json_value.specs.Numbers.{HasNumbers};
ghost use Rattle.json_value.specs.Text.{json_text};
ghost use Rattle.json_value.specs.WellFormed.{IsWellFormed};
ghost use Rattle.json_value.specs.declared.json.Json.{Json as Value};

/// The text that is written for a value is read as this value, at its own depth and at each greater one.
pub fn text_spells_value()
    ensures { (v : Value) (d : ℕ) → HasNumbers v → depth v ≤ d → Reads d (json_text v) v }
{}

/// The text that is written for a well-formed value is UTF-8.
pub fn written_text_is_utf8()
    ensures { (v : Value) → IsWellFormed v → IsUtf8 (json_text v) }
{}

/// What a UTF-8 text is read as is well formed: its numbers are numbers, its texts and names are UTF-8.
pub fn read_values_are_well_formed()
    ensures { (d : ℕ) (b : List ℕ) (v : Value) → IsUtf8 b → Reads d b v → IsWellFormed v }
{}

/// What a text is read as nests no deeper than the reader allows, and its numbers are numbers. So it can be written again
/// under `text_spells_value`.
pub fn read_values_are_bounded()
    ensures depth { (d : ℕ) (b : List ℕ) (v : Value) → Reads d b v → depth v ≤ d }
    ensures numbers { (d : ℕ) (b : List ℕ) (v : Value) → Reads d b v → HasNumbers v }
{}

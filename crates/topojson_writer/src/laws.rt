// Laws on the written texts: the functions do nothing, their contracts are the laws.
ghost use Rattle.std.specs.Prelude.{ℕ, ◌≤◌, IsUtf8};
ghost use Rattle.std.specs.List.{AllByRecursion};
ghost use Rattle.json_value.specs.Depth.{depth};
ghost use Rattle.json_value.specs.Grammar.{Reads};
ghost use Rattle.json_value.specs.Numbers.{HasNumbers};
ghost use Rattle.json_value.specs.Text.{json_text};
ghost use Rattle.geojson_types.specs.declared.layer.FeatureSet.{FeatureSet as Features};
ghost use Rattle.geojson_types.specs.Numbers.{FeatureHasNumbers};
ghost use Rattle.geojson_types.specs.Texts.{FeatureHasTexts};
ghost use Rattle.topojson_writer.specs.FeatureValues.{features_value};
ghost use Rattle.topojson_writer.specs.Numbered.{IsNumbered, features_of};

/// The text that `write_features` writes is read as the value of the features (RFC 8259), at its own depth and at each
/// greater one, and the numbers of that value are numbers. That its identifiers and properties hold numbers, and that its
/// coordinates are within their bound, is what the types of a feature's parts see to.
#[tactic(auto, using(json_value::proofs::Written::text_reads, crate::proofs::Written::features_numbers))]
pub fn features_text_spells_value()
    ensures numbers { (features : Features) → AllByRecursion IsNumbered (features_of features) → HasNumbers (features_value features) }
    ensures reads { (features : Features) (d : ℕ) → AllByRecursion IsNumbered (features_of features) → depth (features_value features) ≤ d
        → Reads d (json_text (features_value features)) (features_value features) }
{}

/// That text is UTF-8 (RFC 8259, section 8.1), if the number texts of the identifiers and properties are numbers, and their texts
/// UTF-8.
#[tactic(auto, using(json_value::proofs::WrittenUtf8::parts_written_utf8, crate::proofs::Written::features_utf8))]
pub fn features_text_is_utf8()
    ensures { (features : Features) → AllByRecursion FeatureHasNumbers (features_of features) → AllByRecursion FeatureHasTexts (features_of features)
        → IsUtf8 (json_text (features_value features)) }
{}

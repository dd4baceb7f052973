// Features as they are written (RFC 7946, sections 3.2 and 3.3).
ghost use Rattle.std.specs.Prelude.{◌≡◌, ◌++◌};
ghost use Rattle.std.specs.Option.{option_copied};
ghost use Rattle.byte_ends.specs.Writes.{Writes};
ghost use Rattle.json_writer.specs.Standing.{Start};
ghost use Rattle.json_value.specs.Text.{json_text};
ghost use Rattle.topojson_writer.specs.FeatureTexts.{collection_head, feature_head};
ghost use Rattle.topojson_writer.specs.FeatureValues.{properties_value, geometry_value, feature_value, collection_value, features_value};

use crate::object_writer::put_id;
use crate::shape_writer::put_shape;
use byte_ends::{Drain, Sink, WriteFault};
use geojson_types::{Feature, FeatureSet, Id, Properties};
use json_writer::{Buffered, Out, PutValue, put_array, put_properties};

/// Puts properties, or null.
#[tactic(auto, using(json_value::proofs::Texts::texts))]
fn put_properties_option<O: Out>(properties: Option<&Properties>, out: &mut O)
    ensures text { O.text out.new ≡ O.text out.old ++ json_text (properties_value (option_copied properties.entry)) }
    ensures kept { (start : Start) → O.good out.old start → O.good out.new start }
{
    match properties {
        None => out.put(b"null"),
        Some(properties) => put_properties(properties, out),
    }
}

/// Puts the feature's geometry, or null.
#[tactic(auto, using(json_value::proofs::Texts::texts))]
fn put_geometry<O: Out>(feature: &Feature, out: &mut O)
    ensures text { O.text out.new ≡ O.text out.old ++ json_text (geometry_value feature.now.shape) }
    ensures kept { (start : Start) → O.good out.old start → O.good out.new start }
{
    match feature.shape() {
        None => out.put(b"null"),
        Some(shape) => put_shape(shape, out),
    }
}

/// Puts a feature with this identifier and these properties, up to its geometry.
pub fn put_feature_head<O: Out>(id: Option<&Id>, properties: Option<&Properties>, out: &mut O)
    ensures text { O.text out.new ≡ O.text out.old ++ feature_head (option_copied id.entry) (option_copied properties.entry) }
    ensures kept { (start : Start) → O.good out.old start → O.good out.new start }
{
    out.put(b"{\"type\":\"Feature\"");
    put_id(id, out);
    out.put(b",\"properties\":");
    put_properties_option(properties, out);
    out.put(b",\"geometry\":");
}

// The way to write features.
struct Features;

impl PutValue<Feature> for Features {
    ghost value = { feature_value };

    #[tactic(auto, using(crate::proofs::Rules::features))]
    fn put<O: Out>(feature: &Feature, out: &mut O) {
        put_feature_head(feature.id(), feature.properties(), out);
        put_geometry(feature, out);
        out.put(b"}");
    }
}

/// Puts a collection of features up to the list of these.
pub fn put_collection_head<O: Out>(out: &mut O)
    ensures text { O.text out.new ≡ O.text out.old ++ collection_head }
    ensures kept { (start : Start) → O.good out.old start → O.good out.new start }
{
    out.put(b"{\"type\":\"FeatureCollection\",\"features\":");
}

/// Puts a collection of these features.
#[tactic(auto, using(crate::proofs::Rules::features))]
fn put_collection<O: Out>(features: &[Feature], out: &mut O)
    ensures text { O.text out.new ≡ O.text out.old ++ json_text (collection_value features.now) }
    ensures kept { (start : Start) → O.good out.old start → O.good out.new start }
{
    put_collection_head(out);
    put_array::<Features, Feature, O>(features, out);
    out.put(b"}");
}

/// Puts the features, as `write_features`, as a part of a longer text.
pub fn put_features<O: Out>(features: &FeatureSet, out: &mut O)
    ensures text { O.text out.new ≡ O.text out.old ++ json_text (features_value features.now) }
    ensures kept { (start : Start) → O.good out.old start → O.good out.new start }
{
    match features {
        FeatureSet::One(feature) => Features::put(feature, out),
        FeatureSet::Many(features) => put_collection(features.as_slice(), out),
    }
}

/// Writes the GeoJSON text of the features with no white space, and answers the number of bytes: a Feature, or a
/// FeatureCollection. Coordinates are least decimals, x first, identifiers and properties keep the texts of their
/// numbers, their order and their duplicates, and what is absent in a feature is null, but for the identifier, which is
/// left out. `Write` says how many bytes of the text the device took before it failed. This takes no memory.
pub fn write_features<W: Drain>(
    features: &FeatureSet,
    sink: &mut Sink<W>,
) -> Result<u64, WriteFault>
    ensures { Writes sink.old sink.new 0 (json_text (features_value features.now)) result }
{
    let mut out = Buffered::over(sink);
    put_features(features, &mut out);
    out.end()
}

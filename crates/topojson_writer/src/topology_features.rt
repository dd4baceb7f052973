// Objects of a topology, written as the features that they stand for (RFC 7946, sections 3.2 and 3.3).
ghost use Rattle.std.specs.Prelude.{◌≡◌, ◌++◌, map};
ghost use Rattle.std.specs.List.{AllByRecursion};
ghost use Rattle.std.specs.Option.{option_copied};
ghost use Rattle.byte_ends.specs.Writes.{Writes};
ghost use Rattle.json_value.specs.Text.{json_text};
ghost use Rattle.json_value.specs.declared.json.Json.TheVariants as j;
ghost use Rattle.json_writer.specs.Standing.{Start};
ghost use Rattle.geometry.specs.Lists.{then_some};
ghost use Rattle.topojson_writer.specs.FeatureValues.{collection_value, feature_value, features_value, geometry_value};
ghost use Rattle.topojson_writer.specs.Decoded.{shape_in, feature_in, object_in};
ghost use Rattle.topojson_meaning.specs.ArcTexts.{AreArcTexts};
ghost use Rattle.topojson_types.specs.Topologies.{object_features};
ghost use Rattle.topojson_types.specs.LinesAndRings.{IsShapeOption};

use crate::feature_writer::{put_collection_head, put_feature_head};
use crate::line_source::LineSource;
use crate::topology_shapes::put_shape;
use byte_ends::{Drain, Sink, WriteFault};
use json_writer::{Buffered, Out, put_comma};
use topojson_types::{TopoFeature, TopoObject, TopoShape, Topology};

/// Puts a geometry, or null.
#[tactic(auto, using(json_writer::proofs::Appending::as_part))]
fn put_geometry<O: Out>(topology: &LineSource<'_>, shape: Option<&TopoShape>, out: &mut O)
    requires { IsShapeOption topology.now (option_copied shape) }
    ensures text { O.text out.new ≡ O.text out.old ++ json_text (geometry_value (then_some (shape_in topology.now) (option_copied shape.entry))) }
    ensures kept { (start : Start) → O.good out.old start → O.good out.new start }
{
    match shape {
        None => out.put(b"null"),
        Some(shape) => put_shape(topology, shape, out),
    }
}

/// Puts the feature of a geometry object.
fn put_feature<O: Out>(topology: &LineSource<'_>, feature: &TopoFeature, out: &mut O)
    requires { IsShapeOption topology.now feature.now.shape }
    ensures text { O.text out.new ≡ O.text out.old ++ json_text (feature_value (feature_in topology.now feature.now)) }
    ensures kept { (start : Start) → O.good out.old start → O.good out.new start }
{
    put_feature_head(feature.id.as_ref(), feature.properties.as_ref(), out);
    put_geometry(topology, feature.shape.as_ref(), out);
    out.put(b"}");
}

/// Puts the features of the members of a collection.
#[tactic(auto, using(json_writer::proofs::Appending::begins, json_writer::proofs::Lists::text_by))]
fn put_members<O: Out>(topology: &LineSource<'_>, members: &[TopoFeature], out: &mut O)
    requires { AllByRecursion (λ f. IsShapeOption topology.now f.shape) members.now }
    ensures text { O.text out.new ≡ O.text out.old ++ json_text (j.Array (map feature_value (map (feature_in topology.now) members.now))) }
    ensures kept { (start : Start) → O.good out.old start → O.good out.new start }
{
    out.put(b"[");
    let mut is_first = true;
    'members: for member in members {
        put_comma(is_first, out);
        is_first = false;
        put_feature(topology, member, out);
    }
    out.put(b"]");
}

/// Puts a collection of these features.
#[tactic(auto, using(crate::proofs::Rules::features))]
fn put_collection<O: Out>(topology: &LineSource<'_>, members: &[TopoFeature], out: &mut O)
    requires { AllByRecursion (λ f. IsShapeOption topology.now f.shape) members.now }
    ensures text { O.text out.new ≡ O.text out.old ++ json_text (collection_value (map (feature_in topology.now) members.now)) }
    ensures kept { (start : Start) → O.good out.old start → O.good out.new start }
{
    put_collection_head(out);
    put_members(topology, members, out);
    out.put(b"}");
}

/// Puts the features that an object stands for.
fn put_object<O: Out>(topology: &LineSource<'_>, object: &TopoObject, out: &mut O)
    requires { AllByRecursion (λ f. IsShapeOption topology.now f.shape) (object_features object.now) }
    ensures text { O.text out.new ≡ O.text out.old ++ json_text (features_value (object_in topology.now object.now)) }
    ensures kept { (start : Start) → O.good out.old start → O.good out.new start }
{
    match object {
        TopoObject::One(feature) => put_feature(topology, feature, out),
        TopoObject::Many(members) => put_collection(topology, members.as_slice(), out),
    }
}

/// Writes the GeoJSON text of the features that an object of the topology stands for, as `write_features` does of features that are
/// there: each position is written where a walk along the arcs reaches it. This takes no memory. These texts of the topology's first
/// arcs are copied where a line or a ring goes along one of them forwards, but for a ring that is filled up.
pub fn write_object<W: Drain>(
    topology: &Topology,
    texts: &[Option<&[u8]>],
    object: &TopoObject,
    sink: &mut Sink<W>,
) -> Result<u64, WriteFault>
    requires shapes { AllByRecursion (λ f. IsShapeOption topology.now f.shape) (object_features object.now) }
    requires texts { AreArcTexts topology.now.transform topology.now.arcs texts.now }
    ensures { Writes sink.old sink.new 0 (json_text (features_value (object_in topology.now object.now))) result }
{
    let mut out = Buffered::over(sink);
    let spelled = LineSource::of(topology, texts);
    put_object(&spelled, object, &mut out);
    out.end()
}

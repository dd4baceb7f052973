// Geometry objects with their identifiers and properties as they are written (TopoJSON 1.0, section 2.2).
ghost use Rattle.std.specs.Prelude.{◌≡◌, ◌++◌};
ghost use Rattle.std.specs.Option.{option_copied};
ghost use Rattle.json_value.specs.Text.{json_text};
ghost use Rattle.json_writer.specs.Standing.{Start};
ghost use Rattle.topojson_types.specs.Values.{geometrical_option, id_value, id_members, properties_members, feature_value};
ghost use Rattle.topojson_writer.specs.Texts.{type_text, members_text};

use crate::geometry_writer::{put_parts, type_start};
use geojson_types::{Id, Properties};
use json_writer::{Out, PutValue, put_properties, put_text};
use std::marker::PhantomData;
use topojson_types::{Cell, TopoFeature, TopoShape};

/// Puts an identifier: a text, or a number by its text.
#[tactic(auto, using(json_value::proofs::Texts::texts))]
fn put_id_value<O: Out>(id: &Id, out: &mut O)
    ensures text { O.text out.new ≡ O.text out.old ++ json_text (id_value id.now) }
    ensures kept { (start : Start) → O.good out.old start → O.good out.new start }
{
    match id {
        Id::Text(text) => put_text(text.as_str(), out),
        Id::Number(number) => out.put(number.as_bytes()),
    }
}

/// Puts the member `id` after a comma, if there is an identifier.
#[tactic(auto, using(crate::proofs::Features::parts))]
pub fn put_id<O: Out>(id: Option<&Id>, out: &mut O)
    ensures text { O.text out.new ≡ O.text out.old ++ members_text (id_members (option_copied id.entry)) }
    ensures kept { (start : Start) → O.good out.old start → O.good out.new start }
{
    if let Some(id) = id {
        out.put(b",\"id\":");
        put_id_value(id, out);
    }
}

/// Puts the member `properties` after a comma, if they are an object.
#[tactic(auto, using(crate::proofs::Features::parts))]
fn put_properties_option<O: Out>(properties: &Option<Properties>, out: &mut O)
    ensures text { O.text out.new ≡ O.text out.old ++ members_text (properties_members properties.now) }
    ensures kept { (start : Start) → O.good out.old start → O.good out.new start }
{
    if let Some(properties) = properties {
        out.put(b",\"properties\":");
        put_properties(properties, out);
    }
}

/// The opening brace of a geometry object, and its type, or null.
#[tactic(auto, using(crate::proofs::Features::parts))]
fn option_type_start<C: PutValue<Cell>>(shape: &Option<TopoShape>) -> &'static [u8]
    ensures { result.now ≡ type_text (geometrical_option C.value shape.now) }
{
    match shape {
        None => b"{\"type\":null",
        Some(shape) => type_start::<C>(shape),
    }
}

/// Puts what a geometry has after its type, identifier and properties: nothing, if it is null.
#[tactic(auto, using(crate::proofs::Features::parts))]
fn put_option_parts<C: PutValue<Cell>, O: Out>(shape: &Option<TopoShape>, out: &mut O)
    ensures text { O.text out.new ≡ O.text out.old ++ members_text (geometrical_option C.value shape.now).parts }
    ensures kept { (start : Start) → O.good out.old start → O.good out.new start }
{
    if let Some(shape) = shape {
        put_parts::<C, O>(shape, out);
    }
}

/// Puts a geometry object with its identifier and properties.
#[tactic(auto, using(crate::proofs::Features::features))]
pub fn put_feature<C: PutValue<Cell>, O: Out>(feature: &TopoFeature, out: &mut O)
    ensures text { O.text out.new ≡ O.text out.old ++ json_text (feature_value C.value feature.now) }
    ensures kept { (start : Start) → O.good out.old start → O.good out.new start }
{
    out.put(option_type_start::<C>(&feature.shape));
    put_id(feature.id.as_ref(), out);
    put_properties_option(&feature.properties, out);
    put_option_parts::<C, O>(&feature.shape, out);
    out.put(b"}");
}

/// The way to write features, with their cells in this way.
pub struct Features<C> {
    cells: PhantomData<C>,
}

impl<C: PutValue<Cell>> PutValue<TopoFeature> for Features<C> {
    ghost value = { feature_value C.value };

    fn put<O: Out>(feature: &TopoFeature, out: &mut O) {
        put_feature::<C, O>(feature, out);
    }
}

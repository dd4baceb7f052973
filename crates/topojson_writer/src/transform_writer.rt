// Transforms as they are written (TopoJSON 1.0, section 2.1.2).
ghost use Rattle.std.specs.Prelude.{◌≡◌, ◌++◌, Some};
ghost use Rattle.std.specs.Option.{option_copied};
ghost use Rattle.json_value.specs.Text.{json_text};
ghost use Rattle.json_writer.specs.Standing.{Start};
ghost use Rattle.topojson_types.specs.Values.{pair_value, members_of_transform};
ghost use Rattle.topojson_writer.specs.Texts.{members_text};

use json_writer::Out;
use topojson_types::{Transform, TransformNumber};

/// Puts two numbers by their texts, x first.
#[tactic(auto, using(crate::proofs::Transforms::transforms))]
fn put_numbers<O: Out>(numbers: &(TransformNumber, TransformNumber), out: &mut O)
    ensures text { O.text out.new ≡ O.text out.old ++ json_text (pair_value numbers.now) }
    ensures kept { (start : Start) → O.good out.old start → O.good out.new start }
{
    out.put(b"[");
    out.put(numbers.0.text().as_bytes());
    out.put(b",");
    out.put(numbers.1.text().as_bytes());
    out.put(b"]");
}

/// Puts the member `transform` after a comma.
fn put_transform_member<O: Out>(transform: &Transform, out: &mut O)
    ensures text { O.text out.new ≡ O.text out.old ++ members_text (members_of_transform (Some transform.now)) }
    ensures kept { (start : Start) → O.good out.old start → O.good out.new start }
{
    out.put(b",\"transform\":{\"scale\":");
    put_numbers(&transform.scale, out);
    out.put(b",\"translate\":");
    put_numbers(&transform.translate, out);
    out.put(b"}");
}

/// Puts the member `transform` after a comma, if there is a transform.
#[tactic(auto, using(crate::proofs::GeometryObjects::none))]
pub fn put_transform<O: Out>(transform: Option<&Transform>, out: &mut O)
    ensures text { O.text out.new ≡ O.text out.old ++ members_text (members_of_transform (option_copied transform.entry)) }
    ensures kept { (start : Start) → O.good out.old start → O.good out.new start }
{
    if let Some(transform) = transform {
        put_transform_member(transform, out);
    }
}

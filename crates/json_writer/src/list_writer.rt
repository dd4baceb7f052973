// Lists as they are written, whatever their items are.
ghost use Rattle.std.specs.Prelude.{◌≡◌, ◌++◌, map};
ghost use Rattle.json_writer.specs.Standing.{Start};
ghost use Rattle.json_value.specs.Text.{json_text, member_text};
ghost use Rattle.json_value.specs.declared.json.Json.{Json as Value};
ghost use Rattle.json_value.specs.declared.json.Json.TheVariants as j;

use crate::out::{Out, put_comma};
use crate::value_writer::put_name;
use owned_values::{Items, OwnText};
use std::marker::PhantomData;

/// A way to write items of a type as JSON values.
pub trait PutValue<T> {
    // The value that an item is written as.
    ghost value: { T → Value };

    /// Puts the item's text.
    fn put<O: Out>(item: &T, out: &mut O)
        ensures text { O.text out.new ≡ O.text out.old ++ json_text (value item.now) }
        ensures kept { (start : Start) → O.good out.old start → O.good out.new start };
}

/// Puts the array of the items, each in this way.
pub fn put_array<P: PutValue<T>, T, O: Out>(items: &[T], out: &mut O)
    ensures text { O.text out.new ≡ O.text out.old ++ json_text (j.Array (map P.value items.now)) }
    ensures kept { (start : Start) → O.good out.old start → O.good out.new start }
{
    out.put(b"[");
    let mut is_first = true;
    'items: for item in items {
        put_comma(is_first, out);
        is_first = false;
        P::put(item, out);
    }
    out.put(b"]");
}

/// The way to write a list of items, each in this way, as an array.
pub struct ArrayOf<P> {
    of: PhantomData<P>,
}

impl<T, P: PutValue<T>> PutValue<Items<T>> for ArrayOf<P> {
    ghost value = { λ items. j.Array (map P.value items) };

    fn put<O: Out>(items: &Items<T>, out: &mut O) {
        put_array::<P, T, O>(items.as_slice(), out);
    }
}

/// Puts the name of a member, a colon, and its value in this way.
#[tactic(auto, using(std::proofs::Common::append_assoc))]
fn put_named<P: PutValue<T>, T, O: Out>(name: &OwnText, item: &T, out: &mut O)
    ensures text { O.text out.new ≡ O.text out.old ++ member_text (name.now, json_text (P.value item.now)) }
    ensures kept { (start : Start) → O.good out.old start → O.good out.new start }
{
    put_name(name, out);
    P::put(item, out);
}

/// Puts the object of the members, with each value in this way.
pub fn put_object<P: PutValue<T>, T, O: Out>(members: &[(OwnText, T)], out: &mut O)
    ensures text { O.text out.new ≡ O.text out.old ++ json_text (j.Object (map (λ m. (m.0, P.value m.1)) members.now)) }
    ensures kept { (start : Start) → O.good out.old start → O.good out.new start }
{
    out.put(b"{");
    let mut is_first = true;
    'members: for member in members {
        put_comma(is_first, out);
        is_first = false;
        put_named::<P, T, O>(&member.0, &member.1, out);
    }
    out.put(b"}");
}

// Geometries inside collections (TopoJSON 1.0, section 2.2.7).
ghost use Rattle.std.specs.Prelude.{◌≡◌, ◌++◌, [], ℕ, OnOk, Some, codes, length, option_to_list};
ghost use Rattle.std.specs.Option.{option_copied};
ghost use Rattle.json_value.specs.Members.{Members as Listed, named};
ghost use Rattle.json_cursor.specs.Answers.{Answers};
ghost use Rattle.json_cursor.specs.Arrays.{prefix_elements, prefix_value};
ghost use Rattle.json_cursor.specs.Held.{Finds, FindsValue, IsHeld};
ghost use Rattle.json_cursor.specs.Members.{GoesOn, GoesThrough, TakesAll, prefix_members};
ghost use Rattle.topojson_meaning.specs.Reader.{kept};
ghost use Rattle.topojson_meaning.specs.Shapes.{shape, shapes};
ghost use Rattle.topojson_meaning.specs.declared.geometry_type.GeometryType.TheVariants as types;
ghost use Rattle.topojson_decoder.specs.Geometries.{IsGroup, IsParts, geometry, typed_shape};
ghost use Rattle.topojson_decoder.specs.Members.{GoesOnWith, IsOccurrence, Judges};
ghost use Rattle.topojson_decoder.specs.declared.geometry_parts.Start.{Start as Begun};

use crate::geometry_parts::{GeometryParts, Group, PartType, Start, kind_of, part_of};
use crate::index::is_name;
use crate::keeping::Keeping;
use geojson_types::Counts;
use json_cursor::{Mark, Occurrence, Stop, after_byte, after_others, broken, mark_at, name_at};
use json_reading::{Fault, after_value, skip};
use json_value::Items;
use std::alloc::{AllocFailed, Global};
use std::mem;
use topojson_meaning::{GeometryType, TopoFault};
use topojson_types::{Cell, TopoShape, Transform};

/// What the member `geometries` of a collection is. What was read of it is moved out of there.
fn group_of(
    geometries: &mut Occurrence<Group>,
    counts: &mut Counts,
) -> Result<Option<TopoShape>, Stop<TopoFault>>
    ensures { (start : Begun) (ms : Listed) → IsOccurrence (IsGroup start) (named (codes "geometries") ms) geometries.old
        → Judges (typed_shape start (Some types.Collection) ms) start.counts counts.new result }
{
    match geometries {
        Occurrence::Never => Err(Stop::Fault(TopoFault::Missing)),
        Occurrence::Again => Err(Stop::Fault(TopoFault::Duplicate)),
        Occurrence::Once(group) => {
            *counts = group.counts;
            match mem::replace(&mut group.shapes, Err(TopoFault::Missing)) {
                Err(fault) => Err(Stop::Fault(fault)),
                Ok(shapes) => Ok(Some(TopoShape::Group(shapes))),
            }
        }
    }
}

/// The shape of a geometry of this type whose members were seen so. What was read of them is moved out of there. A null type has none.
#[inline(always)]
pub(crate) fn typed_of(
    alloc: Global,
    depth_left: u32,
    kind: Option<GeometryType>,
    parts: &mut GeometryParts<'_>,
    start: Start<'_>,
    counts: &mut Counts,
) -> Result<Option<TopoShape>, Stop<TopoFault>>
    ensures { (ms : Listed) → IsParts start.entry depth_left ms parts.old → Judges (typed_shape start.entry kind ms) start.entry.counts counts.new result }
{
    match kind {
        None => {
            *counts = start.counts;
            Ok(None)
        }
        Some(kind) => match kind {
            GeometryType::Places(kind) => {
                part_of(
                    alloc,
                    depth_left,
                    PartType::Places(kind),
                    &parts.coordinates,
                    &mut parts.read,
                    start,
                    counts,
                )
            }
            GeometryType::Arcs(kind) => {
                part_of(
                    alloc,
                    depth_left,
                    PartType::Arcs(kind),
                    &parts.arcs,
                    &mut parts.read,
                    start,
                    counts,
                )
            }
            GeometryType::Collection => group_of(&mut parts.geometries, counts),
        },
    }
}

/// The geometry whose members were seen so. What was read of them is moved out of there.
fn shape_of(
    alloc: Global,
    depth_left: u32,
    parts: &mut GeometryParts<'_>,
    start: Start<'_>,
    counts: &mut Counts,
) -> Result<Option<TopoShape>, Stop<TopoFault>>
    ensures { (ms : Listed) → IsParts start.entry depth_left ms parts.old → Judges (geometry start.entry ms) start.entry.counts counts.new result }
{
    match kind_of(&parts.kind) {
        Err(fault) => Err(Stop::Fault(fault)),
        Ok(kind) => typed_of(alloc, depth_left, kind, parts, start, counts),
    }
}

/// Goes on with the value at the front of a member of this name, and gives what follows it.
#[cycle(geometries)]
pub(crate) fn member_value<'a>(
    alloc: Global,
    depth_left: u32,
    parts: &mut GeometryParts<'a>,
    name: &str,
    bytes: &'a [u8],
    start: Start<'a>,
) -> Result<&'a [u8], Fault>
    ensures { GoesOnWith (IsParts start.entry depth_left) depth_left name.now parts.old parts.new bytes.now result }
{
    if is_name(name, "geometries") {
        let mut counts = start.counts;
        let (shapes, rest) = geometries_at(alloc, depth_left, start, bytes, &mut counts)?;
        parts.geometries.see(Group { shapes, counts });
        return Ok(rest);
    }
    parts.value(alloc, depth_left, name, bytes, start)
}

/// Goes on with the member of a geometry at the front, and gives what follows it.
#[cycle(geometries)]
fn member_at<'a>(
    alloc: Global,
    depth_left: u32,
    parts: &mut GeometryParts<'a>,
    bytes: &'a [u8],
    start: Start<'a>,
) -> Result<&'a [u8], Fault>
    ensures { GoesOn (IsParts start.entry depth_left) depth_left parts.old parts.new bytes.now result }
{
    let (name, value) = name_at(alloc, bytes)?;
    member_value(alloc, depth_left, parts, name.as_str(), value, start)
}

/// Goes on with the members of a geometry after its brace, one or more, and gives what follows them. (The loop of `json_cursor` goes over
/// members that don't lead back to it.)
#[cycle(geometries)]
fn members_after<'a>(
    alloc: Global,
    depth_left: u32,
    parts: &mut GeometryParts<'a>,
    inside: &'a [u8],
    start: Start<'a>,
) -> Result<&'a [u8], Fault>
    ensures { TakesAll (IsParts start.entry depth_left) (prefix_members depth_left (length inside.now) inside.now) parts.old parts.new result }
{
    let mut rest = inside;
    'members: for _ in 0..inside.len() {
        let following = member_at(alloc, depth_left, parts, skip(rest), start)?;
        let mark = skip(following);
        if let Some(end) = after_byte(b'}', mark) {
            return Ok(end);
        }
        let Some(more) = after_byte(b',', mark) else {
            return Err(broken(mark));
        };
        rest = more;
    }
    Err(broken(rest))
}

/// Goes on with the members of the object at the front, and gives what follows it; none of what is no object, of which nothing is read.
#[cycle(geometries)]
fn members_at<'a>(
    alloc: Global,
    depth_left: u32,
    parts: &mut GeometryParts<'a>,
    bytes: &'a [u8],
    start: Start<'a>,
) -> Result<Option<&'a [u8]>, Fault>
    ensures { GoesThrough (IsParts start.entry) depth_left bytes.now parts.old parts.new result }
{
    let Some(inside) = after_byte(b'{', bytes) else {
        return Ok(None);
    };
    if depth_left == 0 {
        return Err(broken(inside));
    }
    if let Some(end) = after_byte(b'}', skip(inside)) {
        return Ok(Some(end));
    }
    let rest = members_after(alloc, depth_left - 1, parts, inside, start)?;
    Ok(Some(rest))
}

/// The geometry at the front, which is none where nothing is left of it, or its first fault, and what follows it. What is seen of its members
/// goes into `parts`, which hold none yet, and what is read of them is moved out of there.
#[cycle(geometries)]
fn geometry_into<'a>(
    alloc: Global,
    depth_left: u32,
    parts: &mut GeometryParts<'a>,
    bytes: &'a [u8],
    start: Start<'a>,
    counts: &mut Counts,
) -> Result<(Result<Option<TopoShape>, TopoFault>, &'a [u8]), Fault>
    ensures { ((d : ℕ) → IsParts start.entry d [] parts.old)
        → FindsValue (IsHeld (shape (option_copied start.entry.transform) start.entry.arcs.now) start.entry.counts counts.new) depth_left bytes.now result }
{
    let Some(rest) = members_at(alloc, depth_left, parts, bytes, start)? else {
        let rest = after_value(alloc, depth_left, bytes)?;
        return Ok((Err(TopoFault::WrongKind), rest));
    };
    match shape_of(alloc, depth_left - 1, parts, start, counts) {
        Ok(shape) => Ok((Ok(shape), rest)),
        Err(Stop::Fault(fault)) => Ok((Err(fault), rest)),
        Err(Stop::NoValue) => Err(broken(rest)),
        Err(Stop::Memory) => Err(Fault::Memory),
    }
}

/// The geometry at the front, which is none where nothing is left of it, or its first fault, and what follows it. Its members may stand in any
/// order.
#[cycle(geometries)]
fn held_geometry_at<'a>(
    alloc: Global,
    depth_left: u32,
    by: Start<'a>,
    bytes: &'a [u8],
    counts: &mut Counts,
) -> Result<(Result<Option<TopoShape>, TopoFault>, &'a [u8]), Fault>
    ensures { FindsValue (IsHeld (shape (option_copied by.entry.transform) by.entry.arcs.now) counts.old counts.new) depth_left bytes.now result }
{
    let mut parts = GeometryParts::none();
    geometry_into(
        alloc,
        depth_left,
        &mut parts,
        bytes,
        by.after(*counts),
        counts,
    )
}

/// Puts one after the others, if there is one.
fn push_some(
    read: &mut Vec<TopoShape>,
    one: Option<TopoShape>,
) -> Result<(), AllocFailed<TopoShape>>
    ensures { OnOk result (read.new.items ≡ read.old.items ++ option_to_list one) }
{
    match one {
        None => Ok(()),
        Some(one) => {
            read.push(one)?;
            Ok(())
        }
    }
}

/// The geometries after the bracket of an array, one or more, without those of which nothing is left, or their first fault, and what follows
/// them. Those after a faulty one are passed over.
#[cycle(geometries)]
fn geometries_after<'a>(
    alloc: Global,
    depth_left: u32,
    by: Start<'a>,
    inside: &'a [u8],
    counts: &mut Counts,
) -> Result<(Result<Items<TopoShape>, TopoFault>, &'a [u8]), Fault>
    ensures { Finds (IsHeld (kept (shape (option_copied by.entry.transform) by.entry.arcs.now)) counts.old counts.new) (prefix_elements depth_left (length inside.now) inside.now) result }
{
    let mut read = Vec::new(alloc);
    let mut rest = inside;
    'geometries: for turn in 0..inside.len() {
        let (one, following) = held_geometry_at(alloc, depth_left, by, skip(rest), counts)?;
        match one {
            Err(fault) => {
                let end = after_others(alloc, depth_left, inside.len() - turn, following)?;
                return Ok((Err(fault), end));
            }
            Ok(one) => {
                push_some(&mut read, one)?;
                let (mark, more) = mark_at(following);
                match mark {
                    Mark::Neither => return Err(broken(more)),
                    Mark::Close => return Ok((Ok(Items::of(read)), more)),
                    Mark::Comma => {}
                }
                rest = more;
            }
        }
    }
    Err(broken(rest))
}

/// The geometries of the array at the front, without those of which nothing is left, or their first fault, and what follows it.
#[cycle(geometries)]
fn geometries_at<'a>(
    alloc: Global,
    depth_left: u32,
    by: Start<'a>,
    bytes: &'a [u8],
    counts: &mut Counts,
) -> Result<(Result<Items<TopoShape>, TopoFault>, &'a [u8]), Fault>
    ensures { FindsValue (IsHeld (shapes (option_copied by.entry.transform) by.entry.arcs.now) counts.old counts.new) depth_left bytes.now result }
{
    let Some(inside) = after_byte(b'[', bytes) else {
        let rest = after_value(alloc, depth_left, bytes)?;
        return Ok((Err(TopoFault::WrongKind), rest));
    };
    if depth_left == 0 {
        return Err(broken(inside));
    }
    if let Some(rest) = after_byte(b']', skip(inside)) {
        return Ok((Ok(Items::of(Vec::new(alloc))), rest));
    }
    geometries_after(alloc, depth_left - 1, by, inside, counts)
}

/// The geometry at the front, which is none where nothing is left of it, and what follows it; or why reading stops. Its members may stand
/// in any order.
#[tactic(auto, using(json_cursor::proofs::Steps::found_stops))]
pub fn geometry_at<'a>(
    alloc: Global,
    depth_left: u32,
    transform: Option<&'a Transform>,
    arcs: &'a [Items<Cell>],
    bytes: &'a [u8],
    counts: &mut Counts,
) -> Result<(Option<TopoShape>, &'a [u8]), Stop<TopoFault>>
    ensures { Answers (λ x. x) (shape (option_copied transform.entry) arcs.now) (prefix_value depth_left bytes.now) counts.old counts.new result }
{
    let start = Start {
        transform,
        arcs,
        counts: *counts,
        keeping: Keeping::Whole(None),
    };
    let (held, rest) = held_geometry_at(alloc, depth_left, start, bytes, counts)?;
    match held {
        Ok(shape) => Ok((shape, rest)),
        Err(fault) => Err(Stop::Fault(fault)),
    }
}

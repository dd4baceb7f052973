// The names of the members of layers and topologies.
ghost use Rattle.std.specs.Prelude.{◌≡◌, true};
ghost use Rattle.json_reading.specs.Strings.{simple};

use json_cursor::named_at;
use std::alloc::Global;
use topojson_decoder::member_at;

/// The name of a member, if it is one that is read in some part of a layer (RFC 7946) or of a topology (TopoJSON 1.0), or counted by itself.
#[derive(Clone, Copy, PartialEq, Eq)]
pub(crate) enum MemberName {
    Type,
    Id,
    Properties,
    Geometry,
    Features,
    Geometries,
    Coordinates,
    Arcs,
    Bbox,
    Crs,
    Transform,
    Objects,
    Scale,
    Translate,
    /// Any other.
    Other,
}

/// These names, as they are written.
const NAMES: [(&str, MemberName); 14] = [
    ("type", MemberName::Type),
    ("id", MemberName::Id),
    ("properties", MemberName::Properties),
    ("geometry", MemberName::Geometry),
    ("features", MemberName::Features),
    ("geometries", MemberName::Geometries),
    ("coordinates", MemberName::Coordinates),
    ("arcs", MemberName::Arcs),
    ("bbox", MemberName::Bbox),
    ("crs", MemberName::Crs),
    ("transform", MemberName::Transform),
    ("objects", MemberName::Objects),
    ("scale", MemberName::Scale),
    ("translate", MemberName::Translate),
];

/// Which of them this text is.
fn name_of(text: &str) -> MemberName {
    for known in &NAMES {
        if text == known.0 {
            return known.1;
        }
    }
    MemberName::Other
}

/// The name of the member at the front, whatever it is, and where its value begins; nothing for want of memory.
#[inline(never)]
fn any_member(alloc: Global, bytes: &[u8]) -> Option<(MemberName, &[u8])> {
    let (name, value) = member_at(alloc, bytes)?;
    Some((name_of(name.as_str()), value))
}

/// This name, and where its value begins, if the member at the front has it as this word.
#[inline(always)]
fn member_if<'a>(
    name: MemberName,
    word: &'static str,
    bytes: &'a [u8],
) -> Option<(MemberName, &'a [u8])>
    requires { simple word.now ≡ true }
{
    let Some((_found, value)) = named_at(word, bytes) else {
        return None;
    };
    Some((name, value))
}

/// The name of the member at the front, if it is one that most have and stands there as it is, and where its value begins.
#[inline(always)]
fn common_member(bytes: &[u8]) -> Option<(MemberName, &[u8])> {
    let [_, letter, ..] = bytes else {
        return None;
    };
    match letter {
        b't' => member_if(MemberName::Type, "type", bytes),
        b'i' => member_if(MemberName::Id, "id", bytes),
        b'p' => member_if(MemberName::Properties, "properties", bytes),
        b'g' => member_if(MemberName::Geometry, "geometry", bytes),
        b'c' => member_if(MemberName::Coordinates, "coordinates", bytes),
        b'a' => member_if(MemberName::Arcs, "arcs", bytes),
        _ => None,
    }
}

/// The name of the member at the front, and where its value begins; nothing for want of memory.
#[inline(always)]
pub(crate) fn named_member(alloc: Global, bytes: &[u8]) -> Option<(MemberName, &[u8])> {
    match common_member(bytes) {
        Some(found) => Some(found),
        None => any_member(alloc, bytes),
    }
}

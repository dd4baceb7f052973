// The types of geometry objects (TopoJSON 1.0, section 2.2).
ghost use Rattle.std.specs.Prelude.{◌≡◌, IfSome, Some, true};
ghost use Rattle.json_reading.specs.Strings.{simple};
ghost use Rattle.topojson_meaning.specs.GeometryTypes as spec;
ghost use Rattle.topojson_decoder.specs.TypeNames.{IsTypeAt};

use crate::feature_parts::first_letter;
use json_cursor::word_at;
use topojson_meaning::{ArcsType, GeometryType, PlacesType};

/// The type of this name.
#[tactic(auto, unfolding(topojson_meaning::specs::GeometryTypes::geometry_type))]
pub(crate) fn geometry_type(name: &str) -> Option<GeometryType>
    ensures { result ≡ spec.geometry_type name.now }
{
    if name == "Point" {
        Some(GeometryType::Places(PlacesType::Point))
    } else if name == "MultiPoint" {
        Some(GeometryType::Places(PlacesType::MultiPoint))
    } else if name == "LineString" {
        Some(GeometryType::Arcs(ArcsType::LineString))
    } else if name == "MultiLineString" {
        Some(GeometryType::Arcs(ArcsType::MultiLineString))
    } else if name == "Polygon" {
        Some(GeometryType::Arcs(ArcsType::Polygon))
    } else if name == "MultiPolygon" {
        Some(GeometryType::Arcs(ArcsType::MultiPolygon))
    } else if name == "GeometryCollection" {
        Some(GeometryType::Collection)
    } else {
        None
    }
}

/// This type, whose name is the string at the front and stands there as it is, and what follows it.
#[inline(always)]
fn type_named<'a>(
    name: &'static str,
    kind: GeometryType,
    bytes: &'a [u8],
) -> Option<(GeometryType, &'a [u8])>
    requires plain { simple name.now ≡ true }
    requires own { spec.geometry_type name.now ≡ Some kind }
    ensures { IfSome result (λ x. IsTypeAt bytes.now x.0 x.1) }
{
    let Some((_found, rest)) = word_at(name, bytes) else {
        return None;
    };
    Some((kind, rest))
}

/// The type whose name is the string at the front, and what follows it, if it is one of those that are looked for first, by the first letter
/// of its name, and stands there as it is.
#[inline(always)]
#[tactic(auto, unfolding(topojson_meaning::specs::GeometryTypes::geometry_type))]
pub(crate) fn plain_type_at<'a>(bytes: &'a [u8]) -> Option<(GeometryType, &'a [u8])>
    ensures { IfSome result (λ x. IsTypeAt bytes.now x.0 x.1) }
{
    match first_letter(bytes) {
        b'P' => {
            if let Some(found) = type_named(
                "Point",
                GeometryType::Places(PlacesType::Point),
                bytes,
            ) {
                return Some(found);
            }
            type_named("Polygon", GeometryType::Arcs(ArcsType::Polygon), bytes)
        }
        b'L' => type_named(
            "LineString",
            GeometryType::Arcs(ArcsType::LineString),
            bytes,
        ),
        b'M' => type_named(
            "MultiPolygon",
            GeometryType::Arcs(ArcsType::MultiPolygon),
            bytes,
        ),
        _ => None,
    }
}

/// Whether it is the type of a collection.
pub(crate) fn is_collection(geometry: Option<GeometryType>) -> bool
    ensures { result ≡ spec.is_collection geometry }
{
    match geometry {
        None => false,
        Some(GeometryType::Places(_)) => false,
        Some(GeometryType::Arcs(_)) => false,
        Some(GeometryType::Collection) => true,
    }
}

// The names of types.
ghost use Rattle.json_cursor.specs.Members.{ReadsString};

use json_cursor::{Name, string_at, word_at};
use json_reading::Fault;
use std::alloc::Global;

/// The string at the front, and what follows it; none of a value that is no string. The names of the types that most values have in layers
/// are looked for first.
#[inline(always)]
pub(crate) fn type_name_at<'a>(
    alloc: Global,
    bytes: &'a [u8],
) -> Result<Option<(Name<'a>, &'a [u8])>, Fault>
    ensures { ReadsString bytes.now result }
{
    if let Some(found) = word_at("Feature", bytes) {
        return Ok(Some(found));
    }
    if let Some(found) = word_at("Polygon", bytes) {
        return Ok(Some(found));
    }
    if let Some(found) = word_at("Point", bytes) {
        return Ok(Some(found));
    }
    if let Some(found) = word_at("LineString", bytes) {
        return Ok(Some(found));
    }
    if let Some(found) = word_at("MultiPolygon", bytes) {
        return Ok(Some(found));
    }
    string_at(alloc, bytes)
}

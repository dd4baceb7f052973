// What features are made of besides their geometry.
ghost use Rattle.std.specs.Prelude.{◌≡◌};
ghost use Rattle.json_value.specs.Answers.{Finds};
ghost use Rattle.geojson_meaning.specs.Features as spec;

use crate::fault::GeoFaultKind;
use geojson_types::Id;
use json_value::Json;

/// The identifier that the member `id` of a feature gives (RFC 7946, section 3.2). Absent and null are none. The fault is `WrongKind`.
pub fn identifier(value: Option<Json>) -> Result<Option<Id>, GeoFaultKind>
    ensures { Finds (λ id. id) result (spec.identifier value) }
{
    match value {
        None => Ok(None),
        Some(Json::Null) => Ok(None),
        Some(Json::Text(text)) => Ok(Some(Id::Text(text))),
        Some(Json::Number(number)) => Ok(Some(Id::Number(number))),
        Some(_) => Err(GeoFaultKind::WrongKind),
    }
}

// Positions of a layer's tree.
use geojson_meaning::{GeoFaultKind, INPUT_LIMIT, PLACES, Position};
use json_value::Json;

/// The coordinate that a value is, in units.
fn coordinate(value: &Json, exact: bool) -> Result<i64, GeoFaultKind> {
    let Some(number) = value.as_number() else {
        return Err(GeoFaultKind::WrongKind);
    };
    match number.scaled(PLACES, i128::from(INPUT_LIMIT)) {
        Err(_) => Err(GeoFaultKind::Range),
        Ok(scaled) => {
            if exact && !scaled.exact {
                return Err(GeoFaultKind::Inexact);
            }
            Ok(scaled.value as i64)
        }
    }
}

/// The position that a value is, or its first fault.
pub(crate) fn position(value: &Json, exact: bool) -> Result<Position, GeoFaultKind> {
    let Some(elements) = value.as_array() else {
        return Err(GeoFaultKind::WrongKind);
    };
    match elements {
        [x, y, ..] => {
            let x = coordinate(x, exact)?;
            let y = coordinate(y, exact)?;
            Position::new(x, y).ok_or(GeoFaultKind::Range)
        }
        _ => Err(GeoFaultKind::ShortPosition),
    }
}

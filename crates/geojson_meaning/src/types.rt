// The types of GeoJSON objects by their names.
ghost use Rattle.std.specs.Prelude.{◌≡◌};
ghost use Rattle.geojson_meaning.specs.Types as spec;

/// The geometry types that have `coordinates` (RFC 7946, section 3.1).
#[derive(Clone, Copy, Debug)]
pub enum CoordinatesType {
    Point,
    MultiPoint,
    LineString,
    MultiLineString,
    Polygon,
    MultiPolygon,
}

/// The seven geometry types (RFC 7946, section 1.4). A GeometryCollection has `geometries`.
#[derive(Clone, Copy, Debug)]
pub enum GeometryType {
    Coordinates(CoordinatesType),
    Collection,
}

/// The nine GeoJSON types (RFC 7946, section 1.4).
#[derive(Clone, Copy, Debug)]
pub enum GeoJsonType {
    FeatureCollection,
    Feature,
    Geometry(GeometryType),
}

/// The type of this name that has `coordinates`.
#[tactic(auto, unfolding(crate::specs::Types::coordinates_type))]
fn coordinates_type(name: &str) -> Option<CoordinatesType>
    ensures { result ≡ spec.coordinates_type name.now }
{
    if name == "Point" {
        Some(CoordinatesType::Point)
    } else if name == "MultiPoint" {
        Some(CoordinatesType::MultiPoint)
    } else if name == "LineString" {
        Some(CoordinatesType::LineString)
    } else if name == "MultiLineString" {
        Some(CoordinatesType::MultiLineString)
    } else if name == "Polygon" {
        Some(CoordinatesType::Polygon)
    } else if name == "MultiPolygon" {
        Some(CoordinatesType::MultiPolygon)
    } else {
        None
    }
}

/// The geometry type of this name.
#[tactic(auto, unfolding(crate::specs::Types::geometry_type))]
pub fn geometry_type(name: &str) -> Option<GeometryType>
    ensures { result ≡ spec.geometry_type name.now }
{
    if name == "GeometryCollection" {
        return Some(GeometryType::Collection);
    }
    match coordinates_type(name) {
        None => None,
        Some(coordinates) => Some(GeometryType::Coordinates(coordinates)),
    }
}

/// The GeoJSON type of this name.
#[tactic(auto, unfolding(crate::specs::Types::geojson_type))]
pub fn geojson_type(name: &str) -> Option<GeoJsonType>
    ensures { result ≡ spec.geojson_type name.now }
{
    if name == "FeatureCollection" {
        return Some(GeoJsonType::FeatureCollection);
    }
    if name == "Feature" {
        return Some(GeoJsonType::Feature);
    }
    match geometry_type(name) {
        None => None,
        Some(geometry) => Some(GeoJsonType::Geometry(geometry)),
    }
}

// The geometry types (TopoJSON 1.0, section 2.2), by the member that a geometry of the type is made of.

/// The types that have `coordinates` (sections 2.2.1 and 2.2.2).
#[derive(Clone, Copy, Debug)]
pub enum PlacesType {
    Point,
    MultiPoint,
}

/// The types that have `arcs` (sections 2.2.3 to 2.2.6).
#[derive(Clone, Copy, Debug)]
pub enum ArcsType {
    LineString,
    MultiLineString,
    Polygon,
    MultiPolygon,
}

/// All seven: those, and the type that has `geometries` (section 2.2.7).
#[derive(Clone, Copy, Debug)]
pub enum GeometryType {
    Places(PlacesType),
    Arcs(ArcsType),
    Collection,
}

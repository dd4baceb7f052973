use crate::position::Position;
use crate::ring::Ring;
use owned_values::Items;

/// A geometry (RFC 7946, section 3.1) over positions `P`, lines `L` and rings `R`, with the RFC's type beside
/// each kind. The first ring of an area is the outer one.
#[derive(Debug, Drop)]
pub enum Geometry<P, L, R> {
    /// Point
    Point(P),
    /// MultiPoint
    MultiPoint(Items<P>),
    /// LineString
    Line(L),
    /// MultiLineString
    Lines(Items<L>),
    /// Polygon
    Area(Items<R>),
    /// MultiPolygon
    Areas(Items<Items<R>>),
    /// GeometryCollection
    Group(Items<Geometry<P, L, R>>),
}

/// A geometry of a layer, over its positions.
pub type Shape = Geometry<Position, Items<Position>, Ring>;

// The least and the greatest coordinates of layers.
ghost use Rattle.std.specs.Prelude.{◌≡◌, None};
ghost use Rattle.std.specs.Option.{option_copied};
ghost use Rattle.geometry.specs.Lists.{joined};
ghost use Rattle.geojson_types.specs.Places.{features_points, option_points, shape_points};
ghost use Rattle.grid_snap.specs.Bounds.{widened, widened_by};
ghost use Rattle.grid_snap.specs.Snapping.{layers_points};

use geojson_types::{Feature, Geometry, Layer, Position, Ring, Shape};
use json_value::Items;

/// The least and the greatest coordinates, in units.
#[derive(Clone, Copy)]
pub struct Bounds {
    pub left: i64,
    pub right: i64,
    pub bottom: i64,
    pub top: i64,
}

/// With what has these coordinates.
pub fn widen_to(bounds: Option<Bounds>, x: i64, y: i64) -> Bounds
    ensures { result ≡ widened bounds (record { x = x; y = y }) }
{
    match bounds {
        None => Bounds {
            left: x,
            right: x,
            bottom: y,
            top: y,
        },
        Some(b) => Bounds {
            left: b.left.min(x),
            right: b.right.max(x),
            bottom: b.bottom.min(y),
            top: b.top.max(y),
        },
    }
}

/// With one position more.
fn widen(bounds: Option<Bounds>, position: Position) -> Bounds
    ensures { result ≡ widened bounds position }
{
    widen_to(bounds, position.x(), position.y())
}

/// With the positions of a line.
#[tactic(auto, using(crate::proofs::Widening::starts, crate::proofs::Widening::turns, crate::proofs::Widening::ends, crate::proofs::Widening::singles))]
pub fn with_positions(bounds: Option<Bounds>, positions: &[Position]) -> Option<Bounds>
    ensures { result ≡ widened_by bounds positions.now }
{
    let mut all = bounds;
    'positions: for position in positions {
        all = Some(widen(all, *position));
    }
    all
}

/// With those of lines.
#[tactic(auto, using(crate::proofs::Widening::starts, crate::proofs::Widening::turns, crate::proofs::Widening::ends, crate::proofs::Widening::lists_of))]
fn with_lines(bounds: Option<Bounds>, lines: &[Items<Position>]) -> Option<Bounds>
    ensures { result ≡ widened_by bounds (joined lines.now) }
{
    let mut all = bounds;
    'lines: for line in lines {
        all = with_positions(all, line.as_slice());
    }
    all
}

/// With those of rings.
#[tactic(auto, using(crate::proofs::Widening::starts, crate::proofs::Widening::turns, crate::proofs::Widening::ends, crate::proofs::Widening::lists_of))]
fn with_rings(bounds: Option<Bounds>, rings: &[Ring]) -> Option<Bounds>
    ensures { result ≡ widened_by bounds (joined rings.now) }
{
    let mut all = bounds;
    'rings: for ring in rings {
        all = with_positions(all, ring.as_slice());
    }
    all
}

/// With those of the rings of polygons.
#[tactic(auto, using(crate::proofs::Widening::starts, crate::proofs::Widening::turns, crate::proofs::Widening::ends, crate::proofs::Widening::nested))]
fn with_areas(bounds: Option<Bounds>, areas: &[Items<Ring>]) -> Option<Bounds>
    ensures { result ≡ widened_by bounds (joined (joined areas.now)) }
{
    let mut all = bounds;
    'areas: for area in areas {
        all = with_rings(all, area.as_slice());
    }
    all
}

/// With those of a shape.
fn with_shape(bounds: Option<Bounds>, shape: &Shape) -> Option<Bounds>
    ensures { result ≡ widened_by bounds (shape_points shape.now) }
{
    match shape {
        Geometry::Point(position) => Some(widen(bounds, *position)),
        Geometry::MultiPoint(positions) => with_positions(bounds, positions.as_slice()),
        Geometry::Line(positions) => with_positions(bounds, positions.as_slice()),
        Geometry::Lines(lines) => with_lines(bounds, lines.as_slice()),
        Geometry::Area(rings) => with_rings(bounds, rings.as_slice()),
        Geometry::Areas(areas) => with_areas(bounds, areas.as_slice()),
        Geometry::Group(shapes) => {
            let mut all = bounds;
            'shapes: for shape in shapes.as_slice() {
                all = with_shape(all, shape);
            }
            all
        }
    }
}

/// With those of a shape that may be null.
fn with_option(bounds: Option<Bounds>, shape: Option<&Shape>) -> Option<Bounds>
    ensures { result ≡ widened_by bounds (option_points (option_copied shape.entry)) }
{
    match shape {
        None => bounds,
        Some(shape) => with_shape(bounds, shape),
    }
}

/// The bounds with the positions of features.
#[tactic(auto, using(crate::proofs::Widening::starts, crate::proofs::Widening::turns, crate::proofs::Widening::ends))]
fn with_features(bounds: Option<Bounds>, features: &[Feature]) -> Option<Bounds>
    ensures { result ≡ widened_by bounds (features_points features.now) }
{
    let mut all = bounds;
    'features: for feature in features {
        all = with_option(all, feature.shape());
    }
    all
}

/// The bounds of layers, if there is a position.
#[tactic(auto, using(crate::proofs::Widening::starts, crate::proofs::Widening::turns, crate::proofs::Widening::ends))]
pub(crate) fn bounds_of(layers: &[Layer]) -> Option<Bounds>
    ensures { result ≡ widened_by None (layers_points layers.now) }
{
    let mut all = None;
    'layers: for layer in layers {
        all = with_features(all, layer.features.as_slice());
    }
    all
}

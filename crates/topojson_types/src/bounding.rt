// The least box that holds the cells of a topology.
ghost use Rattle.std.specs.Prelude.{◌≡◌, None, Some};
ghost use Rattle.std.specs.Int.{int_min, int_max};
ghost use Rattle.std.specs.Option.{option_copied};
ghost use Rattle.geometry.specs.Lists.{joined};
ghost use Rattle.topojson_types.specs.Topologies.{object_features};
ghost use Rattle.topojson_types.specs.Validity.{places, option_places, features_places, objects_places};
ghost use Rattle.topojson_types.specs.Widening.{widened, widened_by};

use crate::cell::Cell;
use crate::feature::{TopoFeature, TopoShape};
use crate::object::TopoObject;
use geojson_types::Geometry;
use json_value::{Items, OwnText};

/// A box: the corner of its least numbers, and that of its greatest.
pub type Corners = (Cell, Cell);

/// The lesser of both x, and of both y.
#[tactic(auto, using(crate::proofs::Boxes::min_passed))]
fn lesser(one: Cell, other: Cell) -> Cell
    ensures { result ≡ record { x = int_min one.x other.x; y = int_min one.y other.y } }
{
    Cell::at(one.x().min(other.x()), one.y().min(other.y()))
}

/// The greater of both x, and of both y.
#[tactic(auto, using(crate::proofs::Boxes::max_passed))]
fn greater(one: Cell, other: Cell) -> Cell
    ensures { result ≡ record { x = int_max one.x other.x; y = int_max one.y other.y } }
{
    Cell::at(one.x().max(other.x()), one.y().max(other.y()))
}

/// With one cell more.
fn widen(bounds: Option<Corners>, cell: Cell) -> Corners
    ensures { result ≡ widened bounds cell }
{
    match bounds {
        None => (cell, cell),
        Some((least, greatest)) => (lesser(least, cell), greater(greatest, cell)),
    }
}

/// The box with these cells.
fn around_cells(corners: Corners, cells: &[Cell]) -> Corners
    ensures { Some result ≡ widened_by (Some corners) cells.now }
{
    let (mut least, mut greatest) = corners;
    'cells: for cell in cells {
        least = lesser(least, *cell);
        greatest = greater(greatest, *cell);
    }
    (least, greatest)
}

/// With these cells.
fn with_cells(bounds: Option<Corners>, cells: &[Cell]) -> Option<Corners>
    ensures { result ≡ widened_by bounds cells.now }
{
    let Some((first, later)) = cells.split_first() else {
        return bounds;
    };
    Some(around_cells(widen(bounds, *first), later))
}

/// With the cells of arcs.
#[tactic(auto, using(crate::proofs::Boxes::turns, crate::proofs::Boxes::ends, crate::proofs::Boxes::lists_of))]
pub fn with_arcs(bounds: Option<Corners>, arcs: &[Items<Cell>]) -> Option<Corners>
    ensures { result ≡ widened_by bounds (joined arcs.now) }
{
    let mut all = bounds;
    'arcs: for arc in arcs {
        all = with_cells(all, arc.as_slice());
    }
    all
}

/// With those of the Points and MultiPoints of a shape.
fn with_shape(bounds: Option<Corners>, shape: &TopoShape) -> Option<Corners>
    ensures { result ≡ widened_by bounds (places shape.now) }
{
    match shape {
        Geometry::Point(cell) => Some(widen(bounds, *cell)),
        Geometry::MultiPoint(cells) => with_cells(bounds, cells.as_slice()),
        Geometry::Line(_) => bounds,
        Geometry::Lines(_) => bounds,
        Geometry::Area(_) => bounds,
        Geometry::Areas(_) => bounds,
        Geometry::Group(shapes) => {
            let mut all = bounds;
            'shapes: for shape in shapes.as_slice() {
                all = with_shape(all, shape);
            }
            all
        }
    }
}

/// With those of a shape that may be null.
fn with_option(bounds: Option<Corners>, shape: Option<&TopoShape>) -> Option<Corners>
    ensures { result ≡ widened_by bounds (option_places (option_copied shape.entry)) }
{
    match shape {
        None => bounds,
        Some(shape) => with_shape(bounds, shape),
    }
}

/// With those of features.
#[tactic(auto, using(crate::proofs::Boxes::turns))]
fn with_features(bounds: Option<Corners>, features: &[TopoFeature]) -> Option<Corners>
    ensures { result ≡ widened_by bounds (features_places features.now) }
{
    let mut all = bounds;
    'features: for feature in features {
        all = with_option(all, feature.shape.as_ref());
    }
    all
}

/// The box of the Points and MultiPoints of features, if there is one.
pub fn corners_of(features: &[TopoFeature]) -> Option<Corners>
    ensures { result ≡ widened_by None (features_places features.now) }
{
    with_features(None, features)
}

/// With those of an object.
fn with_object(bounds: Option<Corners>, object: &TopoObject) -> Option<Corners>
    ensures { result ≡ widened_by bounds (features_places (object_features object.now)) }
{
    match object {
        TopoObject::One(feature) => with_option(bounds, feature.shape.as_ref()),
        TopoObject::Many(features) => with_features(bounds, features.as_slice()),
    }
}

/// With those of objects.
#[tactic(auto, using(crate::proofs::Boxes::turns))]
pub fn with_objects(bounds: Option<Corners>, objects: &[(OwnText, TopoObject)]) -> Option<Corners>
    ensures { result ≡ widened_by bounds (objects_places objects.now) }
{
    let mut all = bounds;
    'objects: for object in objects {
        all = with_object(all, &object.1);
    }
    all
}

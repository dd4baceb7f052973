// The positions that the features of objects have when they are decoded, without decoding them.
ghost use Rattle.std.specs.Prelude.{◌≡◌, ◌-◌, length, map, sum_by, true};
ghost use Rattle.byte_ends.specs.Ends.{saturated};
ghost use Rattle.geometry.specs.Joins.{arc_at, stitched};
ghost use Rattle.topojson_types.specs.Decoding.{placed_arcs};
ghost use Rattle.reports.specs.Positions as spec;
ghost use Rattle.reports.specs.Positions.{feature_length, line_length, shape_length};

use crate::losing::features_in;
use geojson_types::Geometry;
use geometry::ArcRef;
use json_value::Items;
use topojson_types::{TopoFeature, TopoObject, TopoShape, Topology};

/// The fewest positions of a ring (RFC 7946, section 3.1.6).
const RING_POSITIONS: u64 = 4;

/// Those of the arc that an index names.
#[tactic(auto, using(crate::proofs::Decoded::arc_is, crate::proofs::Decoded::no_arc))]
fn arc_positions(topology: &Topology, index: ArcRef) -> u64
    ensures { result ≡ length (arc_at (placed_arcs topology.now.transform topology.now.arcs) index) }
{
    match topology.arcs().get(index.index()) {
        None => 0,
        Some(cells) => cells.len() as u64,
    }
}

/// Those of the arcs that these indexes name, each without its first, which the arc before has too.
fn later_positions(topology: &Topology, refs: &[ArcRef]) -> u64
    ensures { result ≡ saturated (sum_by (λ r. length (arc_at (placed_arcs topology.now.transform topology.now.arcs) r) - 1) refs.now) }
{
    let mut count: u64 = 0;
    'refs: for index in refs {
        let more = arc_positions(topology, *index).saturating_sub(1);
        count = count.saturating_add(more);
    }
    count
}

/// Those of the arcs that these indexes name, put together.
fn stitched_positions(topology: &Topology, refs: &[ArcRef]) -> u64
    ensures { result ≡ saturated (length (stitched (map (arc_at (placed_arcs topology.now.transform topology.now.arcs)) refs.now))) }
{
    match refs {
        [] => 0,
        [first, later @ ..] => {
            arc_positions(topology, *first).saturating_add(later_positions(topology, later))
        }
    }
}

/// Those of an open line, or of a ring, which is filled up to four.
#[tactic(auto, using(crate::proofs::Decoded::line_is, crate::proofs::Decoded::ring_is))]
fn line_positions(topology: &Topology, refs: &[ArcRef], is_ring: bool) -> u64
    ensures { result ≡ saturated (line_length topology.now is_ring refs.now) }
{
    let count = stitched_positions(topology, refs);
    if is_ring && count > 0 {
        return count.max(RING_POSITIONS);
    }
    count
}

/// Those of open lines, or of rings.
fn lines_positions(topology: &Topology, lines: &[Items<ArcRef>], are_rings: bool) -> u64
    ensures { result ≡ saturated (sum_by (line_length topology.now are_rings) lines.now) }
{
    let mut count: u64 = 0;
    'lines: for line in lines {
        count = count.saturating_add(line_positions(topology, line.as_slice(), are_rings));
    }
    count
}

/// Those of the rings of polygons.
fn areas_positions(topology: &Topology, areas: &[Items<Items<ArcRef>>]) -> u64
    ensures { result ≡ saturated (sum_by (λ rs. sum_by (line_length topology.now true) rs) areas.now) }
{
    let mut count: u64 = 0;
    'areas: for rings in areas {
        count = count.saturating_add(lines_positions(topology, rings.as_slice(), true));
    }
    count
}

/// Those of a shape.
fn shape_positions(topology: &Topology, shape: &TopoShape) -> u64
    ensures { result ≡ saturated (shape_length topology.now shape.now) }
{
    match shape {
        Geometry::Point(_) => 1,
        Geometry::MultiPoint(cells) => cells.len() as u64,
        Geometry::Line(refs) => line_positions(topology, refs.as_slice(), false),
        Geometry::Lines(lines) => lines_positions(topology, lines.as_slice(), false),
        Geometry::Area(rings) => lines_positions(topology, rings.as_slice(), true),
        Geometry::Areas(areas) => areas_positions(topology, areas.as_slice()),
        Geometry::Group(shapes) => {
            let mut count: u64 = 0;
            'shapes: for shape in shapes.as_slice() {
                count = count.saturating_add(shape_positions(topology, shape));
            }
            count
        }
    }
}

/// Those of a feature.
fn feature_positions(topology: &Topology, feature: &TopoFeature) -> u64
    ensures { result ≡ saturated (feature_length topology.now feature.now) }
{
    match &feature.shape {
        None => 0,
        Some(shape) => shape_positions(topology, shape),
    }
}

/// How many positions the features have that an object stands for (TopoJSON 1.0, section 2), each line and ring as its arcs put together: a
/// count that stays at `u64::MAX` once it is there. It takes a step for each arc index of the object, however long its arcs are.
pub fn decoded_positions(topology: &Topology, object: &TopoObject) -> u64
    ensures { result ≡ spec.decoded_positions topology.now object.now }
{
    let mut count: u64 = 0;
    'features: for feature in features_in(object) {
        count = count.saturating_add(feature_positions(topology, feature));
    }
    count
}

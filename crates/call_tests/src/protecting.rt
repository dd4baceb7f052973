// Which rings of a topology are asked to stay, and the ways to their polygons. That they are the definition's is proved: these show that memory
// isn't always refused, and the answers of small maps that were worked out by hand.
use crate::simplifying::topology_of;
use owned_values::{Items, Memory};
use std::alloc::Global;
use topo_model::{placed_arcs, protected_rings};
use topojson_types::{ArcRef, Topology};

/// Whether a ring was found at the end of this way.
fn is_at(way: &Option<Vec<usize>>, steps: &[usize]) -> bool {
    match way {
        Some(found) => found.as_slice() == steps,
        None => false,
    }
}

/// Whether the ring is that of one arc, with this index.
fn is_of(ring: &Items<ArcRef>, written: i64) -> bool {
    match ring.as_slice() {
        [arc] => arc.written() == written,
        _ => false,
    }
}

/// Of the features of a topology the ways to the rings that are to stay, and these rings.
fn protected_of(
    alloc: Global,
    topology: &Topology,
) -> Result<(Vec<Option<Vec<usize>>>, Vec<Items<ArcRef>>), Memory> {
    let placed = placed_arcs(alloc, topology.arcs(), topology.transform())?;
    protected_rings(alloc, topology.objects(), &placed)
}

/// Those of the topology of a text.
fn rings_of(alloc: Global, text: &[u8]) -> Option<(Vec<Option<Vec<usize>>>, Vec<Items<ArcRef>>)> {
    let topology = topology_of(alloc, text)?;
    protected_of(alloc, &topology).ok()
}

/// Whether of three features each keeps the ring of the arc with its index, at the end of its way.
fn are_kept(
    ways: &[Option<Vec<usize>>],
    rings: &[Items<ArcRef>],
    first: (&[usize], i64),
    second: (&[usize], i64),
    third: (&[usize], i64),
) -> bool {
    match (ways, rings) {
        ([a, b, c], [one, two, three]) => {
            is_at(a, first.0)
                && is_at(b, second.0)
                && is_at(c, third.0)
                && is_of(one, first.1)
                && is_of(two, second.1)
                && is_of(three, third.1)
        }
        _ => false,
    }
}

/// The same of the topology of a text.
fn keep(
    alloc: Global,
    text: &[u8],
    first: (&[usize], i64),
    second: (&[usize], i64),
    third: (&[usize], i64),
) -> bool {
    match rings_of(alloc, text) {
        Some((ways, rings)) => are_kept(&ways, &rings, first, second, third),
        None => false,
    }
}

// A polygon whose hole is greater than its outer ring, two islands of which the second is the greater and runs the other way, and two that enclose alike.
const ISLANDS: &[u8] =
    b"{\"type\":\"Topology\",\"objects\":{\"a\":{\"type\":\"GeometryCollection\",\"geometries\":[{\"type\":\"Polygon\",\"arcs\":[[0],[2]]},{\"type\":\"MultiPolygon\",\"arcs\":[[[0]],[[-3]]]},{\"type\":\"MultiPolygon\",\"arcs\":[[[1]],[[0]]]}]}},\"arcs\":[[[0,0],[1,0],[0,1],[0,0]],[[5,0],[6,0],[5,1],[5,0]],[[9,0],[9,2],[11,0],[9,0]]]}";

// Three polygons in a collection in a collection, of which the last encloses most; two of which the first has three positions, with equal neighbours
// as one, and the second four; and an object that is no collection. They are on a grid.
const PARTS: &[u8] =
    b"{\"type\":\"Topology\",\"transform\":{\"scale\":[2,3],\"translate\":[1,1]},\"objects\":{\"a\":{\"type\":\"GeometryCollection\",\"geometries\":[{\"type\":\"GeometryCollection\",\"geometries\":[{\"type\":\"LineString\",\"arcs\":[0]},{\"type\":\"GeometryCollection\",\"geometries\":[{\"type\":\"Polygon\",\"arcs\":[[1]]},{\"type\":\"MultiPolygon\",\"arcs\":[[[1]],[[2]]]}]}]},{\"type\":\"MultiPolygon\",\"arcs\":[[[0]],[[1]]]}]},\"p\":{\"type\":\"Polygon\",\"arcs\":[[2],[1]]}},\"arcs\":[[[0,0],[5,0],[0,0],[-5,0]],[[0,0],[0,0],[1,0],[-1,1],[0,-1]],[[9,0],[2,0],[-2,2],[0,-2]]]}";

/// Whether no feature of three has a ring to keep.
fn keeps_none(alloc: Global, text: &[u8]) -> bool {
    match rings_of(alloc, text) {
        Some((ways, rings)) => matches!(ways.as_slice(), [None, None, None]) && rings.is_empty(),
        None => false,
    }
}

// A line, a ring of three positions, and no geometry.
const NO_RINGS: &[u8] =
    b"{\"type\":\"Topology\",\"objects\":{\"a\":{\"type\":\"GeometryCollection\",\"geometries\":[{\"type\":\"LineString\",\"arcs\":[0]},{\"type\":\"Polygon\",\"arcs\":[[0],[1]]},{\"type\":null}]}},\"arcs\":[[[0,0],[5,5],[0,0]],[[0,0],[1,0],[0,1],[0,0]]]}";

// Of outer rings the first that encloses most stays, and rings of four positions do wherever they stand; a feature without one keeps none.
#[test]
fn greatest_rings_stay(rt: HostRuntime) {
    assert!(rt; keep(rt.alloc(), ISLANDS, (&[], 0), (&[1], -3), (&[0], 1)));
    assert!(rt; keep(rt.alloc(), PARTS, (&[1, 1, 1], 2), (&[1], 1), (&[], 2)));
    assert!(rt; keeps_none(rt.alloc(), NO_RINGS));
}

// What is left of a topology whose arcs keep their ends alone.
ghost use Rattle.std.specs.Prelude.{◌≡◌, ◌-◌, ◌∷◌, [], IfOk, length, map};
ghost use Rattle.build_meaning.specs.Simplified.{EachFromFirstToLast};

use byte_ends::{Memory, MemoryDrain, Sink};
use decimal_json::{Items, TOPOLOGY_DEPTH, parse};
use geojson_types::{Cause, Dropped};
use std::alloc::Global;
use topo_model::Reduces;
use topojson_decoder::{Topology, read_topology};
use topojson_types::Cell;
use topojson_writer::write_topology;

/// The indexes of the first and the last cell.
fn ends(alloc: Global, cells: &[Cell]) -> Result<Vec<usize>, Memory>
    ensures { IfOk result (λ kept. kept.items ≡ 0 ∷ (length cells.now - 1) ∷ []) }
{
    let mut kept = Vec::with_capacity(alloc, 2)?;
    kept.push(0)?;
    kept.push(cells.len().saturating_sub(1))?;
    Ok(kept)
}

/// Of each arc the indexes of its first and its last cell.
fn all_ends(alloc: Global, arcs: &[Items<Cell>]) -> Result<Vec<Vec<usize>>, Memory>
    ensures { IfOk result (λ kept. map (λ k. k.items) kept.items ≡ map (λ cells. 0 ∷ (length cells - 1) ∷ []) arcs.now) }
{
    let mut kept = Vec::with_capacity(alloc, arcs.len())?;
    'arcs: for arc in arcs {
        kept.push(ends(alloc, arc.as_slice())?)?;
    }
    Ok(kept)
}

/// Of each arc of a topology the indexes of its first and its last cell.
fn kept_ends(alloc: Global, topology: &Topology) -> Result<Vec<Vec<usize>>, Memory>
    ensures { IfOk result (λ kept. EachFromFirstToLast (map (λ k. k.items) kept.items) topology.now.arcs) }
{
    let kept = all_ends(alloc, topology.arcs())?;
    Ok(kept)
}

/// The topology of a text.
pub fn topology_of(alloc: Global, text: &[u8]) -> Option<Topology> {
    let value = parse(alloc, text, TOPOLOGY_DEPTH).ok()?;
    let (topology, _counts) = read_topology(alloc, value).ok()?;
    Some(topology)
}

/// Whether this is the text of the topology.
fn is_text(alloc: Global, topology: &Topology, text: &[u8]) -> bool {
    let mut sink = Sink::new(MemoryDrain::new(alloc));
    match write_topology(topology, &mut sink) {
        Ok(_) => sink.into_inner().as_slice() == text,
        Err(_) => false,
    }
}

/// Whether the ring of this number of the first feature of the first object, and nothing else, is left with too few positions.
fn is_small_ring(dropped: &[Dropped], ring: usize) -> bool {
    match dropped {
        [one] => {
            one.cause == Cause::Small
                && one.address.layer == 0
                && one.address.feature == 0
                && matches!(one.address.path.split_first(), Some((number, [], [])) if number == ring)
        }
        _ => false,
    }
}

/// What the ends of each arc leave of a topology, what is dropped, and how many positions they remove.
fn reduced_to_ends(alloc: Global, topology: Topology) -> Option<(Topology, Vec<Dropped>, u64)> {
    match kept_ends(alloc, &topology) {
        Ok(kept) => topology.reduce(alloc, &kept, 0).ok(),
        Err(_) => {
            drop(topology);
            None
        }
    }
}

/// The same of the topology of a text.
fn text_reduced_to_ends(alloc: Global, text: &[u8]) -> Option<(Topology, Vec<Dropped>, u64)> {
    reduced_to_ends(alloc, topology_of(alloc, text)?)
}

/// Whether the ends of each arc of a text leave this text and drop this ring alone, and how many positions they remove.
fn leaves(alloc: Global, text: &[u8], left: &[u8], ring: usize, removed_count: u64) -> bool {
    match text_reduced_to_ends(alloc, text) {
        Some((less, dropped, out)) => {
            is_text(alloc, &less, left) && is_small_ring(&dropped, ring) && out == removed_count
        }
        None => false,
    }
}

// Its two equal positions are filled up to four where it is decoded, and are too few where they count once.
const FILLED_UP: &[u8] =
    b"{\"type\":\"Topology\",\"objects\":{\"a\":{\"type\":\"Polygon\",\"arcs\":[[0]]}},\"arcs\":[[[0,0],[0,0]]]}";

const NOTHING: &[u8] = b"{\"type\":\"Topology\",\"objects\":{\"a\":{\"type\":null}},\"arcs\":[]}";

// The first arc is the hole's, the next four are the sides of its square, and the last is a line of three positions.
const LAKE: &[u8] =
    b"{\"type\":\"Topology\",\"objects\":{\"land\":{\"type\":\"GeometryCollection\",\"geometries\":[{\"type\":\"Polygon\",\"arcs\":[[1,2,3,4],[0]]},{\"type\":\"LineString\",\"arcs\":[5]}]}},\"arcs\":[[[4,4],[4,5],[5,4],[4,4]],[[0,0],[10,0]],[[10,0],[10,10]],[[10,10],[0,10]],[[0,10],[0,0]],[[20,0],[25,1],[30,0]]]}";

const WITHOUT_LAKE: &[u8] =
    b"{\"type\":\"Topology\",\"bbox\":[0,0,30,10],\"objects\":{\"land\":{\"type\":\"GeometryCollection\",\"geometries\":[{\"type\":\"Polygon\",\"arcs\":[[0,1,2,3]]},{\"type\":\"LineString\",\"arcs\":[4]}]}},\"arcs\":[[[0,0],[10,0]],[[10,0],[10,10]],[[10,10],[0,10]],[[0,10],[0,0]],[[20,0],[30,0]]]}";

// A ring that was filled up is small, and a hole goes with its arc.
#[test]
fn small_rings_go(rt: HostRuntime) {
    assert!(rt; leaves(rt.alloc(), FILLED_UP, NOTHING, 0, 0));
    assert!(rt; leaves(rt.alloc(), LAKE, WITHOUT_LAKE, 1, 1));
}

// What no command shows of topologies that are read: walks from the back, and what is counted. Two squares share a side.
ghost use Rattle.std.specs.Prelude.{IfSome, length};
ghost use Rattle.topojson_types.specs.Validity.{AreInRange};

use crate::simplifying::topology_of;
use decimal_json::{TOPOLOGY_DEPTH, parse};
use geojson_types::Position;
use std::alloc::Global;
use topojson_decoder::{ArcRef, Topology, Walk, read_topology};

// The arcs are (1,0),(1,1), then (1,1),(0,1),(0,0),(1,0), then (1,0),(2,0),(2,1),(1,1).
const SQUARES: &[u8] =
    b"{\"type\":\"Topology\",\"objects\":{},\"arcs\":[[[1,0],[1,1]],[[1,1],[0,1],[0,0],[1,0]],[[1,0],[2,0],[2,1],[1,1]]]}";

// Units of 10^-9.
const ONE: i64 = 1_000_000_000;

/// The two indexes, if the topology has their arcs.
fn pair_of(topology: &Topology, first: i64, second: i64) -> Option<[ArcRef; 2]>
    ensures { IfSome result (λ refs. AreInRange (length topology.now.arcs) refs) }
{
    let first = ArcRef::of(first);
    let second = ArcRef::of(second);
    let count = topology.arcs().len();
    if first.index() >= count {
        return None;
    }
    if second.index() >= count {
        return None;
    }
    Some([first, second])
}

/// Whether these steps of a walk give these positions, each from the back where it says so, and then both ends nothing.
fn gives(mut walk: Walk<'_>, steps: &[(bool, i64, i64)]) -> bool {
    for (is_back, x, y) in steps {
        let position = if *is_back {
            walk.next_back()
        } else {
            walk.next()
        };
        if position != Position::new(*x, *y) {
            return false;
        }
    }
    walk.next().is_none() && walk.next_back().is_none()
}

/// Whether the walk along the two arcs gives these positions.
fn walks(topology: &Topology, first: i64, second: i64, steps: &[(bool, i64, i64)]) -> bool {
    match pair_of(topology, first, second) {
        Some(refs) => gives(Walk::over(topology, &refs), steps),
        None => false,
    }
}

fn walks_go_from_both_ends(alloc: Global) -> bool {
    let Some(topology) = topology_of(alloc, SQUARES) else {
        return false;
    };
    let left = [
        (true, ONE, 0),
        (true, 0, 0),
        (true, 0, ONE),
        (true, ONE, ONE),
        (true, ONE, 0),
    ];
    let right = [
        (true, ONE, 0),
        (true, ONE, ONE),
        (true, 2 * ONE, ONE),
        (true, 2 * ONE, 0),
        (true, ONE, 0),
    ];
    let in_turn = [
        (true, ONE, 0),
        (false, ONE, 0),
        (true, 0, 0),
        (false, ONE, ONE),
        (false, 0, ONE),
    ];
    walks(&topology, 0, 1, &left)
        && walks(&topology, 2, -1, &right)
        && walks(&topology, 0, 1, &in_turn)
        && gives(Walk::over(&topology, &[]), &[])
}

/// Whether this is counted in reading a topology: numbers that were rounded, positions with more elements, empty arrays.
fn counts(alloc: Global, text: &[u8], rounded: u64, extra: u64, empty: u64) -> bool {
    let Ok(value) = parse(alloc, text, TOPOLOGY_DEPTH) else {
        return false;
    };
    match read_topology(alloc, value) {
        Ok((_topology, counts)) => {
            counts.rounded == rounded && counts.extra == extra && counts.empty == empty
        }
        Err(_) => false,
    }
}

const ROUNDED: &[u8] =
    b"{\"type\":\"Topology\",\"arcs\":[[[0,0.0000000005,9],[1,1e-11]]],\"bbox\":5,\"objects\":{}}";

const EMPTY: &[u8] =
    b"{\"type\":\"Topology\",\"objects\":{\"a\":{\"type\":\"LineString\",\"arcs\":[]}},\"arcs\":[]}";

const ON_A_GRID: &[u8] =
    b"{\"type\":\"Topology\",\"transform\":{\"scale\":[0.0000000005,1],\"translate\":[0,0]},\"objects\":{\"a\":{\"type\":\"Point\",\"coordinates\":[1,2,3]}},\"arcs\":[]}";

#[test]
fn topologies_are_read(rt: HostRuntime) {
    assert!(rt; walks_go_from_both_ends(rt.alloc()));
    assert!(rt; counts(rt.alloc(), ROUNDED, 2, 1, 0));
    assert!(rt; counts(rt.alloc(), EMPTY, 0, 0, 1));
    assert!(rt; counts(rt.alloc(), ON_A_GRID, 0, 1, 0));
}

// How many areas the program's two commands have computed by the reducer that they are lent: each arc is reduced once, by that
// reducer. Two lines run along one arc of four positions, of which both between the ends go.
use byte_ends::devices::{CutReader, Fault};
use byte_ends::{FromRead, MemoryDrain, Sink, Source};
use decimal_json::OwnText;
use effective_area::{HeapLinks, Steps};
use mapchain_engine::{Guards, Level, Options, build, simplify};
use std::alloc::Global;

const LAYER: &[u8] =
    b"{\"type\":\"FeatureCollection\",\"features\":[{\"type\":\"Feature\",\"properties\":null,\"geometry\":{\"type\":\"LineString\",\"coordinates\":[[4,0],[2,0],[1,1],[0,0]]}},{\"type\":\"Feature\",\"properties\":null,\"geometry\":{\"type\":\"LineString\",\"coordinates\":[[0,0],[1,1],[2,0],[4,0]]}}]}";

const TOPOLOGY: &[u8] =
    b"{\"type\":\"Topology\",\"objects\":{\"a\":{\"type\":\"GeometryCollection\",\"geometries\":[{\"type\":\"LineString\",\"arcs\":[0]},{\"type\":\"LineString\",\"arcs\":[-1]}]}},\"arcs\":[[[4,0],[2,0],[1,1],[0,0]]]}";

// The same with a transform, under which cells are the coordinates.
const ON_A_GRID: &[u8] =
    b"{\"type\":\"Topology\",\"transform\":{\"scale\":[1,1],\"translate\":[0,0]},\"objects\":{\"a\":{\"type\":\"GeometryCollection\",\"geometries\":[{\"type\":\"LineString\",\"arcs\":[0]},{\"type\":\"LineString\",\"arcs\":[-1]}]}},\"arcs\":[[[4,0],[-2,0],[-1,1],[-1,-1]]]}";

// Twice an area of 1.5 square units of the coordinates.
const THRESHOLD: u128 = 3_000_000_000_000_000_000;

fn source(bytes: &[u8]) -> Source<FromRead<CutReader<'_>>> {
    Source::new(FromRead::new(CutReader::new(bytes, 64, Fault::Never)))
}

/// What a new reducer did in building the layer, if two positions went.
fn steps_of_building(alloc: Global) -> Option<Steps> {
    let name = String::from_str(alloc, "a").ok()?;
    let mut sources = [(OwnText::of(name), source(LAYER))];
    let options = Options {
        seed: 0,
        grid: None,
        guards: Guards {
            no_crossings: false,
            keep_shapes: false,
        },
        level: Level::Fixed(THRESHOLD),
        ring_limit: 0,
        exact: false,
    };
    let mut heap = HeapLinks::new();
    let mut sink = Sink::new(MemoryDrain::new(alloc));
    match build(alloc, &mut heap, &mut sources, &options, &mut sink) {
        Ok(report) if report.removed == 2 => Some(heap.steps()),
        _ => None,
    }
}

/// What a new reducer did in simplifying the topology, if two positions went.
fn steps_of_simplifying(alloc: Global, topology: &[u8]) -> Option<Steps> {
    let mut heap = HeapLinks::new();
    let mut sink = Sink::new(MemoryDrain::new(alloc));
    let simplified = simplify(
        alloc,
        &mut heap,
        &mut source(topology),
        Guards {
            no_crossings: false,
            keep_shapes: false,
        },
        Level::Fixed(THRESHOLD),
        0,
        &mut sink,
    );
    match simplified {
        Ok(report) if report.removed == 2 => Some(heap.steps()),
        _ => None,
    }
}

/// Whether they are those of one arc of four positions: two areas at first, and one or more for the neighbours of those that go.
fn are_of_one_arc(steps: Option<Steps>) -> bool {
    match steps {
        Some(steps) => steps.areas >= 3 && steps.areas <= 5,
        None => false,
    }
}

#[test]
fn each_arc_is_reduced_once(rt: HostRuntime) {
    assert!(rt; are_of_one_arc(steps_of_building(rt.alloc())));
    assert!(rt; are_of_one_arc(steps_of_simplifying(rt.alloc(), TOPOLOGY)));
    assert!(rt; are_of_one_arc(steps_of_simplifying(rt.alloc(), ON_A_GRID)));
}

// The calls that may run out of memory and that no run of the program makes, and the numbers that two of them answer.
ghost use Rattle.std.specs.Prelude.{◌≡◌, IfOk, map};
ghost use Rattle.arc_table.specs.Arcs.{table_of};
ghost use Rattle.cutter.specs.Slices.{split_of};
ghost use Rattle.linework.specs.Linework.{linework};

use crate::simplifying::topology_of;
use arc_table::Table;
use byte_ends::devices::{CutReader, Fault};
use byte_ends::{FromRead, Memory, MemoryDrain, Sink, Source};
use cutter::cut;
use decimal_json::{Items, NumText};
use effective_area::{HeapLinks, read_threshold, twice_area};
use geojson_types::{Layer, Position};
use linework::{Lines, OfLayers, Vertices};
use mapchain_engine::stat_with_crossings;
use std::alloc::Global;
use topo_model::assemble;
use topojson_types::{Cell, SumFault, deltas, features, sums};

// One line that crosses itself, as an arc.
const TOPOLOGY: &[u8] =
    b"{\"type\":\"Topology\",\"objects\":{\"a\":{\"type\":\"LineString\",\"arcs\":[0]}},\"arcs\":[[[0,0],[2,0],[2,2],[1,-1]]]}";

fn memory_takes_bytes(alloc: Global) -> bool {
    let mut sink = Sink::new(MemoryDrain::new(alloc));
    sink.push(b"12345").is_ok()
}

// Its text is longer than what lies in the value.
fn a_number_text_is_read(alloc: Global) -> bool {
    let text = "-0.0000000000000000000000000000000000001E+37";
    match NumText::read(alloc, text) {
        Ok(Some(number)) => number.text() == text,
        _ => false,
    }
}

fn layers_without_names_have_lines(alloc: Global) -> bool {
    let features = Items::of(Vec::new(alloc));
    Lines::of(alloc, &[Layer { features }]).is_ok()
}

/// The arcs of the lines and rings of layers.
fn table_of_layers(alloc: Global, layers: &[Layer]) -> Result<Table, Memory>
    ensures { IfOk result (λ table. table ≡ table_of (map (split_of (linework layers.now)) (linework layers.now))) }
{
    let lines = Lines::of(alloc, layers)?;
    let vertices = Vertices::of(alloc, &lines)?;
    let pieces = cut(alloc, lines, &vertices)?;
    Table::build(alloc, pieces)
}

fn no_layers_are_assembled(alloc: Global) -> bool {
    match table_of_layers(alloc, &[]) {
        Ok(table) => assemble(alloc, Vec::new(alloc), table, &[], 0).is_ok(),
        Err(_) => false,
    }
}

fn an_object_has_features(alloc: Global) -> bool {
    match topology_of(alloc, TOPOLOGY) {
        Some(topology) => features(alloc, &topology, "a").is_ok(),
        None => false,
    }
}

fn a_file_has_crossings(alloc: Global) -> bool {
    let mut source = Source::new(FromRead::new(CutReader::new(TOPOLOGY, 64, Fault::Never)));
    stat_with_crossings(alloc, &mut source).is_ok()
}

// The cells of an arc, and their differences (TopoJSON 1.0, section 2.1.3).
fn cells_and_differences_give_each_other(alloc: Global) -> bool {
    let cells = [Cell::at(0, 0), Cell::at(1, 3), Cell::at(3, 0)];
    let differences = [Cell::at(0, 0), Cell::at(1, 3), Cell::at(2, -3)];
    match (deltas(alloc, &cells), sums(alloc, &differences)) {
        (Ok(reported), Ok(summed)) => {
            reported.as_slice() == differences.as_slice() && summed.as_slice() == cells.as_slice()
        }
        _ => false,
    }
}

fn a_sum_past_the_grid_is_refused(alloc: Global) -> bool {
    let differences = [Cell::at(2_147_483_648, 0), Cell::at(1, 0)];
    matches!(sums(alloc, &differences), Err(SumFault::Range))
}

/// Whether this is the threshold of an area.
fn is_threshold(alloc: Global, area: &str, wanted: Option<u128>) -> bool {
    match read_threshold(alloc, area) {
        Ok(threshold) => threshold == wanted,
        Err(_) => false,
    }
}

// Twice the area in square units of 10^-9; no area is less than nothing, larger than 10^18 or finer than 10^-18.
fn areas_have_thresholds(alloc: Global) -> bool {
    is_threshold(alloc, "1.5", Some(3_000_000_000_000_000_000))
        && is_threshold(alloc, "-1", None)
        && is_threshold(alloc, "1e19", None)
        && is_threshold(alloc, "1e-15", Some(2000))
        && is_threshold(alloc, "1e-19", None)
}

fn a_triangle_has_an_area() -> bool {
    let mut steps = HeapLinks::new().steps();
    let area = twice_area(
        &mut steps,
        Position::at(0, 0),
        Position::at(1, 1),
        Position::at(2, 0),
    );
    area == 2 && steps.areas == 1
}

#[test]
fn calls_answer(rt: HostRuntime) {
    assert!(rt; memory_takes_bytes(rt.alloc()));
    assert!(rt; a_number_text_is_read(rt.alloc()));
    assert!(rt; layers_without_names_have_lines(rt.alloc()));
    assert!(rt; no_layers_are_assembled(rt.alloc()));
    assert!(rt; an_object_has_features(rt.alloc()));
    assert!(rt; a_file_has_crossings(rt.alloc()));
    assert!(rt; cells_and_differences_give_each_other(rt.alloc()));
    assert!(rt; a_sum_past_the_grid_is_refused(rt.alloc()));
    assert!(rt; areas_have_thresholds(rt.alloc()));
    assert!(rt; a_triangle_has_an_area());
}

// Which numbers positions have, also where they are looked for in a map, and how often pieces are compared: what is said of the hashed tables,
// and shows in no topology.
use arc_table::Table;
use byte_ends::Memory;
use cutter::cut;
use decimal_json::{LAYER_DEPTH, parse};
use geojson_model::read_layer;
use geojson_types::Position;
use junctions::Numbering;
use linework::{Lines, OfLayers, Vertices};
use std::alloc::{AllocError, Global};

// Units of 10^-9 in a unit of the coordinates.
const ONE: i64 = 1_000_000_000;

/// The text of a GeometryCollection of unit squares, row by row from y = 0 and in each row from x = 0, each a Polygon from its lower
/// left corner and counterclockwise.
fn squares(alloc: Global, width: u32, height: u32) -> Result<String, AllocError> {
    let mut text = String::from_str(alloc, "{\"type\":\"GeometryCollection\",\"geometries\":[")?;
    for y in 0..height {
        for x in 0..width {
            if (x, y) != (0, 0) {
                text.push_str(",")?;
            }
            text.push_str(square(alloc, x, y)?.as_str())?;
        }
    }
    text.push_str("]}")?;
    Ok(text)
}

/// The text of one of them.
fn square(alloc: Global, x: u32, y: u32) -> Result<String, AllocError> {
    let right = x.saturating_add(1);
    let top = y.saturating_add(1);
    format!(in alloc;
        "{{\"type\":\"Polygon\",\"coordinates\":[[[{x},{y}],[{right},{y}],[{right},{top}],[{x},{top}],[{x},{y}]]]}}"
    )
}

/// The lines of so many squares.
fn lines_of(alloc: Global, width: u32, height: u32) -> Option<Lines> {
    let text = squares(alloc, width, height).ok()?;
    let value = parse(alloc, text.as_bytes(), LAYER_DEPTH).ok()?;
    let (layer, _counts) = read_layer(alloc, value, false).ok()?;
    Lines::of(alloc, &[layer]).ok()
}

/// The number of a position of the lines, if it is one.
fn number_of(vertices: &Vertices, x: i64, y: i64) -> Option<usize> {
    let position = Position::new(x, y)?;
    if vertices.has(position) {
        Some(vertices.number(position))
    } else {
        None
    }
}

/// The positions of so many squares with their numbers.
fn vertices_of(alloc: Global, width: u32, height: u32) -> Option<Vertices> {
    let lines = lines_of(alloc, width, height)?;
    Vertices::of(alloc, &lines).ok()
}

// The positions of two squares, in the order in which they are first seen. The two at the common side count once.
fn are_in_reading_order(vertices: &Vertices) -> bool {
    let places = [
        (0, 0),
        (ONE, 0),
        (ONE, ONE),
        (0, ONE),
        (2 * ONE, 0),
        (2 * ONE, ONE),
    ];
    for (number, (x, y)) in places.iter().enumerate() {
        if number_of(vertices, *x, *y) != Some(number) {
            return false;
        }
    }
    number_of(vertices, 3 * ONE, 0).is_none()
}

fn positions_are_numbered_in_reading_order(alloc: Global) -> bool {
    match vertices_of(alloc, 2, 1) {
        Some(vertices) => are_in_reading_order(&vertices),
        None => false,
    }
}

/// The number that is found for the position this far along the first axis, once it is numbered.
fn number_at(numbering: &mut Numbering<Position>, x: u32) -> Option<usize> {
    let position = Position::new(x as i64, 0)?;
    let number = numbering.number(position).ok()?;
    if numbering.find(position) == Some(number) {
        Some(number)
    } else {
        None
    }
}

/// Whether twenty positions in a row have their numbers in turn.
fn are_in_turn(numbering: &mut Numbering<Position>) -> bool {
    for x in 0..20u32 {
        if number_at(numbering, x) != Some(x as usize) {
            return false;
        }
    }
    true
}

/// Whether they have them again once all are numbered, and one more has none.
fn stay_in_turn(numbering: &mut Numbering<Position>) -> bool {
    if !are_in_turn(numbering) || !are_in_turn(numbering) {
        return false;
    }
    match Position::new(20, 0) {
        Some(other) => numbering.find(other).is_none(),
        None => false,
    }
}

// Numbers stay as the table grows, and don't depend on the seed.
fn numbers_stay_as_the_table_grows(alloc: Global) -> bool {
    match Numbering::with_room(alloc, 0, 7) {
        Ok(numbering) => {
            let mut numbering = numbering;
            stay_in_turn(&mut numbering)
        }
        Err(_) => false,
    }
}

/// The arcs of these lines.
fn table_of(alloc: Global, lines: Lines) -> Result<Table, Memory> {
    let vertices = Vertices::of(alloc, &lines)?;
    let pieces = cut(alloc, lines, &vertices)?;
    Table::build(alloc, pieces)
}

/// How many arcs so many squares have, and how often pieces were compared for them.
fn arcs_and_comparisons(alloc: Global, width: u32, height: u32) -> Option<(usize, u64)> {
    let lines = lines_of(alloc, width, height)?;
    let table = table_of(alloc, lines).ok()?;
    Some((table.len(), table.compared()))
}

// 400 squares have 1600 sides, of which the two at each corner of the whole are one piece: 1596 pieces, of which 836 become arcs. Each of
// the other 760 is compared with an arc or its reverse at least once, and each of all at most twice.
fn pieces_are_compared_with_few_arcs(alloc: Global) -> bool {
    match arcs_and_comparisons(alloc, 20, 20) {
        Some((arcs, compared)) => arcs == 836 && compared >= 760 && compared <= 3192,
        None => false,
    }
}

// Three lines, and the same three again: three arcs, and each line of the second three is compared with the one that it equals.
const TWICE: &[u8] =
    b"{\"type\":\"MultiLineString\",\"coordinates\":[[[0,0],[1,0]],[[0,1],[1,1]],[[0,2],[1,2]],[[0,0],[1,0]],[[0,1],[1,1]],[[0,2],[1,2]]]}";

/// How many arcs this layer has, and how often pieces were compared for them.
fn arcs_of(alloc: Global, text: &[u8]) -> Option<(usize, u64)> {
    let value = parse(alloc, text, LAYER_DEPTH).ok()?;
    let (layer, _counts) = read_layer(alloc, value, false).ok()?;
    let lines = Lines::of(alloc, &[layer]).ok()?;
    let table = table_of(alloc, lines).ok()?;
    Some((table.len(), table.compared()))
}

fn equal_lines_are_compared_once(alloc: Global) -> bool {
    match arcs_of(alloc, TWICE) {
        Some((arcs, compared)) => arcs == 3 && compared == 3,
        None => false,
    }
}

#[test]
fn tables_find_what_they_have(rt: HostRuntime) {
    assert!(rt; positions_are_numbered_in_reading_order(rt.alloc()));
    assert!(rt; numbers_stay_as_the_table_grows(rt.alloc()));
    assert!(rt; pieces_are_compared_with_few_arcs(rt.alloc()));
    assert!(rt; equal_lines_are_compared_once(rt.alloc()));
}

// Weights, run. That each is the definition's is proved: these show that memory isn't always refused, and what the definition gives.
use effective_area::{Weight, weights, weights_until};
use geojson_types::Position;
use std::alloc::Global;

// Units of 10^-9 in a unit of the coordinates.
const ONE: i64 = 1_000_000_000;

/// Whether these are the weights of the line.
fn weighs(alloc: Global, line: &[Position], wanted: &[Weight]) -> bool {
    match weights(alloc, line) {
        Ok(all) => all.as_slice() == wanted,
        Err(_) => false,
    }
}

// Fewer than three positions are ends, whatever stands twice.
fn short_lines_are_ends(alloc: Global) -> bool {
    let here = Position::at(1, 1);
    weighs(alloc, &[], &[])
        && weighs(alloc, &[here], &[Weight::End])
        && weighs(alloc, &[here, here], &[Weight::End, Weight::End])
}

// Of two equal positions the one with the lesser index goes first, at no area.
fn repeated_positions_weigh_by_index(alloc: Global) -> bool {
    let line = [
        Position::at(0, 0),
        Position::at(1, 1),
        Position::at(1, 1),
        Position::at(2, 0),
    ];
    let wanted = [Weight::End, Weight::Area(0), Weight::Area(2), Weight::End];
    weighs(alloc, &line, &wanted)
}

// The first corner goes at twice an area of 1 square unit of the coordinates. The second, that had 5, has 9 then.
fn a_neighbour_weighs_what_it_grows_to(alloc: Global) -> bool {
    let line = [
        Position::at(0, 0),
        Position::at(ONE, ONE),
        Position::at(2 * ONE, 3 * ONE),
        Position::at(3 * ONE, 0),
    ];
    let wanted = [
        Weight::End,
        Weight::Area(1_000_000_000_000_000_000),
        Weight::Area(9_000_000_000_000_000_000),
        Weight::End,
    ];
    weighs(alloc, &line, &wanted)
}

// Once the first is out nothing more is removed: the second, that would have 9, has at least as much as the first.
fn a_weight_stands_for_those_after(alloc: Global) -> bool {
    let line = [
        Position::at(0, 0),
        Position::at(ONE, ONE),
        Position::at(2 * ONE, 3 * ONE),
        Position::at(3 * ONE, 0),
    ];
    let first = Weight::Area(1_000_000_000_000_000_000);
    match weights_until(alloc, &line, 1) {
        Ok(all) => all.as_slice() == [Weight::End, first, first, Weight::End].as_slice(),
        Err(_) => false,
    }
}

// Both have twice an area of 2. Once the first is gone the second has none, and weighs as much as the first did.
fn a_weight_never_falls(alloc: Global) -> bool {
    let line = [
        Position::at(0, 0),
        Position::at(ONE, ONE),
        Position::at(2 * ONE, 0),
        Position::at(4 * ONE, 0),
    ];
    let both = Weight::Area(2_000_000_000_000_000_000);
    let wanted = [Weight::End, both, both, Weight::End];
    weighs(alloc, &line, &wanted)
}

// A line that runs back and forth over the same positions, with its weights as a program of its own computed them by looking
// through the whole line for each.
fn a_line_that_runs_back_and_forth(alloc: Global) -> bool {
    let line = [
        Position::at(0, 0),
        Position::at(3, 4),
        Position::at(0, 0),
        Position::at(3, 4),
        Position::at(6, 1),
        Position::at(3, 4),
        Position::at(9, 9),
        Position::at(9, 9),
        Position::at(-2, 5),
        Position::at(0, 0),
    ];
    let none = Weight::Area(0);
    let most = Weight::Area(63);
    let wanted = [
        Weight::End,
        none,
        none,
        none,
        none,
        Weight::Area(9),
        none,
        most,
        most,
        Weight::End,
    ];
    weighs(alloc, &line, &wanted)
}

#[test]
fn lines_are_weighed(rt: HostRuntime) {
    assert!(rt; short_lines_are_ends(rt.alloc()));
    assert!(rt; repeated_positions_weigh_by_index(rt.alloc()));
    assert!(rt; a_neighbour_weighs_what_it_grows_to(rt.alloc()));
    assert!(rt; a_weight_stands_for_those_after(rt.alloc()));
    assert!(rt; a_weight_never_falls(rt.alloc()));
    assert!(rt; a_line_that_runs_back_and_forth(rt.alloc()));
}

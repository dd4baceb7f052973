// Crossings counted up to limits that no command has. That the answer is the definition's is proved: these show that memory isn't always refused.
use geometry::Position;
use owned_values::{Items, Memory};
use segment_crossings::crossings_with;
use std::alloc::Global;

/// Two lines cross each of five segments, and two of these lie on two others.
fn fan(alloc: Global) -> Result<[Items<Position>; 3], Memory> {
    let folds = [
        Position::at(0, 0),
        Position::at(9, 3),
        Position::at(0, 0),
        Position::at(9, 6),
        Position::at(0, 0),
        Position::at(9, 9),
    ];
    Ok([
        Items::of(folds.to_vec(alloc)?),
        Items::of([Position::at(3, -9), Position::at(3, 9)].to_vec(alloc)?),
        Items::of([Position::at(6, -9), Position::at(6, 9)].to_vec(alloc)?),
    ])
}

/// Whether so many are counted of the lines up to a limit, and so many are found.
fn are_counted(
    alloc: Global,
    lines: &[Items<Position>],
    limit: u64,
    most: usize,
    count: u64,
    found: usize,
) -> bool {
    match crossings_with(alloc, lines, limit, most) {
        Ok((all, some)) => all == count && some.len() == found,
        Err(_) => false,
    }
}

fn are_counted_of_a_fan(alloc: Global) -> bool {
    match fan(alloc) {
        Ok(lines) => {
            are_counted(alloc, &lines, 100, 5, 12, 5)
                && are_counted(alloc, &lines, 7, 100, 7, 12)
                && are_counted(alloc, &lines, 0, 1, 0, 1)
                && are_counted(alloc, &lines, 100, 0, 12, 0)
        }
        Err(_) => false,
    }
}

#[test]
fn crossings_are_counted_up_to_a_limit(rt: HostRuntime) {
    assert!(rt; are_counted_of_a_fan(rt.alloc()));
}

// Both reducers, run. That each answers the definition's indexes is proved: these show that memory isn't always refused, that
// areas and pushes are counted from below too, and that the two agree where positions stand twice and areas tie.
use byte_ends::Memory;
use effective_area::{HeapLinks, Reducer, Rescan, Steps};
use geojson_types::Position;
use std::alloc::Global;

/// Whether the reducer keeps these positions of a line, by their indexes.
fn keeps(
    reducer: &mut impl Reducer,
    alloc: Global,
    line: &[Position],
    threshold: u128,
    wanted: &[usize],
) -> bool {
    if line.len() < 2 {
        return false;
    }
    match reducer.kept(alloc, line, threshold) {
        Ok(kept) => kept.as_slice() == wanted,
        Err(_) => false,
    }
}

// Of two equal positions whose areas tie, the one with the lesser index is removed first.
fn removes_repeated_positions_by_index(reducer: &mut impl Reducer, alloc: Global) -> bool {
    let top = Position::at(1, 1);
    let line = [Position::at(0, 0), top, top, Position::at(2, 0)];
    keeps(reducer, alloc, &line, 1, &[0, 2, 3]) && keeps(reducer, alloc, &line, 3, &[0, 3])
}

// Two areas at first, and one more for the neighbour of the position that is removed. Of so short a line no corner is queued.
fn steps_are_counted(heap: &mut HeapLinks, alloc: Global) -> bool {
    let line = [
        Position::at(0, 0),
        Position::at(1, 1),
        Position::at(2, 3),
        Position::at(3, 0),
    ];
    if !keeps(heap, alloc, &line, 7, &[0, 2, 3]) {
        return false;
    }
    let steps = heap.steps();
    steps.areas >= 3 && steps.areas <= 6 && steps.pushes == 0
}

// 200 positions, ten in a row and eight in a column, so many of them twice.
fn crowded(alloc: Global) -> Result<Vec<Position>, Memory> {
    let mut positions = Vec::new(alloc);
    for i in 0..200u32 {
        if let Some(position) = Position::new((i * 7 % 10) as i64, (i * i / 3 % 8) as i64) {
            positions.push(position)?;
        }
    }
    Ok(positions)
}

/// Whether two reducers keep the same positions of a line.
fn agree(
    one: &mut impl Reducer,
    other: &mut impl Reducer,
    alloc: Global,
    line: &[Position],
    threshold: u128,
) -> bool {
    if line.len() < 2 {
        return false;
    }
    match one.kept(alloc, line, threshold) {
        Ok(kept) => keeps(other, alloc, line, threshold, &kept),
        Err(_) => false,
    }
}

// The greatest weight of the crowded line's is 31, so each weight is met, and one more than it. At that all 198 between the ends are removed.
fn agree_at_each_threshold(
    heap: &mut HeapLinks,
    rescan: &mut Rescan,
    alloc: Global,
    line: &[Position],
) -> bool {
    for threshold in 0..33u32 {
        if !agree(heap, rescan, alloc, line, threshold as u128) {
            return false;
        }
    }
    keeps(heap, alloc, line, 32, &[0, 199]) && heap.steps().areas >= 34 * 198
}

fn both_reducers_agree_at_each_threshold(alloc: Global) -> bool {
    match crowded(alloc) {
        Ok(line) => {
            agree_at_each_threshold(&mut HeapLinks::new(), &mut Rescan::new(), alloc, &line)
        }
        Err(_) => false,
    }
}

/// What a new reducer does where all 198 positions between the ends are removed.
fn steps_of_all(heap: &mut HeapLinks, alloc: Global) -> Option<Steps> {
    let line = crowded(alloc).ok()?;
    if keeps(heap, alloc, &line, 32, &[0, 199]) {
        Some(heap.steps())
    } else {
        None
    }
}

// An area for each at first, and from one to two for the neighbours of each that goes but the last.
fn steps_are_linear(alloc: Global) -> bool {
    match steps_of_all(&mut HeapLinks::new(), alloc) {
        Some(steps) => {
            steps.areas >= 395 && steps.areas <= 594 && steps.pushes >= 197 && steps.pushes <= 594
        }
        None => false,
    }
}

#[test]
fn lines_are_reduced(rt: HostRuntime) {
    assert!(rt; removes_repeated_positions_by_index(&mut HeapLinks::new(), rt.alloc()));
    assert!(rt; removes_repeated_positions_by_index(&mut Rescan::new(), rt.alloc()));
    assert!(rt; steps_are_counted(&mut HeapLinks::new(), rt.alloc()));
    assert!(rt; both_reducers_agree_at_each_threshold(rt.alloc()));
    assert!(rt; steps_are_linear(rt.alloc()));
}

//! A reducer that was refused memory answers the next call as a new one does: it reduces a line twice by the same reducer, and says
//! what came. It refuses nothing itself: the script `scripts/refused-memory.py` runs it with its first allocation refused, with its
//! second, and so on, as it runs the program `mapchain`. It stands on `effective_area`.
#![tactic(auto)]

use effective_area::{HeapLinks, Reducer};
use geometry::Position;
use std::alloc::Global;
use std::io;

/// What came of reducing a line.
#[derive(Clone, Copy, PartialEq, Eq)]
enum Outcome {
    /// The positions that stay.
    Answered,
    /// Want of memory.
    Refused,
    /// Other positions.
    Wrong,
}

/// What comes of reducing a line that runs back and forth, of which the ends and the two positions before the last stay.
fn reduced(alloc: Global, heap: &mut HeapLinks) -> Outcome {
    let line = [
        Position::at(0, 0),
        Position::at(3, 4),
        Position::at(0, 0),
        Position::at(3, 4),
        Position::at(6, 1),
        Position::at(3, 4),
        Position::at(9, 9),
        Position::at(9, 9),
        Position::at(-2, 5),
        Position::at(0, 0),
    ];
    match heap.kept(alloc, &line, 10) {
        Ok(kept) if kept.as_slice() == [0, 7, 8, 9].as_slice() => Outcome::Answered,
        Ok(_) => Outcome::Wrong,
        Err(_) => Outcome::Refused,
    }
}

/// What is said of two outcomes of the same reducer.
fn reported(first: Outcome, second: Outcome) -> &'static str {
    match (first, second) {
        (Outcome::Answered, Outcome::Answered) => "answered twice",
        (Outcome::Refused, Outcome::Answered) => "refused, and then answered",
        (Outcome::Answered, Outcome::Refused) => "answered, and then refused",
        _ => "went wrong",
    }
}

fn main(rt: HostRuntime) -> io::Result<()> {
    let mut heap = HeapLinks::new();
    let first = reduced(rt.alloc(), &mut heap);
    let second = reduced(rt.alloc(), &mut heap);
    println!(rt; "{}", reported(first, second))
}

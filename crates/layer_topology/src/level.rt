// How much of the detail of lines stays.

/// At which threshold arcs are reduced.
#[derive(Clone, Copy, Debug)]
pub enum Level {
    /// At this one, twice an area in square units: points are removed whose triangle has less. At most twice `AREA_LIMIT`.
    Fixed(u128),
    /// At the greatest one that keeps at least p of q positions between the ends of arcs, over all arcs and before any line is dropped.
    /// q is from 1 to 10^9, and p at most q.
    Share { p: u64, q: u64 },
}

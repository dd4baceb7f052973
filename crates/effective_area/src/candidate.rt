use geometry::Position;

/// A position that could be removed from a line, with twice the area of the triangle that it forms with its present
/// neighbours. Candidates compare in the order in which they are removed: by area, then by position, then by index.
#[derive(Clone, Copy, Debug, PartialEq, Eq, PartialOrd, Ord)]
pub struct Candidate {
    pub area: u128,
    pub point: Position,
    pub index: usize,
}

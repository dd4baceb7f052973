use geometry::Position;

/// A corner that is to be looked at, with the neighbours that its area was computed with. Entries compare in the order in which corners go: by area,
/// then by position, then by place.
#[derive(Clone, Copy, Debug, PartialEq, Eq, PartialOrd, Ord)]
pub struct Entry {
    pub area: u128,
    pub at: Position,
    pub place: u32,
    pub before: u32,
    pub after: u32,
}

// What is counted in a topology.
use json_value::{Items, OwnText};

/// What is counted in a topology (TopoJSON 1.0). A count that would pass `u64::MAX` stays there.
#[derive(Debug, Drop)]
pub struct Summary {
    /// The objects in order: the name of each, and the number of its features, which is 1 where it is no GeometryCollection.
    pub objects: Items<(OwnText, u64)>,
    /// Arcs.
    pub arcs: u64,
    /// Positions in all arcs.
    pub positions: u64,
    /// There is a transform (section 2.1.2).
    pub grid: bool,
    /// Pairs of segments of the arcs that meet badly, where they are counted: `MOST_CROSSINGS` stands for as many or more.
    pub crossings: Option<u64>,
}

/// As many crossings are counted at most.
pub const MOST_CROSSINGS: u64 = 1_000_000;

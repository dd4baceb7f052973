// What stays of arcs, and what is left of a topology then.

use geojson_types::Dropped;
use json_value::Items;
use topojson_types::{Cell, Topology};

/// What stays of the arcs of a topology or of layers.
#[derive(Drop)]
pub struct Retained {
    /// Of each arc the cells that stay, from its first to its last.
    pub arcs: Vec<Items<Cell>>,
    /// How many cells each arc had.
    pub counts: Vec<usize>,
    /// For each feature, in reading order, the way to the polygon whose outer ring is protected, if one is: that ring stays whatever is left
    /// of it, and however little it encloses. A feature after the last of these has none, so that there are none where no ring is protected.
    pub ways: Vec<Option<Vec<usize>>>,
    /// The threshold, where it was chosen for a share.
    pub chosen: Option<u128>,
}

/// What is left of a topology or of layers.
#[derive(Drop)]
pub struct Left {
    /// It as a topology.
    pub topology: Topology,
    /// The lines and rings that are dropped, in reading order, an object in the place of a layer.
    pub dropped: Vec<Dropped>,
    /// How many positions are removed from the arcs that stay: a count that stays at `u64::MAX` where it would pass it.
    pub removed_count: u64,
    /// The threshold, where it was chosen for a share.
    pub chosen: Option<u128>,
}

// What building reports beside the topology.
use geojson_types::{Counts, Dropped};
use json_value::Items;

/// What was counted in building a topology. A count that would pass `u64::MAX` stays there.
#[derive(Debug, Drop)]
pub struct Report {
    /// What was counted in reading the layers, added over them.
    pub counts: Counts,
    /// The lines and rings that aren't written, in reading order.
    pub dropped: Items<Dropped>,
    /// Features of which lines or rings aren't written, and nothing is left.
    pub lost: u64,
    /// Arcs that are written.
    pub arcs: u64,
    /// Positions in these arcs.
    pub kept: u64,
    /// Positions that were removed from these arcs.
    pub removed: u64,
    /// The threshold that was chosen where a share was asked for: twice an area, in square units.
    pub chosen: Option<u128>,
}

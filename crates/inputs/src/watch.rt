// Looking on while inputs are read.
use extraction::ExtractedLayer;
use geojson_meaning::{Dropped, Position};
use owned_values::Items;
use segment_crossings::Crossing;
use std::alloc::Global;
use topojson_types::Topology;

/// What looks on while inputs are read and a topology is made of them or counted, so that more can be said of the run and nothing is read again for
/// it. Nothing that is written rests on it.
pub trait Watch {
    /// The next layer is read, which these bytes spell.
    fn layer_read(&mut self, _alloc: Global, _bytes: &[u8], _layer: &ExtractedLayer) {}

    /// The file of a topology is read, which these bytes spell.
    fn file_read(&mut self, _alloc: Global, _bytes: &[u8]) {}

    /// A call fails at these bytes, the last that were read, which stay to the end of the process.
    fn refused(&mut self, _bytes: &'static [u8]) {}

    /// Whether more is asked than a report or a fault: the bytes that are refused, and the geometries of a topology that is counted.
    fn asks_for_more(&self) -> bool {
        false
    }

    /// A topology is counted.
    fn counted(&mut self, _alloc: Global, _topology: &Topology) {}

    /// How many pairs of segments that meet badly it wants to see, where they are counted.
    fn most_crossings(&self) -> usize {
        0
    }

    /// The pairs of segments that meet badly are counted, of the topology's arcs of these positions: these are some of them, or all.
    fn crossed(
        &mut self,
        _alloc: Global,
        _topology: &Topology,
        _arcs: &[Items<Position>],
        _crossings: &[Crossing],
    ) {}

    /// The topology of the layers is written, without these lines and rings, in reading order.
    fn built(&mut self, _alloc: Global, _topology: &Topology, _dropped: &[Dropped]) {}

    /// What is left of the topology of a file is written, without these lines and rings, in reading order.
    fn simplified(&mut self, _alloc: Global, _topology: &Topology, _dropped: &[Dropped]) {}
}

/// Shows bytes that were read, where that failed and more is asked. They stay to the end of the process then.
pub fn show_refused<T, E, K: Watch>(bytes: Vec<u8>, read: &Result<T, E>, watch: &mut K) {
    if read.is_err() && watch.asks_for_more() {
        watch.refused(bytes.leak());
    }
}

/// Nobody looks on.
#[derive(Drop)]
pub struct Unwatched;

impl Watch for Unwatched {}

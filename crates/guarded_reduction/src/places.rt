// The places of arcs, which of them are left, and their neighbours.
pub mod flattening;
pub mod holding;
pub mod linked_places;
pub mod neighbours;
pub mod shown_places;

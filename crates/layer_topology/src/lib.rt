//! From layers to the topology that is written of them: on the grid that is asked for, cut into arcs, these reduced at the level that is
//! asked for, and put together again. On a grid cells stand in place of positions, by the grid's transform. It stands on `linework`,
//! `cutter` and `arc_table` for the arcs, on a reducer and the weights of `effective_area`, on `topo_model` for the topology, and on
//! `grid_snap` for the grid; on `build_meaning` for what that topology is. The engine uses the contract of
//! `topology_of_layers` and the laws of `laws.rt`.
#![tactic(auto)]

mod at_once;
mod cells;
mod choosing;
mod in_turn;
mod laws;
mod layers;
mod left_laws;
mod level;
mod making;
mod reduction;
mod renumbering;
mod topologies;
mod topology;
mod transforms;
mod used;

pub use build_meaning::Guards;
pub use laws::written_laws;
pub use layers::snap_layers;
pub use left_laws::{
    guarded_at_zero, left_by_lines, left_law, share_stays, unguarded_is_written, written_left_law,
};
pub use level::Level;
pub use making::topology_of_layers;
pub use reduction::Reduction;
pub use topo_model::Left;
pub use topologies::{arc_positions, left_of_topology};
pub use topology::on_grid;
pub use transforms::{transform, units_number};

// Quantized topologies.
ghost use Rattle.std.specs.Prelude.{◌≡◌, IfOk, None, Some};
ghost use Rattle.build_meaning.specs.Quantized.{IsOn, quantized};
ghost use Rattle.build_meaning.specs.GridTransforms.{transform_of};
ghost use Rattle.build_meaning.specs.Celled.{EachCell};

use crate::cells::{Gridding, arcs_on};
use crate::transforms::transform;
use build_meaning::quantized_is_valid;
use grid_snap::Grid;
use owned_values::Memory;
use std::alloc::Global;
use topo_model::prune_objects;
use topojson_types::{Topology, Transform};

/// The topology with the cells of its positions in their place, and with the grid's transform.
#[tactic(auto, using(geometry::proofs::Moved::refilled, crate::proofs::Agreeing::finished, crate::proofs::Agreeing::named_placed))]
fn with_cells(
    alloc: Global,
    topology: Topology,
    grid: &Grid,
    transform: Transform,
) -> Result<Topology, Memory>
    requires plain { topology.transform ≡ None }
    requires on { EachCell (IsOn (Some grid.now)) topology }
    requires transform { transform ≡ transform_of grid.now }
    ensures { IfOk result (λ y. y ≡ quantized (Some grid.now) topology) }
{
    grid.law();
    quantized_is_valid();
    let (mut objects, mut arcs, _transform) = topology.into_parts();
    prune_objects(alloc, &Gridding::on(grid), objects.as_mut_slice())?;
    arcs_on(grid, arcs.as_mut_slice());
    Ok(Topology::of(objects, arcs, Some(transform)))
}

/// The topology on the grid (TopoJSON 1.0, section 2.1.2), if there is one. Its positions lie on the grid, so each cell lies where
/// the position lay.
pub fn on_grid(alloc: Global, topology: Topology, grid: Option<Grid>) -> Result<Topology, Memory>
    requires plain { topology.transform ≡ None }
    requires on { EachCell (IsOn grid) topology }
    ensures { IfOk result (λ y. y ≡ quantized grid topology) }
{
    match grid {
        None => Ok(topology),
        Some(grid) => match transform(alloc, &grid) {
            Ok(transform) => with_cells(alloc, topology, &grid, transform),
            Err(fault) => {
                drop(topology);
                Err(fault)
            }
        },
    }
}

// The topology that is left where of each arc of a topology only some cells stay.
ghost use Rattle.std.specs.Prelude.{◌≡◌, ◌≤◌, [], ℕ, IfOk, List, length, map};
ghost use Rattle.byte_ends.specs.Ends.{saturated};
ghost use Rattle.geometry.specs.Points.{Point};
ghost use Rattle.geometry.specs.Units.{threshold_limit};
ghost use Rattle.build_meaning.specs.Simplified.{dropped_by, removed_count_by, retained_arcs, simplified_by};
ghost use Rattle.topo_model.specs.Parts.{contents};
ghost use Rattle.topo_model.specs.Retaining.{AreRetainedOf};

use crate::finishing::finish;
use crate::left::{Left, Retained};
use build_meaning::unprotected_is_simplified;
use json_value::{Items, OwnText};
use owned_values::Memory;
use std::alloc::Global;
use topojson_types::{TopoObject, Transform};

/// What is left of a valid topology with these objects and this transform, of whose arcs these cells stay. Lines and rings that are then left
/// with too few positions, and rings of which twice the area is under the limit (in square units), are left out, and so are arcs that no kept
/// line uses. No ring is protected.
pub fn reassemble(
    alloc: Global,
    objects: Items<(OwnText, TopoObject)>,
    transform: Option<Transform>,
    retained: Retained,
    ring_limit: u128,
) -> Result<Left, Memory>
    requires retained { AreRetainedOf objects transform retained.arcs.items retained.counts.items }
    requires limit { ring_limit ≤ threshold_limit }
    requires ways { retained.ways.items ≡ [] }
    ensures topology { IfOk result (λ r. (kept : List (List ℕ)) (arcs : List (List Point)) → retained.arcs.items ≡ retained_arcs kept arcs
        → r.topology ≡ simplified_by kept ring_limit (contents objects arcs transform)) }
    ensures dropped { IfOk result (λ r. (kept : List (List ℕ)) (arcs : List (List Point)) → retained.arcs.items ≡ retained_arcs kept arcs
        → r.dropped.items ≡ dropped_by kept ring_limit (contents objects arcs transform)) }
    ensures removed_count { IfOk result (λ r. (kept : List (List ℕ)) (arcs : List (List Point)) → retained.arcs.items ≡ retained_arcs kept arcs → retained.counts.items ≡ map length arcs
        → r.removed_count ≡ saturated (removed_count_by kept ring_limit (contents objects arcs transform))) }
    ensures chosen { IfOk result (λ r. r.chosen ≡ retained.chosen) }
{
    unprotected_is_simplified();
    finish(
        alloc,
        objects.into_inner(),
        retained,
        transform,
        None,
        ring_limit,
    )
}

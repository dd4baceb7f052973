// Rings by the numbers of the arcs that are left.
ghost use Rattle.std.specs.Prelude.{◌≡◌, ℕ, Bool, IfOk, length, map};
ghost use Rattle.std.specs.List.{AllByRecursion};
ghost use Rattle.build_meaning.specs.Trimming.{renumbered};
ghost use Rattle.geometry.specs.Joins.{AreInRange};
ghost use Rattle.topo_model.specs.Renumbering.{renumbered_by};
ghost use Rattle.topo_model.specs.Uses.{answers};

use json_value::Items;
use owned_values::Memory;
use std::alloc::Global;
use topo_model::{ArcRef, renumber_all, renumbering};

/// Replaces the arc indexes of rings by the new ones.
#[tactic(auto, using(geometry::proofs::Moved::starts, geometry::proofs::Moved::turns, geometry::proofs::Moved::ends, geometry::proofs::Moved::refilled))]
fn renumber_rings(rings: &mut [Items<ArcRef>], new_indexes: &[ArcRef])
    ensures { rings.new ≡ map (map (renumbered_by new_indexes.now)) rings.old }
{
    'rings: for refs in rings.iter_mut() {
        renumber_all(refs.as_mut_slice(), new_indexes);
    }
}

/// The rings by the numbers that their arcs have where only the arcs with a set flag are left.
#[tactic(auto, using(geometry::proofs::Moved::refilled, crate::proofs::RingsRenumbered::rings_renumbered))]
pub(crate) fn renumbered_rings(
    alloc: Global,
    used: &[bool],
    rings: Vec<Items<ArcRef>>,
) -> Result<Vec<Items<ArcRef>>, Memory>
    requires { AllByRecursion (AreInRange (length used.now)) rings.items }
    ensures { IfOk result (λ r. (u : ℕ → Bool) → used.now ≡ answers u 0 (length used.now) → r.items ≡ map (map (renumbered u)) rings.items) }
{
    let new_indexes = renumbering(alloc, used)?;
    let mut renumbered = rings;
    renumber_rings(renumbered.as_mut_slice(), &new_indexes);
    Ok(renumbered)
}

// Which positions of arcs stay that are reduced at once, and at which threshold.
ghost use Rattle.std.specs.Prelude.{◌≡◌, IfOk, length, map, true};
ghost use Rattle.build_meaning.specs.ProtectedRings.{CanStay};
ghost use Rattle.guarded_meaning.specs.Guards.{guarded_by};
ghost use Rattle.layer_topology.specs.Levels.{chosen_for, is_simplifying_level, reduced_by, threshold_by};

use crate::level::Level;
use geojson_types::Position;
use guarded_reduction::{reduce_guarded, reduce_to_share};
use json_value::Items;
use owned_values::Memory;
use std::alloc::Global;
use topojson_types::ArcRef;

/// Of each arc the numbers of the positions that stay where all are reduced at once at a level, no crossing may be made, where that is asked for, and
/// these rings have to stay; and the threshold, where it was chosen for a share. The rings are given by their arc indexes, and have four positions or
/// more before, with equal neighbours as one.
pub fn kept_at_once(
    alloc: Global,
    arcs: &[Items<Position>],
    no_crossings: bool,
    rings: &[Items<ArcRef>],
    level: Level,
) -> Result<(Vec<Vec<usize>>, Option<u128>), Memory>
    requires level { is_simplifying_level level ≡ true }
    requires rings { CanStay arcs.now rings.now }
    ensures kept { IfOk result (λ r. map (λ k. k.items) r.0.items
        ≡ reduced_by (guarded_by no_crossings rings.now) level arcs.now) }
    ensures chosen { IfOk result (λ r. r.1 ≡ chosen_for level (threshold_by (guarded_by no_crossings rings.now) level arcs.now)) }
{
    match level {
        Level::Fixed(threshold) => {
            let kept = reduce_guarded(alloc, arcs, no_crossings, rings, threshold)?;
            Ok((kept, None))
        }
        Level::Share { p, q } => {
            let (kept, threshold) = reduce_to_share(alloc, arcs, no_crossings, rings, p, q)?;
            Ok((kept, Some(threshold)))
        }
    }
}

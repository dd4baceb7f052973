// The lines and rings that a walk drops, and where they stand.
ghost use Rattle.std.specs.Prelude.{◌≡◌, ◌++◌, OnOk};
ghost use Rattle.topo_model.specs.Places.{dropped_at};
ghost use Rattle.geometry.specs.Addresses.{part_address};
ghost use Rattle.geometry.specs.DropCauses.{here, inner_cause};

use geojson_types::{Address, Cause, Dropped};
use owned_values::Memory;
use std::alloc::Global;

/// Why a hole is dropped, if it is: for its own cause, or else because the outer ring is dropped.
pub fn hole_cause(outer: Option<Cause>, hole: Option<Cause>) -> Option<Cause>
    ensures { result ≡ inner_cause outer hole }
{
    match (outer, hole) {
        (Some(_), None) => Some(Cause::Outer),
        _ => hole,
    }
}

/// Adds what stands at this place, if there is a cause to drop it.
pub fn add_here(
    place: Address,
    cause: Option<Cause>,
    dropped: &mut Vec<Dropped>,
) -> Result<(), Memory>
    ensures { OnOk result (dropped.new.items ≡ dropped.old.items ++ dropped_at place (here cause)) }
{
    if let Some(cause) = cause {
        dropped.push(Dropped {
            address: place,
            cause,
        })?;
    }
    Ok(())
}

/// Adds the part with this number of what stands at this place, if there is a cause to drop it.
pub fn add_part(
    alloc: Global,
    place: &Address,
    number: usize,
    cause: Option<Cause>,
    dropped: &mut Vec<Dropped>,
) -> Result<(), Memory>
    ensures { OnOk result (dropped.new.items ≡ dropped.old.items ++ dropped_at (part_address place.now number) (here cause)) }
{
    if let Some(cause) = cause {
        let address = place.part(alloc, number)?;
        dropped.push(Dropped { address, cause })?;
    }
    Ok(())
}

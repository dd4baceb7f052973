// The positions of lines and rings.
ghost use Rattle.std.specs.Prelude.{◌≡◌, IfOk, false, length, map, true};
ghost use Rattle.std.specs.List.{AllByRecursion};
ghost use Rattle.std.specs.Option.{option_copied};
ghost use Rattle.topojson_types.specs.Decoding.{decoded_line, placed_arcs};
ghost use Rattle.topojson_types.specs.Transforms.{place};
ghost use Rattle.topojson_types.specs.Validity.{AreInRange, IsPlace};
ghost use Rattle.topojson_types.specs.LinesAndRings.{IsLineOrRing};

use crate::cell::Cell;
use crate::line_walk::LineWalk;
use crate::placing::position_at;
use crate::topology::Topology;
use crate::transform::Transform;
use geojson_types::{Position, Ring};
use geometry::ArcRef;
use json_value::Items;
use owned_values::Memory;
use std::alloc::Global;

/// Where cells lie.
#[tactic(auto, using(owned_values::proofs::Elements::all_at, owned_values::proofs::Lists::mapped_more))]
pub fn positions(
    alloc: Global,
    transform: Option<&Transform>,
    cells: &[Cell],
) -> Result<Items<Position>, Memory>
    requires { AllByRecursion (IsPlace (option_copied transform)) cells.now }
    ensures { IfOk result (λ ps. ps ≡ map (place (option_copied transform.entry)) cells.now) }
{
    let mut positions = Vec::with_capacity(alloc, cells.len())?;
    'cells: for cell in cells {
        positions.push(position_at(transform, *cell))?;
    }
    Ok(Items::of(positions))
}

/// The positions of a line or a ring of these arcs.
fn line_positions(
    alloc: Global,
    topology: &Topology,
    refs: &[ArcRef],
    is_closed: bool,
) -> Result<Vec<Position>, Memory>
    requires { AreInRange (length topology.now.arcs) refs.now }
    ensures { IfOk result (λ ps. ps.items ≡ decoded_line (placed_arcs topology.now.transform topology.now.arcs) is_closed refs.now) }
{
    let mut positions = Vec::new(alloc);
    'positions: for position in LineWalk::over(topology, refs, is_closed) {
        positions.push(position)?;
    }
    Ok(positions)
}

/// The positions of an open line.
pub fn line(alloc: Global, topology: &Topology, refs: &[ArcRef]) -> Result<Items<Position>, Memory>
    requires { IsLineOrRing topology.now (false, refs.now) }
    ensures { IfOk result (λ ps. ps ≡ decoded_line (placed_arcs topology.now.transform topology.now.arcs) false refs.now) }
{
    Ok(Items::of(line_positions(alloc, topology, refs, false)?))
}

/// The ring of these arcs, filled up to four positions by its first.
#[tactic(auto, using(crate::proofs::Ends::ring_is))]
pub fn ring(alloc: Global, topology: &Topology, refs: &[ArcRef]) -> Result<Ring, Memory>
    requires { IsLineOrRing topology.now (true, refs.now) }
    ensures { IfOk result (λ r. r ≡ decoded_line (placed_arcs topology.now.transform topology.now.arcs) true refs.now) }
{
    Ok(Ring::of(line_positions(alloc, topology, refs, true)?))
}

/// Open lines, in order.
pub fn lines(
    alloc: Global,
    topology: &Topology,
    lines: &[Items<ArcRef>],
) -> Result<Items<Items<Position>>, Memory>
    requires { AllByRecursion (λ l. IsLineOrRing topology.now (false, l)) lines.now }
    ensures { IfOk result (λ ls. ls ≡ map (decoded_line (placed_arcs topology.now.transform topology.now.arcs) false) lines.now) }
{
    let mut decoded = Vec::with_capacity(alloc, lines.len())?;
    'lines: for refs in lines {
        decoded.push(line(alloc, topology, refs.as_slice())?)?;
    }
    Ok(Items::of(decoded))
}

/// The rings of a polygon, in order.
pub fn rings(
    alloc: Global,
    topology: &Topology,
    rings: &[Items<ArcRef>],
) -> Result<Items<Ring>, Memory>
    requires { AllByRecursion (λ l. IsLineOrRing topology.now (true, l)) rings.now }
    ensures { IfOk result (λ rs. rs ≡ map (decoded_line (placed_arcs topology.now.transform topology.now.arcs) true) rings.now) }
{
    let mut decoded = Vec::with_capacity(alloc, rings.len())?;
    'rings: for refs in rings {
        decoded.push(ring(alloc, topology, refs.as_slice())?)?;
    }
    Ok(Items::of(decoded))
}

/// Polygons, in order.
pub fn areas(
    alloc: Global,
    topology: &Topology,
    areas: &[Items<Items<ArcRef>>],
) -> Result<Items<Items<Ring>>, Memory>
    requires { AllByRecursion (λ rs. AllByRecursion (λ l. IsLineOrRing topology.now (true, l)) rs) areas.now }
    ensures { IfOk result (λ as_. as_ ≡ map (map (decoded_line (placed_arcs topology.now.transform topology.now.arcs) true)) areas.now) }
{
    let mut decoded = Vec::with_capacity(alloc, areas.len())?;
    'areas: for area in areas {
        decoded.push(rings(alloc, topology, area.as_slice())?)?;
    }
    Ok(Items::of(decoded))
}

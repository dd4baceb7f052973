// The walk over layers that gathers their lines and rings, and the addresses of those that collapsed.
ghost use Rattle.std.specs.Prelude.{◌≡◌, OnOk, true, false, map};
ghost use Rattle.geometry.specs.Rings.{is_ring};
ghost use Rattle.geometry.specs.Paths.{alone, of_parts, placed_lines_and_rings};
ghost use Rattle.linework.specs.Linework.{line_or_ring_at, lines_and_rings_of_layer};
ghost use Rattle.junctions.specs.Gathering.{with_lines_and_rings};

use crate::cleaning::cleaned;
use geojson_types::Feature;
use geometry::{Address, Position, Ring, Shape};
use junctions::{Lines, Stroke};
use owned_values::{Items, Memory};
use std::alloc::Global;

/// Adds the lines and rings of the features of the layer with this number.
#[tactic(auto, using(crate::proofs::Gathered::with_none, crate::proofs::Gathered::features_turn))]
pub fn add_layer(
    alloc: Global,
    layer: usize,
    features: &[Feature],
    lines: &mut Lines,
) -> Result<(), Memory>
    ensures { OnOk result (lines.new ≡ with_lines_and_rings lines.old (lines_and_rings_of_layer layer 0 features.now)) }
{
    for (number, feature) in features.iter().enumerate() {
        if let Some(shape) = feature.shape() {
            let address = Address::of_feature(alloc, layer, number);
            add_shape(alloc, address, shape, lines)?;
        }
    }
    Ok(())
}

// Adds the lines and rings of the shape at this address.
#[cycle(shapes)]
fn add_shape(
    alloc: Global,
    address: Address,
    shape: &Shape,
    lines: &mut Lines,
) -> Result<(), Memory>
    ensures { OnOk result (lines.new ≡ with_lines_and_rings lines.old (map (line_or_ring_at address) (placed_lines_and_rings shape.now))) }
{
    match shape {
        Shape::Point(_) => Ok(()),
        Shape::MultiPoint(_) => Ok(()),
        Shape::Line(line) => add_line_or_ring(alloc, address, false, line.as_slice(), lines),
        Shape::Lines(parts) => add_lines(alloc, &address, parts.as_slice(), lines),
        Shape::Area(rings) => add_rings(alloc, &address, rings.as_slice(), lines),
        Shape::Areas(areas) => add_areas(alloc, &address, areas.as_slice(), lines),
        Shape::Group(shapes) => add_shapes(alloc, address, shapes.as_slice(), lines),
    }
}

// Adds the lines and rings of the shapes of the group at this address.
#[cycle(shapes)]
fn add_shapes(
    alloc: Global,
    address: Address,
    shapes: &[Shape],
    lines: &mut Lines,
) -> Result<(), Memory>
    ensures { OnOk result
        (lines.new ≡ with_lines_and_rings lines.old (map (line_or_ring_at address) (of_parts 0 (map placed_lines_and_rings shapes.now)))) }
{
    let group = address.into_group(alloc)?;
    for (number, shape) in shapes.iter().enumerate() {
        let part = group.part(alloc, number)?;
        add_shape(alloc, part, shape, lines)?;
    }
    Ok(())
}

// Adds the rings of the polygons at this address.
#[tactic(auto, using(crate::proofs::Gathered::with_none, crate::proofs::Gathered::parts_turn, crate::proofs::Gathered::rings))]
fn add_areas(
    alloc: Global,
    address: &Address,
    areas: &[Items<Ring>],
    lines: &mut Lines,
) -> Result<(), Memory>
    ensures { OnOk result
        (lines.new ≡ with_lines_and_rings lines.old
        (map (line_or_ring_at address.now) (of_parts 0 (map (λ rs. of_parts 0 (map (λ r. alone (true, r)) rs)) areas.now)))) }
{
    for (number, rings) in areas.iter().enumerate() {
        let part = address.part(alloc, number)?;
        add_rings(alloc, &part, rings.as_slice(), lines)?;
    }
    Ok(())
}

// Adds the rings of the polygon at this address.
#[tactic(auto, using(crate::proofs::Gathered::with_none, crate::proofs::Gathered::parts_turn, crate::proofs::Gathered::single))]
fn add_rings(
    alloc: Global,
    address: &Address,
    rings: &[Ring],
    lines: &mut Lines,
) -> Result<(), Memory>
    ensures { OnOk result
        (lines.new ≡ with_lines_and_rings lines.old (map (line_or_ring_at address.now) (of_parts 0 (map (λ r. alone (true, r)) rings.now)))) }
{
    for (number, ring) in rings.iter().enumerate() {
        let part = address.part(alloc, number)?;
        add_line_or_ring(alloc, part, true, ring.as_slice(), lines)?;
    }
    Ok(())
}

// Adds the lines at this address.
#[tactic(auto, using(crate::proofs::Gathered::with_none, crate::proofs::Gathered::parts_turn, crate::proofs::Gathered::single))]
fn add_lines(
    alloc: Global,
    address: &Address,
    parts: &[Items<Position>],
    lines: &mut Lines,
) -> Result<(), Memory>
    ensures { OnOk result
        (lines.new ≡ with_lines_and_rings lines.old (map (line_or_ring_at address.now) (of_parts 0 (map (λ l. alone (false, l)) parts.now)))) }
{
    for (number, line) in parts.iter().enumerate() {
        let part = address.part(alloc, number)?;
        add_line_or_ring(alloc, part, false, line.as_slice(), lines)?;
    }
    Ok(())
}

// Adds a line or a ring.
#[tactic(auto, using(junctions::proofs::Cleaned::clean_is_clean, crate::proofs::Gathered::single, crate::proofs::Gathered::with_alone))]
fn add_line_or_ring(
    alloc: Global,
    address: Address,
    closed: bool,
    positions: &[Position],
    lines: &mut Lines,
) -> Result<(), Memory>
    requires { closed ≡ true → is_ring positions.now ≡ true }
    ensures { OnOk result (lines.new ≡ with_lines_and_rings lines.old (map (line_or_ring_at address) (alone (closed, positions.now)))) }
{
    let positions = Items::of(cleaned(alloc, positions)?);
    lines.add(address, Stroke { closed, positions })
}

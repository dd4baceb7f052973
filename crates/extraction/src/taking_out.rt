// Features without their lines and rings, and these by themselves.
ghost use Rattle.std.specs.Prelude.{◌≡◌, ◌∷◌, [], IfOk, false, map, true};
ghost use Rattle.geometry.specs.Lists.{joined, map_some};
ghost use Rattle.geometry.specs.Pruning.{option_lines_and_rings, lines_and_rings};
ghost use Rattle.extraction.specs.Extracts.{TakesApart, feature_relined, no_refs, relined};

use crate::position_cells::cells;
use geojson_types::{Feature, Geometry, Position, Ring, Shape};
use json_value::Items;
use linework::Outlines;
use owned_values::Memory;
use std::alloc::Global;
use topojson_types::{ArcRef, Cell, TopoFeature, TopoShape};

/// Takes an open line or a ring out. Nothing stands for it.
fn extract_line(
    alloc: Global,
    closed: bool,
    positions: Items<Position>,
    outlines: &mut Outlines,
) -> Result<Items<ArcRef>, Memory>
    ensures { IfOk result (λ made. TakesApart ((closed, positions) ∷ []) [] outlines.old made outlines.new) }
{
    outlines.push(closed, positions)?;
    Ok(Items::of(Vec::new(alloc)))
}

/// Takes these open lines out, in order.
fn extract_lines(
    alloc: Global,
    lines: Vec<Items<Position>>,
    outlines: &mut Outlines,
) -> Result<Vec<Items<ArcRef>>, Memory>
    ensures { IfOk result (λ made. TakesApart (map (λ l. (false, l)) lines.items) (map (no_refs false) lines.items) outlines.old made.items outlines.new) }
{
    let mut made = Vec::with_capacity(alloc, lines.len())?;
    'lines: for line in lines {
        made.push(extract_line(alloc, false, line, outlines)?)?;
    }
    Ok(made)
}

/// Takes these rings out, in order.
fn extract_rings(
    alloc: Global,
    rings: Vec<Ring>,
    outlines: &mut Outlines,
) -> Result<Vec<Items<ArcRef>>, Memory>
    ensures { IfOk result (λ made. TakesApart (map (λ l. (true, l)) rings.items) (map (no_refs true) rings.items) outlines.old made.items outlines.new) }
{
    let mut made = Vec::with_capacity(alloc, rings.len())?;
    'rings: for ring in rings {
        let positions = Items::of(ring.into_inner());
        made.push(extract_line(alloc, true, positions, outlines)?)?;
    }
    Ok(made)
}

/// Takes each ring of these polygons out, in order.
fn extract_areas(
    alloc: Global,
    areas: Vec<Items<Ring>>,
    outlines: &mut Outlines,
) -> Result<Vec<Items<Items<ArcRef>>>, Memory>
    ensures { IfOk result (λ made. TakesApart (joined (map (map (λ l. (true, l))) areas.items)) (map (map (no_refs true)) areas.items) outlines.old made.items outlines.new) }
{
    let mut made = Vec::with_capacity(alloc, areas.len())?;
    'areas: for rings in areas {
        let rings = extract_rings(alloc, rings.into_inner(), outlines)?;
        made.push(Items::of(rings))?;
    }
    Ok(made)
}

/// The shape without its lines and rings, which are taken out.
#[tactic(auto, using(crate::proofs::TakenOut::lines_at, crate::proofs::TakenOut::left_at))]
fn extract_shape(alloc: Global, shape: Shape, outlines: &mut Outlines) -> Result<TopoShape, Memory>
    ensures { IfOk result (λ made. TakesApart (lines_and_rings shape) (relined no_refs shape) outlines.old made outlines.new) }
{
    match shape {
        Geometry::Point(position) => Ok(Geometry::Point(Cell::of(position))),
        Geometry::MultiPoint(positions) => {
            Ok(Geometry::MultiPoint(cells(alloc, positions.as_slice())?))
        }
        Geometry::Line(line) => {
            let refs = extract_line(alloc, false, line, outlines)?;
            Ok(Geometry::Line(refs))
        }
        Geometry::Lines(lines) => {
            let made = extract_lines(alloc, lines.into_inner(), outlines)?;
            Ok(Geometry::Lines(Items::of(made)))
        }
        Geometry::Area(rings) => {
            let made = extract_rings(alloc, rings.into_inner(), outlines)?;
            Ok(Geometry::Area(Items::of(made)))
        }
        Geometry::Areas(areas) => {
            let made = extract_areas(alloc, areas.into_inner(), outlines)?;
            Ok(Geometry::Areas(Items::of(made)))
        }
        Geometry::Group(shapes) => {
            let shapes = shapes.into_inner();
            let mut made = Vec::with_capacity(alloc, shapes.len())?;
            'shapes: for shape in shapes {
                made.push(extract_shape(alloc, shape, outlines)?)?;
            }
            Ok(Geometry::Group(Items::of(made)))
        }
    }
}

/// The shape without its lines and rings, if there is one.
fn extract_option(
    alloc: Global,
    shape: Option<Shape>,
    outlines: &mut Outlines,
) -> Result<Option<TopoShape>, Memory>
    ensures { IfOk result (λ made. TakesApart (option_lines_and_rings shape) (map_some (relined no_refs) shape) outlines.old made outlines.new) }
{
    match shape {
        None => Ok(None),
        Some(shape) => Ok(Some(extract_shape(alloc, shape, outlines)?)),
    }
}

/// The feature without its lines and rings. Identifier and properties are moved.
pub(crate) fn extract_feature(
    alloc: Global,
    feature: Feature,
    outlines: &mut Outlines,
) -> Result<TopoFeature, Memory>
    ensures { IfOk result (λ made. TakesApart (option_lines_and_rings feature.shape) (feature_relined no_refs feature) outlines.old made outlines.new) }
{
    let (id, properties, shape) = feature.into_parts();
    match extract_option(alloc, shape, outlines) {
        Err(fault) => {
            drop(id);
            drop(properties);
            Err(fault)
        }
        Ok(shape) => Ok(TopoFeature {
            id,
            properties,
            shape,
        }),
    }
}

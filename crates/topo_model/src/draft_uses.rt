// Which arcs objects use before any is reduced: those that the lines and rings name that aren't left out then.
ghost use Rattle.std.specs.Prelude.{◌≡◌, IfOk, None, Some, if◌then◌else◌, map, true};
ghost use Rattle.std.specs.List.{list_any};
ghost use Rattle.build_meaning.specs.OuterRings.{along, ends_here, rings_marked};
ghost use Rattle.build_meaning.specs.Protected.{sparing};
ghost use Rattle.build_meaning.specs.Simplified.{objects_pruned};
ghost use Rattle.build_meaning.specs.Trimming.{is_used};
ghost use Rattle.geometry.specs.Lists.{map_some};
ghost use Rattle.geometry.specs.Pruning.{area_by};
ghost use Rattle.topojson_types.specs.Topologies.{object_features};
ghost use Rattle.topo_model.specs.Along.{large_along, objects_along, ways_after};
ghost use Rattle.topo_model.specs.DraftUses.{left_names, object_uses, refs_at_first, rings_name, shape_uses, with_refs};
ghost use Rattle.topo_model.specs.Marks.{also_set};
ghost use Rattle.topo_model.specs.Uses.{answers};

use crate::marking::{mark_refs, unused_flags};
use crate::rebuilding::Rebuilding;
use crate::way_steps::{Ways, ends_here, into_part};
use geojson_types::Geometry;
use json_value::{Items, OwnText};
use owned_values::Memory;
use std::alloc::Global;
use topojson_types::{ArcRef, TopoFeature, TopoObject, TopoShape};

/// Which of so many arcs the lines and rings of a draft use, without those that have no arc index, and without the polygons whose outer
/// ring has none.
pub(crate) fn draft_arcs(
    alloc: Global,
    objects: &[(OwnText, TopoObject)],
    arcs: usize,
) -> Result<Vec<bool>, Memory>
    ensures { IfOk result (λ used. used.items ≡ answers (is_used (objects_pruned with_refs objects.now)) 0 arcs) }
{
    arcs_used(alloc, objects, None, &[], arcs)
}

/// Which of so many arcs the lines and rings use that aren't small where they are rebuilt of the arcs as they stand, and the rings to which the
/// ways of features lead, but no rings of polygons whose outer ring is small and isn't one of these.
pub fn used_at_first(
    alloc: Global,
    objects: &[(OwnText, TopoObject)],
    first: &Rebuilding<'_>,
    ways: &[Option<Vec<usize>>],
    arcs: usize,
) -> Result<Vec<bool>, Memory>
    ensures { IfOk result (λ used. used.items
        ≡ answers (is_used (large_along first.now.limit first.now.arcs (map (map_some (λ v. v.items)) ways.now) objects.now)) 0 arcs) }
{
    arcs_used(alloc, objects, Some(first), ways, arcs)
}

/// Which of so many arcs the lines and rings use that stay at first.
fn arcs_used(
    alloc: Global,
    objects: &[(OwnText, TopoObject)],
    first: Option<&Rebuilding<'_>>,
    ways: &[Option<Vec<usize>>],
    arcs: usize,
) -> Result<Vec<bool>, Memory>
    ensures { IfOk result (λ used. used.items
        ≡ answers (is_used (objects_along (sparing (refs_at_first (map_some (λ r. r.now) first.entry))) (map (map_some (λ v. v.items)) ways.now) objects.now)) 0 arcs) }
{
    let mut used = unused_flags(alloc, arcs)?;
    let mut rest = Ways::of(ways);
    'objects: for object in objects {
        mark_object(first, &object.1, &mut rest, &mut used);
    }
    Ok(used)
}

/// Sets the flags of the arcs of those of an object.
fn mark_object(
    first: Option<&Rebuilding<'_>>,
    object: &TopoObject,
    ways: &mut Ways<'_>,
    used: &mut [bool],
)
    ensures used { used.new ≡ also_set (object_uses (sparing (refs_at_first (map_some (λ r. r.now) first.entry))) ways.old object.now) 0 used.old }
    ensures ways { ways.new ≡ ways_after ways.old (object_features object.now) }
{
    match object {
        TopoObject::One(feature) => mark_feature(first, feature, ways.next(), used),
        TopoObject::Many(features) => {
            'features: for feature in features.as_slice() {
                mark_feature(first, feature, ways.next(), used);
            }
        }
    }
}

/// Sets the flags of the arcs of those of a feature.
fn mark_feature(
    first: Option<&Rebuilding<'_>>,
    feature: &TopoFeature,
    way: Option<&[usize]>,
    used: &mut [bool],
)
    ensures { used.new ≡ also_set (shape_uses (sparing (refs_at_first (map_some (λ r. r.now) first.entry))) (map_some (λ w. w.now) way.entry) feature.now.shape) 0 used.old }
{
    if let Some(shape) = &feature.shape {
        mark_shape(first, shape, way, used);
    }
}

/// Sets the flags of the arcs of those of a shape.
fn mark_shape(
    first: Option<&Rebuilding<'_>>,
    shape: &TopoShape,
    way: Option<&[usize]>,
    used: &mut [bool],
)
    ensures { used.new ≡ also_set (shape_uses (sparing (refs_at_first (map_some (λ r. r.now) first.entry))) (map_some (λ w. w.now) way.entry) (Some shape.now)) 0 used.old }
{
    match shape {
        Geometry::Point(_) => {}
        Geometry::MultiPoint(_) => {}
        Geometry::Line(refs) => mark_line(first, false, refs, used),
        Geometry::Lines(lines) => mark_lines(first, false, lines.as_slice(), used),
        Geometry::Area(rings) => mark_rings(first, rings.as_slice(), way, used),
        Geometry::Areas(areas) => mark_areas(first, areas.as_slice(), way, used),
        Geometry::Group(shapes) => {
            let members = shapes.as_slice();
            'shapes: for i in 0..members.len() {
                mark_shape(first, &members[i], into_part(way, i), used);
            }
        }
    }
}

/// Sets the flags of the arcs of those of polygons.
fn mark_areas(
    first: Option<&Rebuilding<'_>>,
    areas: &[Items<Items<ArcRef>>],
    way: Option<&[usize]>,
    used: &mut [bool],
)
    ensures { used.new ≡ also_set (λ n. list_any (λ rs. rings_name (area_by (sparing (refs_at_first (map_some (λ r. r.now) first.entry)) true) rs) n)
        (along rings_marked 0 areas.now (map_some (λ w. w.now) way.entry))) 0 used.old }
{
    'areas: for i in 0..areas.len() {
        mark_rings(first, areas[i].as_slice(), into_part(way, i), used);
    }
}

/// Sets the flags of the arcs of those of a polygon: none where its outer ring is left out.
fn mark_rings(
    first: Option<&Rebuilding<'_>>,
    rings: &[Items<ArcRef>],
    way: Option<&[usize]>,
    used: &mut [bool],
)
    ensures { used.new ≡ also_set (rings_name (area_by (sparing (refs_at_first (map_some (λ r. r.now) first.entry)) true) (rings_marked rings.now (map_some (λ w. w.now) way.entry)))) 0 used.old }
{
    let Some((outer, holes)) = rings.split_first() else {
        return;
    };
    let outer = outer.as_slice();
    if outer_stays(first, outer, way) {
        mark_refs(outer, used);
        mark_lines(first, true, holes, used);
    }
}

/// Sets the flags of the arcs of those of these lines or rings.
fn mark_lines(
    first: Option<&Rebuilding<'_>>,
    closed: bool,
    lines: &[Items<ArcRef>],
    used: &mut [bool],
)
    ensures { used.new ≡ also_set (λ n. list_any (λ l. left_names (refs_at_first (map_some (λ r. r.now) first.entry) closed l) n) lines.now) 0 used.old }
{
    'lines: for line in lines {
        mark_line(first, closed, line, used);
    }
}

/// Sets the flags of the arcs of a line or ring, if it stays.
fn mark_line(first: Option<&Rebuilding<'_>>, closed: bool, refs: &Items<ArcRef>, used: &mut [bool])
    ensures { used.new ≡ also_set (left_names (refs_at_first (map_some (λ r. r.now) first.entry) closed refs.now)) 0 used.old }
{
    let refs = refs.as_slice();
    if stays(first, closed, refs) {
        mark_refs(refs, used);
    }
}

/// Whether the outer ring of a polygon stays at first: the way ends there, or it stays as other rings do.
fn outer_stays(first: Option<&Rebuilding<'_>>, outer: &[ArcRef], way: Option<&[usize]>) -> bool
    ensures { sparing (refs_at_first (map_some (λ r. r.now) first.entry)) true (ends_here (map_some (λ w. w.now) way.entry), outer.now) ≡ (if result then Some outer.now else None) }
{
    ends_here(way) || stays(first, true, outer)
}

/// Whether a line or ring stays at first: it isn't small, or where no arcs are given it has an index.
fn stays(first: Option<&Rebuilding<'_>>, closed: bool, refs: &[ArcRef]) -> bool
    ensures { refs_at_first (map_some (λ r. r.now) first.entry) closed refs.now ≡ (if result then Some refs.now else None) }
{
    match first {
        None => !refs.is_empty(),
        Some(arcs) => !arcs.is_small(closed, refs),
    }
}

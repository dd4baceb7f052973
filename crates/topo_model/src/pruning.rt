// What is left of shapes without some of their lines and rings, with the arc indexes of the others and the cells of points replaced, and what
// is dropped of them. All of it is found in one walk, which changes shapes where they stand. The outer ring at the end of a way stays as it is.
ghost use Rattle.std.specs.Prelude.{◌≡◌, ◌++◌, ◌≤◌, ℤ, Bool, false, true, List, Option, None, Some, IfOk, IfSome, OnOk, drop, if◌then◌else◌, length, map, take};
ghost use Rattle.geometry.specs.DropCauses.{area_drop_causes, here, inner_cause, drop_causes};
ghost use Rattle.geometry.specs.declared.address.Cause.{Cause as Why};
ghost use Rattle.geometry.specs.Lists.{map_some, some_of};
ghost use Rattle.geometry.specs.Paths.{of_parts};
ghost use Rattle.geometry.specs.Points.{Point};
ghost use Rattle.geometry.specs.Pruning.{area_by, prune};
ghost use Rattle.build_meaning.specs.Expected.{unless};
ghost use Rattle.build_meaning.specs.InTurn.{paired, rings_paired};
ghost use Rattle.build_meaning.specs.OuterRings.{along, ends_here, marked, rings_marked};
ghost use Rattle.build_meaning.specs.Protected.{sparing};
ghost use Rattle.topo_model.specs.Along.{feature_placed_along};
ghost use Rattle.topo_model.specs.Drops.{pair_sparing, shape_drops};
ghost use Rattle.topo_model.specs.Places.{dropped_at};

use crate::places::{add_here, add_part, hole_cause};
use crate::way_steps::{ends_here, into_part};
use geojson_types::{Address, Cause, Dropped, Geometry};
use json_value::Items;
use owned_values::Memory;
use std::alloc::Global;
use std::mem;
use topojson_types::{ArcRef, Cell, TopoFeature, TopoShape};

/// What says of each line and ring whether it stays, and with which arc indexes, and which cell stands in the place of one of a point.
pub trait Keeps {
    /// The cell in the place of one of a Point or a MultiPoint.
    ghost places: { Self → Point → Point };

    /// The arc indexes that stand for an open line (false) or a ring (true), if it stays.
    ghost keeps: { Self → Bool → List ℤ → Option (List ℤ) };

    /// Why it is left out for its own sake, where of a hole the outer ring is known that is left out.
    ghost goes: { Self → Bool → Option (List ℤ) × List ℤ → Option Why };

    fn place(&self, cell: Cell) -> Cell
        ensures { result ≡ places self.now cell };

    /// Why it is left out, if it is, and it stays as it is then. If it isn't, its arc indexes are replaced by those.
    fn keep(&self, closed: bool, refs: &mut Items<ArcRef>) -> Option<Cause>
        ensures left { keeps self.now closed refs.old ≡ unless result refs.new }
        ensures alone { IfSome result (λ cause. refs.new ≡ refs.old) }
        ensures cause { result ≡ goes self.now closed (None, refs.old) };

    /// Why a hole is left out for its own sake, if it is, where the outer ring of its polygon is left out.
    fn hole_goes(&self, outer: &[ArcRef], hole: &[ArcRef]) -> Option<Cause>
        ensures { result ≡ goes self.now true (Some outer.now, hole.now) };
}

/// Puts cells in the places of those of a MultiPoint.
fn place_cells<K: Keeps>(keeps: &K, cells: &mut [Cell])
    ensures { cells.new ≡ map (K.places keeps.now) cells.old }
{
    'cells: for cell in cells.iter_mut() {
        *cell = keeps.place(*cell);
    }
}

/// Leaves so many of the first items. This allocates nothing.
fn truncate<T: Drop>(alloc: Global, items: &mut Items<T>, many: usize)
    ensures { items.new ≡ take many items.old }
{
    let mut rest = mem::replace(items, Items::of(Vec::new(alloc))).into_inner();
    rest.truncate(many);
    *items = Items::of(rest);
}

/// Prunes the outer ring of a polygon. Where the way ends here it stays as it is.
fn prune_outer<K: Keeps>(
    keeps: &K,
    refs: &mut Items<ArcRef>,
    way: Option<&[usize]>,
) -> Option<Cause>
    ensures left { sparing (K.keeps keeps.now) true (ends_here (map_some (λ w. w.now) way.entry), refs.old) ≡ unless result refs.new }
    ensures alone { IfSome result (λ cause. refs.new ≡ refs.old) }
    ensures cause { result ≡ pair_sparing (K.goes keeps.now) true (None, (ends_here (map_some (λ w. w.now) way.entry), refs.old)) }
{
    if ends_here(way) {
        return None;
    }
    keeps.keep(true, refs)
}

/// Prunes the lines at this place, or the holes of a polygon that stays, from this number on. Those that stay move to the front, after those
/// before that number.
fn prune_lines<K: Keeps>(
    alloc: Global,
    keeps: &K,
    place: &Address,
    closed: bool,
    first: usize,
    lines: &mut Items<Items<ArcRef>>,
    dropped: &mut Vec<Dropped>,
) -> Result<(), Memory>
    requires { first ≤ length lines.old }
    ensures left { OnOk result (lines.new ≡ take first lines.old ++ some_of (K.keeps keeps.now closed) (drop first lines.old)) }
    ensures dropped { OnOk result (dropped.new.items ≡ dropped.old.items ++ dropped_at place.now
        (of_parts first (map (λ l. here (K.goes keeps.now closed (None, l))) (drop first lines.old)))) }
{
    let parts = lines.as_mut_slice();
    let mut kept = first;
    for i in first..parts.len() {
        let cause = keeps.keep(closed, &mut parts[i]);
        add_part(alloc, place, i, cause, dropped)?;
        if cause.is_none() {
            parts.swap(kept, i);
            kept += 1;
        }
    }
    truncate(alloc, lines, kept);
    Ok(())
}

/// Adds the holes of the polygon at this place, whose outer ring is left out for a cause.
fn drop_holes<K: Keeps>(
    alloc: Global,
    keeps: &K,
    place: &Address,
    cause: Option<Cause>,
    outer: &[ArcRef],
    holes: &[Items<ArcRef>],
    dropped: &mut Vec<Dropped>,
) -> Result<(), Memory>
    ensures { OnOk result (dropped.new.items ≡ dropped.old.items ++ dropped_at place.now
        (of_parts 1 (map (λ l. here (inner_cause cause (K.goes keeps.now true (Some outer.now, l)))) holes.now))) }
{
    'holes: for i in 0..holes.len() {
        let own = keeps.hole_goes(outer, holes[i].as_slice());
        add_part(alloc, place, i + 1, hole_cause(cause, own), dropped)?;
    }
    Ok(())
}

/// Prunes the rings of the polygon at this place, and says whether it stays, which it does with its outer ring. With that each hole is dropped.
fn prune_rings<K: Keeps>(
    alloc: Global,
    keeps: &K,
    place: &Address,
    rings: &mut Items<Items<ArcRef>>,
    way: Option<&[usize]>,
    dropped: &mut Vec<Dropped>,
) -> Result<bool, Memory>
    ensures left { IfOk result (λ stays. area_by (sparing (K.keeps keeps.now) true) (rings_marked rings.old (map_some (λ w. w.now) way.entry)) ≡ (if stays then Some rings.new else None)) }
    ensures dropped { OnOk result (dropped.new.items ≡ dropped.old.items ++ dropped_at place.now
        (area_drop_causes (pair_sparing (K.goes keeps.now) true) (rings_paired (rings_marked rings.old (map_some (λ w. w.now) way.entry))))) }
{
    if rings.is_empty() {
        return Ok(false);
    }
    let cause = prune_outer(keeps, &mut rings.as_mut_slice()[0], way);
    add_part(alloc, place, 0, cause, dropped)?;
    if cause.is_none() {
        prune_lines(alloc, keeps, place, true, 1, rings, dropped)?;
        return Ok(true);
    }
    let parts = rings.as_slice();
    drop_holes(
        alloc,
        keeps,
        place,
        cause,
        parts[0].as_slice(),
        &parts[1..],
        dropped,
    )?;
    Ok(false)
}

/// Prunes the polygons at this place. Those that stay move to the front.
fn prune_areas<K: Keeps>(
    alloc: Global,
    keeps: &K,
    place: &Address,
    areas: &mut Items<Items<Items<ArcRef>>>,
    way: Option<&[usize]>,
    dropped: &mut Vec<Dropped>,
) -> Result<(), Memory>
    ensures left { OnOk result (areas.new ≡ some_of (area_by (sparing (K.keeps keeps.now) true)) (along rings_marked 0 areas.old (map_some (λ w. w.now) way.entry))) }
    ensures dropped { OnOk result (dropped.new.items ≡ dropped.old.items ++ dropped_at place.now
        (of_parts 0 (map (λ rs. area_drop_causes (pair_sparing (K.goes keeps.now) true) (rings_paired rs)) (along rings_marked 0 areas.old (map_some (λ w. w.now) way.entry))))) }
{
    let parts = areas.as_mut_slice();
    let mut kept: usize = 0;
    for i in 0..parts.len() {
        let part = place.part(alloc, i)?;
        let stays = prune_rings(
            alloc,
            keeps,
            &part,
            &mut parts[i],
            into_part(way, i),
            dropped,
        )?;
        if stays {
            parts.swap(kept, i);
            kept += 1;
        }
    }
    truncate(alloc, areas, kept);
    Ok(())
}

/// Prunes the shape at this place, and says whether anything is left of it. Adds the lines and rings that are dropped, and the rings of
/// polygons whose outer ring is, in reading order.
fn prune_shape<K: Keeps>(
    alloc: Global,
    keeps: &K,
    place: Address,
    shape: &mut TopoShape,
    way: Option<&[usize]>,
    dropped: &mut Vec<Dropped>,
) -> Result<bool, Memory>
    ensures left { IfOk result (λ stays. prune (K.places keeps.now) (sparing (K.keeps keeps.now)) (marked shape.old (map_some (λ w. w.now) way.entry)) ≡ (if stays then Some shape.new else None)) }
    ensures dropped { OnOk result (dropped.new.items ≡ dropped.old.items ++ dropped_at place
        (drop_causes (pair_sparing (K.goes keeps.now)) (paired (marked shape.old (map_some (λ w. w.now) way.entry))))) }
{
    match shape {
        Geometry::Point(cell) => {
            *cell = keeps.place(*cell);
            Ok(true)
        }
        Geometry::MultiPoint(cells) => {
            place_cells(keeps, cells.as_mut_slice());
            Ok(true)
        }
        Geometry::Line(refs) => {
            let cause = keeps.keep(false, refs);
            add_here(place, cause, dropped)?;
            Ok(cause.is_none())
        }
        Geometry::Lines(lines) => {
            prune_lines(alloc, keeps, &place, false, 0, lines, dropped)?;
            Ok(!lines.is_empty())
        }
        Geometry::Area(rings) => prune_rings(alloc, keeps, &place, rings, way, dropped),
        Geometry::Areas(areas) => {
            prune_areas(alloc, keeps, &place, areas, way, dropped)?;
            Ok(!areas.is_empty())
        }
        Geometry::Group(shapes) => {
            let group = place.into_group(alloc)?;
            let members = shapes.as_mut_slice();
            let mut kept: usize = 0;
            'shapes: for i in 0..members.len() {
                let part = group.part(alloc, i)?;
                let stays = prune_shape(
                    alloc,
                    keeps,
                    part,
                    &mut members[i],
                    into_part(way, i),
                    dropped,
                )?;
                if stays {
                    members.swap(kept, i);
                    kept += 1;
                }
            }
            truncate(alloc, shapes, kept);
            Ok(true)
        }
    }
}

/// Prunes the shape of the feature at this place.
pub fn prune_feature<K: Keeps>(
    alloc: Global,
    keeps: &K,
    place: Address,
    feature: &mut TopoFeature,
    way: Option<&[usize]>,
    dropped: &mut Vec<Dropped>,
) -> Result<(), Memory>
    ensures feature { OnOk result (feature.new ≡ feature_placed_along (K.places keeps.now) (sparing (K.keeps keeps.now)) (map_some (λ w. w.now) way.entry) feature.old) }
    ensures dropped { OnOk result (dropped.new.items ≡ dropped.old.items ++ dropped_at place
        (shape_drops (pair_sparing (K.goes keeps.now)) (map_some (λ w. w.now) way.entry) feature.old.shape)) }
{
    let Some(shape) = feature.shape.as_mut() else {
        return Ok(());
    };
    if !prune_shape(alloc, keeps, place, shape, way, dropped)? {
        feature.shape = None;
    }
    Ok(())
}

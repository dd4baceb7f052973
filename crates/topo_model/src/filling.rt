// Arc indexes in the places of the lines and rings that were taken out of layers.
ghost use Rattle.std.specs.Prelude.{◌≡◌, map};
ghost use Rattle.build_meaning.specs.Layers.{Named, named_lines_and_rings};
ghost use Rattle.linework.specs.Outlines.{is_short_outline};
ghost use Rattle.topo_model.specs.Drafts.{Fill, RefsOf, feature_filled, in_turn, line_filled, lines_filled, long_refs, named_filled, next_refs, no_refs, object_filled, objects_drafted, objects_relined, shape_filled, spread};

use geojson_types::Geometry;
use json_value::{Items, OwnText};
use std::alloc::Global;
use std::marker::Model;
use std::mem;
use topojson_types::{ArcRef, TopoFeature, TopoObject, TopoShape};

/// The arc indexes of lines and rings, in reading order, after those that were taken: those that are given, and none for a line with a set flag.
#[derive(Drop)]
pub struct Remaining<'a> {
    refs: Vec<Items<ArcRef>>,
    next: usize,
    short: &'a [bool],
}

impl<'a> Model for Remaining<'a> {
    ghost use Rattle.std.specs.Prelude.{List, ℤ, drop};
    ghost use Rattle.topo_model.specs.Drafts.{spread};

    ghost Value = { List (List ℤ) };

    ghost view = { λ w. spread w.short.now (drop w.next w.refs.items) };
}

impl<'a> Remaining<'a> {
    /// The arc indexes of all lines and rings.
    fn all(refs: Vec<Items<ArcRef>>, short: &'a [bool]) -> Remaining<'a>
        ensures { result ≡ spread short.now refs.items }
    {
        Remaining {
            refs,
            next: 0,
            short,
        }
    }

    /// Takes the next. They are moved out.
    fn take(&mut self, alloc: Global) -> Items<ArcRef>
        ensures { next_refs self.old ≡ (result, self.new) }
    {
        let none = Items::of(Vec::new(alloc));
        let Some((is_short, later)) = self.short.split_first() else {
            return none;
        };
        self.short = later;
        if *is_short || self.next >= self.refs.len() {
            return none;
        }
        let refs = mem::replace(&mut self.refs[self.next], none);
        self.next += 1;
        refs
    }
}

/// A way to fill the places of the lines and rings of something, in reading order.
pub trait FillPlaces<T> {
    ghost fills: { T → Fill T };

    fn fill(alloc: Global, part: &mut T, remaining: &mut Remaining<'_>)
        ensures { fills part.old remaining.old ≡ (part.new, remaining.new) };
}

/// Fills the places of these parts, in order.
fn fill_all<F: FillPlaces<T>, T>(alloc: Global, parts: &mut [T], remaining: &mut Remaining<'_>)
    ensures { in_turn (map F.fills parts.old) remaining.old ≡ (parts.new, remaining.new) }
{
    'parts: for part in parts.iter_mut() {
        F::fill(alloc, part, remaining);
    }
}

/// The way to fill the place of a line or ring.
struct Lines;

impl FillPlaces<Items<ArcRef>> for Lines {
    ghost fills = { line_filled };

    fn fill(alloc: Global, refs: &mut Items<ArcRef>, remaining: &mut Remaining<'_>) {
        *refs = remaining.take(alloc);
    }
}

/// The way to fill those of a polygon.
struct Areas;

impl FillPlaces<Items<Items<ArcRef>>> for Areas {
    ghost fills = { lines_filled };

    fn fill(alloc: Global, rings: &mut Items<Items<ArcRef>>, remaining: &mut Remaining<'_>) {
        fill_all::<Lines, Items<ArcRef>>(alloc, rings.as_mut_slice(), remaining);
    }
}

/// Fills the places of a shape.
fn fill_shape(alloc: Global, shape: &mut TopoShape, remaining: &mut Remaining<'_>)
    ensures { shape_filled shape.old remaining.old ≡ (shape.new, remaining.new) }
{
    match shape {
        Geometry::Point(_) => {}
        Geometry::MultiPoint(_) => {}
        Geometry::Line(refs) => Lines::fill(alloc, refs, remaining),
        Geometry::Lines(lines) => {
            fill_all::<Lines, Items<ArcRef>>(alloc, lines.as_mut_slice(), remaining);
        }
        Geometry::Area(rings) => {
            fill_all::<Lines, Items<ArcRef>>(alloc, rings.as_mut_slice(), remaining);
        }
        Geometry::Areas(areas) => {
            fill_all::<Areas, Items<Items<ArcRef>>>(alloc, areas.as_mut_slice(), remaining);
        }
        Geometry::Group(shapes) => {
            'shapes: for shape in shapes.as_mut_slice().iter_mut() {
                fill_shape(alloc, shape, remaining);
            }
        }
    }
}

/// The way to fill those of a feature.
struct Features;

impl FillPlaces<TopoFeature> for Features {
    ghost fills = { feature_filled };

    fn fill(alloc: Global, feature: &mut TopoFeature, remaining: &mut Remaining<'_>) {
        if let Some(shape) = feature.shape.as_mut() {
            fill_shape(alloc, shape, remaining);
        }
    }
}

/// Fills the places of an object.
fn fill_object(alloc: Global, object: &mut TopoObject, remaining: &mut Remaining<'_>)
    ensures { object_filled object.old remaining.old ≡ (object.new, remaining.new) }
{
    match object {
        TopoObject::One(_) => {}
        TopoObject::Many(features) => {
            fill_all::<Features, TopoFeature>(alloc, features.as_mut_slice(), remaining);
        }
    }
}

/// The way to fill those of a named object.
struct Objects;

impl FillPlaces<(OwnText, TopoObject)> for Objects {
    ghost fills = { named_filled };

    fn fill(alloc: Global, object: &mut (OwnText, TopoObject), remaining: &mut Remaining<'_>) {
        fill_object(alloc, &mut object.1, remaining);
    }
}

/// The objects with arc indexes in the places of their lines and rings, in reading order: the next of those that are given, or none where the
/// flag is set, which it is of a line or ring that has too few positions from the first. They are moved, and so are the objects.
pub fn filled(
    alloc: Global,
    objects: Vec<(OwnText, TopoObject)>,
    refs: Vec<Items<ArcRef>>,
    short: &[bool],
) -> Vec<(OwnText, TopoObject)>
    ensures { (ls : Named) (of : RefsOf) → objects.items ≡ objects_relined no_refs ls → short.now ≡ map is_short_outline (named_lines_and_rings ls)
        → refs.items ≡ long_refs of (named_lines_and_rings ls) → result.items ≡ objects_drafted of ls }
{
    let mut objects = objects;
    let mut remaining = Remaining::all(refs, short);
    fill_all::<Objects, (OwnText, TopoObject)>(alloc, &mut objects, &mut remaining);
    objects
}

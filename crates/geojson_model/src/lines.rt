// Lines, rings and polygons.
ghost use Rattle.std.specs.Prelude.{◌≡◌};
ghost use Rattle.geojson_meaning.specs.Lines.{line};
ghost use Rattle.geojson_meaning.specs.Polygons.{polygon, ring};
ghost use Rattle.json_cursor.specs.Answers.{Answers};
ghost use Rattle.json_cursor.specs.Arrays.{prefix_value};
ghost use Rattle.json_cursor.specs.Folds.{some_one};

use crate::positions::positions_at;
use geojson_meaning::GeoFaultKind;
use geojson_types::{Counts, Position, Ring, is_closed};
use json_cursor::{Element, Stop, led_array_at};
use json_value::Items;
use std::alloc::Global;

/// The line at the front (RFC 7946, section 3.1.4), if its array isn't empty, and what follows it; or why reading stops.
pub(crate) fn line_at<'a>(
    alloc: Global,
    depth_left: u32,
    bytes: &'a [u8],
    exact: bool,
    counts: &mut Counts,
) -> Result<(Option<Items<Position>>, &'a [u8]), Stop<GeoFaultKind>>
    ensures { Answers (λ x. x) (line exact) (prefix_value depth_left bytes.now) counts.old counts.new result }
{
    match positions_at(alloc, depth_left, bytes, exact, counts) {
        Err(stop) => Err(stop),
        Ok((read, rest)) => {
            let Some(positions) = read else {
                return Ok((None, rest));
            };
            if positions.len() < 2 {
                return Err(Stop::Fault(GeoFaultKind::ShortLine));
            }
            Ok((Some(positions), rest))
        }
    }
}

/// The linear ring at the front (RFC 7946, section 3.1.6), if its array isn't empty, and what follows it; or why reading stops.
#[tactic(auto, unfolding(geometry::specs::Rings::is_ring))]
pub(crate) fn ring_at<'a>(
    alloc: Global,
    depth_left: u32,
    bytes: &'a [u8],
    exact: bool,
    counts: &mut Counts,
) -> Result<(Option<Ring>, &'a [u8]), Stop<GeoFaultKind>>
    ensures { Answers (λ x. x) (ring exact) (prefix_value depth_left bytes.now) counts.old counts.new result }
{
    match positions_at(alloc, depth_left, bytes, exact, counts) {
        Err(stop) => Err(stop),
        Ok((read, rest)) => {
            let Some(items) = read else {
                return Ok((None, rest));
            };
            let positions = items.into_inner();
            if positions.len() < 4 {
                return Err(Stop::Fault(GeoFaultKind::ShortRing));
            }
            if !is_closed(&positions) {
                return Err(Stop::Fault(GeoFaultKind::OpenRing));
            }
            Ok((Some(Ring::of(positions)), rest))
        }
    }
}

/// How the lines of an array are read.
#[derive(Clone, Copy)]
pub(crate) struct Lines {
    pub exact: bool,
}

impl Element for Lines {
    type Read = Items<Position>;

    type Fault = GeoFaultKind;

    ghost reads = { λ r. some_one (line r.exact) };

    fn read<'a>(
        self,
        alloc: Global,
        depth_left: u32,
        bytes: &'a [u8],
        counts: &mut Counts,
    ) -> Result<(Option<Items<Position>>, &'a [u8]), Stop<GeoFaultKind>> {
        match line_at(alloc, depth_left, bytes, self.exact, counts) {
            Ok((line, rest)) => Ok((line, rest)),
            Err(stop) => Err(stop),
        }
    }
}

/// How the rings of a polygon are read.
#[derive(Clone, Copy)]
pub(crate) struct Rings {
    pub exact: bool,
}

impl Element for Rings {
    type Read = Ring;

    type Fault = GeoFaultKind;

    ghost reads = { λ r. some_one (ring r.exact) };

    fn read<'a>(
        self,
        alloc: Global,
        depth_left: u32,
        bytes: &'a [u8],
        counts: &mut Counts,
    ) -> Result<(Option<Ring>, &'a [u8]), Stop<GeoFaultKind>> {
        match ring_at(alloc, depth_left, bytes, self.exact, counts) {
            Ok((ring, rest)) => Ok((ring, rest)),
            Err(stop) => Err(stop),
        }
    }
}

/// The rings of the polygon at the front, the outer one first, if its array isn't empty and its outer ring isn't left out, and what
/// follows it; or why reading stops.
#[tactic(auto, using(json_cursor::proofs::ArrayParts::same_answers, crate::proofs::LineParts::polygon_is))]
pub(crate) fn polygon_at<'a>(
    alloc: Global,
    depth_left: u32,
    bytes: &'a [u8],
    exact: bool,
    counts: &mut Counts,
) -> Result<(Option<Items<Ring>>, &'a [u8]), Stop<GeoFaultKind>>
    ensures { Answers (λ x. x) (polygon exact) (prefix_value depth_left bytes.now) counts.old counts.new result }
{
    let wrong = GeoFaultKind::WrongKind;
    led_array_at::<Rings>(alloc, depth_left, bytes, wrong, Rings { exact }, counts)
}

/// How the polygons of an array are read.
#[derive(Clone, Copy)]
pub(crate) struct Polygons {
    pub exact: bool,
}

impl Element for Polygons {
    type Read = Items<Ring>;

    type Fault = GeoFaultKind;

    ghost reads = { λ r. some_one (polygon r.exact) };

    fn read<'a>(
        self,
        alloc: Global,
        depth_left: u32,
        bytes: &'a [u8],
        counts: &mut Counts,
    ) -> Result<(Option<Items<Ring>>, &'a [u8]), Stop<GeoFaultKind>> {
        match polygon_at(alloc, depth_left, bytes, self.exact, counts) {
            Ok((rings, rest)) => Ok((rings, rest)),
            Err(stop) => Err(stop),
        }
    }
}

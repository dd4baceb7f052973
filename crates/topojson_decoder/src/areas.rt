// Polygons as arc indexes (TopoJSON 1.0, section 2.2.5).
ghost use Rattle.json_cursor.specs.Answers.{Answers};
ghost use Rattle.json_cursor.specs.Arrays.{prefix_value};
ghost use Rattle.json_cursor.specs.Folds.{some_one};
ghost use Rattle.topojson_meaning.specs.Lines.{polygon};

use crate::lines_and_rings::LinesAndRings;
use geojson_types::Counts;
use json_cursor::{Element, Stop, led_array_at};
use json_value::Items;
use std::alloc::Global;
use topojson_meaning::TopoFault;
use topojson_types::{ArcRef, Cell};

/// The rings of the polygon at the front, the outer one first, if its array isn't empty and its outer ring isn't left out, and what follows
/// it; or why reading stops.
#[tactic(auto, using(crate::proofs::Then::same_answers, crate::proofs::ShapeParts::polygon_is))]
pub fn polygon_at<'a>(
    alloc: Global,
    depth_left: u32,
    arcs: &[Items<Cell>],
    bytes: &'a [u8],
    counts: &mut Counts,
) -> Result<(Option<Items<Items<ArcRef>>>, &'a [u8]), Stop<TopoFault>>
    ensures { Answers (λ x. x) (polygon arcs.now) (prefix_value depth_left bytes.now) counts.old counts.new result }
{
    let rings = LinesAndRings { arcs, closed: true };
    led_array_at::<LinesAndRings>(
        alloc,
        depth_left,
        bytes,
        TopoFault::WrongKind,
        rings,
        counts,
    )
}

/// How polygons are read as the elements of an array.
#[derive(Clone, Copy)]
pub(crate) struct Areas<'t> {
    pub arcs: &'t [Items<Cell>],
}

impl<'t> Element for Areas<'t> {
    type Read = Items<Items<ArcRef>>;

    type Fault = TopoFault;

    ghost reads = { λ s. some_one (polygon s.arcs.now) };

    #[inline(always)]
    fn read<'a>(
        self,
        alloc: Global,
        depth_left: u32,
        bytes: &'a [u8],
        counts: &mut Counts,
    ) -> Result<(Option<Items<Items<ArcRef>>>, &'a [u8]), Stop<TopoFault>> {
        match polygon_at(alloc, depth_left, self.arcs, bytes, counts) {
            Err(stop) => Err(stop),
            Ok((polygon, rest)) => Ok((polygon, rest)),
        }
    }
}

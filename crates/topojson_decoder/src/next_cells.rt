// How the cells of an arc are read, one after another: without a transform, or with one.
ghost use Rattle.std.specs.Prelude.{◌≡◌, Option, None, Some, IfOk, IfSome};
ghost use Rattle.json_value.specs.Text.{json_text};
ghost use Rattle.geojson_types.specs.declared.counts.Counts.{Counts as Counted};
ghost use Rattle.json_cursor.specs.Answers.{Answers, Reads};
ghost use Rattle.json_cursor.specs.Arrays.{prefix_value};
ghost use Rattle.topojson_types.specs.declared.transform.Transform.{Transform as Moving};
ghost use Rattle.topojson_types.specs.Values.{arc_value};
ghost use Rattle.topojson_meaning.specs.Arcs as spec;
ghost use Rattle.topojson_decoder.specs.Cells.{cell_from};

use crate::cells::{difference_at, position_at};
use crate::grids::Grid;
use crate::least_arcs::least_arc_at;
use geojson_types::Counts;
use json_cursor::Stop;
use std::alloc::{AllocError, Global};
use topojson_meaning::TopoFault;
use topojson_types::Cell;

/// How a cell is read that stands after another in its arc. What reads an arc is made for each way, so that its loop has one alone.
pub trait NextCell: Copy {
    /// The transform that the cells stand by.
    ghost transform: { Self → Option Moving };

    /// The cell at the front, which is after this one in its arc, and what follows it.
    fn next_at<'a>(
        self,
        alloc: Global,
        depth_left: u32,
        before: Cell,
        bytes: &'a [u8],
        counts: &mut Counts,
    ) -> Result<(Cell, &'a [u8]), Stop<TopoFault>>
        ensures { Answers (λ c. c) (cell_from (transform self) before) (prefix_value depth_left bytes.now) counts.old counts.new result };

    /// The text in which the arc at the front stands, where it is what is written of the arc without a transform, and what follows it. Its cells
    /// are put into the list.
    fn written_at<'a>(
        self,
        depth_left: u32,
        list: &mut Vec<Cell>,
        bytes: &'a [u8],
    ) -> Result<Option<(&'a [u8], &'a [u8])>, AllocError>
        ensures reads { IfOk result (λ o. IfSome o (λ x. (counts : Counted) → Reads (spec.arc (transform self)) (prefix_value depth_left bytes.now) list.new.items x.1.now counts counts)) }
        ensures text { IfOk result (λ o. IfSome o (λ x. x.0.now ≡ json_text (arc_value None list.new.items))) };
}

/// Each cell stands as its position.
#[derive(Clone, Copy)]
pub struct ByPositions;

impl NextCell for ByPositions {
    ghost transform = { λ _. None };

    #[inline(always)]
    fn next_at<'a>(
        self,
        alloc: Global,
        depth_left: u32,
        _before: Cell,
        bytes: &'a [u8],
        counts: &mut Counts,
    ) -> Result<(Cell, &'a [u8]), Stop<TopoFault>> {
        position_at(alloc, depth_left, bytes, counts)
    }

    fn written_at<'a>(
        self,
        depth_left: u32,
        list: &mut Vec<Cell>,
        bytes: &'a [u8],
    ) -> Result<Option<(&'a [u8], &'a [u8])>, AllocError> {
        least_arc_at(depth_left, list, bytes)
    }
}

/// Each cell stands as its difference from the one before it.
#[derive(Clone, Copy)]
pub struct ByDifferences<'t> {
    pub(crate) grid: Grid<'t>,
}

impl<'t> NextCell for ByDifferences<'t> {
    ghost transform = { λ s. Some s.grid.transform.now };

    #[inline(always)]
    fn next_at<'a>(
        self,
        alloc: Global,
        depth_left: u32,
        before: Cell,
        bytes: &'a [u8],
        counts: &mut Counts,
    ) -> Result<(Cell, &'a [u8]), Stop<TopoFault>> {
        difference_at(alloc, depth_left, self.grid, before, bytes, counts)
    }

    #[inline(always)]
    fn written_at<'a>(
        self,
        _depth_left: u32,
        _list: &mut Vec<Cell>,
        _bytes: &'a [u8],
    ) -> Result<Option<(&'a [u8], &'a [u8])>, AllocError> {
        Ok(None)
    }
}

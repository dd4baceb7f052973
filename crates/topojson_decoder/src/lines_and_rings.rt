// Lines and rings as arc indexes (TopoJSON 1.0, section 2.1.4).
ghost use Rattle.std.specs.Prelude.{◌≡◌, MatchOption, true};
ghost use Rattle.std.specs.Option.{option_copied};
ghost use Rattle.json_cursor.specs.Answers.{Answers};
ghost use Rattle.json_cursor.specs.Arrays.{prefix_value};
ghost use Rattle.json_cursor.specs.Folds.{some_one};
ghost use Rattle.topojson_meaning.specs.Lines as spec;
ghost use Rattle.topojson_decoder.specs.LinesAndRings.{IndexesSoFar, is_open as has_gap, line_or_ring, with_index};

use crate::joins::{closes, is_joined};
use crate::numbers::{Scale, number_at};
use geojson_types::Counts;
use json_cursor::{Element, Elements, Stop, folded_some_at, numbers_ahead};
use json_value::Items;
use std::alloc::Global;
use std::marker::Model;
use topojson_meaning::TopoFault;
use topojson_types::{ArcRef, Cell};

/// The greatest magnitude of a number that may be an index.
const INDEX_LIMIT: u64 = 9_223_372_036_854_775_807;

/// The index at the front, where there are so many arcs, and what follows it.
#[inline(always)]
fn index_at<'a>(
    alloc: Global,
    depth_left: u32,
    count: usize,
    bytes: &'a [u8],
    counts: &mut Counts,
) -> Result<(ArcRef, &'a [u8]), Stop<TopoFault>>
    ensures { Answers (λ i. i) (spec.index count) (prefix_value depth_left bytes.now) counts.old counts.new result }
{
    match number_at(alloc, depth_left, Scale::Whole(INDEX_LIMIT), bytes) {
        Err(stop) => Err(stop),
        Ok((number, rest)) => {
            let Some(number) = number else {
                return Err(Stop::Fault(TopoFault::IndexRange));
            };
            if !number.exact {
                return Err(Stop::Fault(TopoFault::WrongKind));
            }
            let reference = ArcRef::of(number.value);
            if reference.index() >= count {
                return Err(Stop::Fault(TopoFault::IndexRange));
            }
            Ok((reference, rest))
        }
    }
}

/// The indexes of a line or a ring that were read so far.
#[derive(Drop)]
struct Indexes<'t> {
    arcs: &'t [Items<Cell>],
    before: Option<ArcRef>,
    list: Vec<ArcRef>,
}

impl<'t> Model for Indexes<'t> {
    ghost Value = { IndexesSoFar };

    ghost view = { λ s. ((s.arcs.now, s.before), s.list.items) };
}

impl<'a, 't> Elements<'a> for Indexes<'t> {
    type Fault = TopoFault;

    type With = ();

    ghost takes = { λ _. with_index };

    #[inline(always)]
    fn element(
        &mut self,
        alloc: Global,
        depth_left: u32,
        bytes: &'a [u8],
        _with: (),
        counts: &mut Counts,
    ) -> Result<&'a [u8], Stop<TopoFault>> {
        match index_at(alloc, depth_left, self.arcs.len(), bytes, counts) {
            Err(stop) => Err(stop),
            Ok((reference, rest)) => {
                if !is_joined(self.arcs, self.before, reference) {
                    return Err(Stop::Fault(TopoFault::Unjoined));
                }
                self.list.push(reference)?;
                self.before = Some(reference);
                Ok(rest)
            }
        }
    }
}

/// Whether these have to close, and don't.
fn is_open(arcs: &[Items<Cell>], closed: bool, refs: &[ArcRef]) -> bool
    ensures { result ≡ has_gap closed arcs.now refs.now }
{
    closed && !closes(arcs, refs)
}

/// The ring at the front, where it has to close, or else the line, if its array isn't empty, and what follows it; or why reading stops.
pub fn line_or_ring_at<'a>(
    alloc: Global,
    depth_left: u32,
    arcs: &[Items<Cell>],
    closed: bool,
    bytes: &'a [u8],
    counts: &mut Counts,
) -> Result<(Option<Items<ArcRef>>, &'a [u8]), Stop<TopoFault>>
    ensures { Answers (λ x. x) (line_or_ring closed arcs.now) (prefix_value depth_left bytes.now) counts.old counts.new result }
{
    let list = Vec::with_capacity(alloc, numbers_ahead(bytes))?;
    let start = Indexes {
        arcs,
        before: None,
        list,
    };
    match folded_some_at::<Indexes>(
        alloc,
        depth_left,
        start,
        bytes,
        TopoFault::WrongKind,
        (),
        counts,
    ) {
        Err(stop) => Err(stop),
        Ok((read, rest)) => {
            let Some(indexes) = read else {
                return Ok((None, rest));
            };
            let mut refs = indexes.list;
            if is_open(arcs, closed, &refs) {
                return Err(Stop::Fault(TopoFault::OpenRing));
            }
            refs.shrink_to_fit();
            Ok((Some(Items::of(refs)), rest))
        }
    }
}

/// How lines or rings are read as the elements of an array.
#[derive(Clone, Copy)]
pub(crate) struct LinesAndRings<'t> {
    pub arcs: &'t [Items<Cell>],
    pub closed: bool,
}

impl<'t> Element for LinesAndRings<'t> {
    type Read = Items<ArcRef>;

    type Fault = TopoFault;

    ghost reads = { λ s. some_one (line_or_ring s.closed s.arcs.now) };

    #[inline(always)]
    fn read<'a>(
        self,
        alloc: Global,
        depth_left: u32,
        bytes: &'a [u8],
        counts: &mut Counts,
    ) -> Result<(Option<Items<ArcRef>>, &'a [u8]), Stop<TopoFault>> {
        match line_or_ring_at(alloc, depth_left, self.arcs, self.closed, bytes, counts) {
            Err(stop) => Err(stop),
            Ok((line_or_ring, rest)) => Ok((line_or_ring, rest)),
        }
    }
}

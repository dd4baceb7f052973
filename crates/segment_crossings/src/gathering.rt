// The segments of arcs, near ones close together.
ghost use Rattle.std.specs.Prelude.{◌≡◌, ◌+◌, ◌++◌, ◌<◌, ◌≤◌, IfOk, OnOk, flat_map, length, map};
ghost use Rattle.guarded_meaning.specs.Arcs.{segments};
ghost use Rattle.segment_crossings.specs.Gathering.{AreSame, arc_lines, lines_in};
ghost use Rattle.segment_crossings.specs.Lines.{as_segment};

use crate::line::Line;
use geometry::{Position, is_same};
use owned_values::{Items, Memory};
use planar_predicates::{Located, arrange};
use std::alloc::Global;

/// At most so many segments, each of which begins where the last one ends, stay together.
const MOST_TOGETHER: usize = 8;

/// None of them is more than about so many times as long as the first, and the first not as one of them.
const MOST_TIMES: u64 = 8;

/// Where segments are crowded, those lie on one plane that are shorter than two to this many times the shortest.
const LENGTH_BITS: u32 = 2;

/// A plane is by half of this smaller, so that all of them lie side by side.
const PLANES: i64 = 512;

/// So far is one plane from the next: none is wider.
const APART: i64 = 1 << 52;

/// Positions of an arc whose segments stay together, and the middle of one in their middle: many may have one end.
#[derive(Clone, Copy, Debug, PartialEq, Eq)]
pub struct Stretch<'a> {
    pub x: i64,
    pub y: i64,
    pub positions: &'a [Position],
}

impl Located for Stretch<'_> {
    fn spot(&self) -> (i64, i64) {
        (self.x, self.y)
    }
}

/// Puts the segments of an arc after the others.
fn put_lines(lines: &mut Vec<Line>, arc: &[Position]) -> Result<(), Memory>
    ensures { OnOk result (map as_segment lines.new.items ≡ map as_segment lines.old.items ++ arc_lines arc.now) }
{
    for next in 1..arc.len() {
        let from = arc[next - 1];
        let to = arc[next];
        if !is_same(from, to) {
            lines.push(Line { from, to })?;
        }
    }
    Ok(())
}

/// The segments of arcs.
#[tactic(auto, using(crate::proofs::Gathered::all_put))]
pub fn lines_of(alloc: Global, arcs: &[Items<Position>]) -> Result<Vec<Line>, Memory>
    ensures { IfOk result (λ lines. map as_segment lines.items ≡ segments arcs.now) }
{
    let mut lines = Vec::new(alloc);
    'arcs: for arc in arcs {
        put_lines(&mut lines, arc.as_slice())?;
    }
    Ok(lines)
}

/// How far one position is from another by the coordinate by which it is the farther.
fn span_between(from: Position, to: Position) -> u64 {
    let across = to.x().abs_diff(from.x());
    let up = to.y().abs_diff(from.y());
    across.max(up)
}

/// Spans from one to another: with a long segment a short one would lie in too great a box.
#[derive(Clone, Copy)]
struct Spans {
    least: u64,
    most: u64,
}

/// Those that are about as long as this one.
fn spans_like(span: u64) -> Spans {
    Spans {
        least: span / MOST_TIMES,
        most: span.saturating_add(1).saturating_mul(MOST_TIMES) - 1,
    }
}

impl Spans {
    /// A segment that goes so far is one of them.
    fn holds(&self, span: u64) -> bool {
        self.least <= span && span <= self.most
    }
}

/// Where the positions end whose segments stay together with the one that begins with this one: all are about as long as it.
fn end_along(positions: &[Position], first: usize) -> usize
    requires { first + 1 < length positions.now }
    ensures more { first + 1 < result }
    ensures within { result ≤ length positions.now }
{
    let spans = spans_like(span_between(positions[first], positions[first + 1]));
    let most = first.saturating_add(MOST_TOGETHER + 1).min(positions.len());
    let mut end = first + 2;
    while end < most && spans.holds(span_between(positions[end - 1], positions[end])) {
        end += 1;
    }
    end
}

/// Where the positions end whose segments stay together with the one that begins with this one: where segments are crowded, each is by itself.
fn end_of_stretch(positions: &[Position], first: usize, are_crowded: bool) -> usize
    requires { first + 1 < length positions.now }
    ensures more { first + 1 < result }
    ensures within { result ≤ length positions.now }
{
    if are_crowded {
        return first + 2;
    }
    end_along(positions, first)
}

/// The middle between two positions, on a smaller plane, and so far across that segments of another length lie elsewhere: each is at most so many times
/// as long as another beside it.
fn spot_by_length(from: Position, to: Position) -> (i64, i64) {
    let across = from.x() / PLANES + to.x() / PLANES;
    let up = from.y() / PLANES + to.y() / PLANES;
    let plane = (span_between(from, to).max(1).ilog2() / LENGTH_BITS) as i64;
    (across.saturating_add(plane.saturating_mul(APART)), up)
}

/// The stretch of these positions.
fn stretch_of(positions: &[Position], are_crowded: bool) -> Stretch<'_>
    requires { 1 < length positions.now }
    ensures { result.positions.now ≡ positions.now }
{
    let middle = (positions.len() - 1) / 2;
    let from = positions[middle];
    let to = positions[middle + 1];
    if are_crowded {
        let (x, y) = spot_by_length(from, to);
        return Stretch { x, y, positions };
    }
    Stretch {
        x: from.x() / 2 + to.x() / 2,
        y: from.y() / 2 + to.y() / 2,
        positions,
    }
}

/// Puts the stretches of an arc after the others.
#[tactic(auto, using(crate::proofs::Gathered::arc_put, crate::proofs::Stretches::stretch_cut))]
fn put_stretches<'a>(
    stretches: &mut Vec<Stretch<'a>>,
    arc: &'a [Position],
    are_crowded: bool,
) -> Result<(), Memory>
    ensures { OnOk result (flat_map lines_in stretches.new.items ≡ flat_map lines_in stretches.old.items ++ arc_lines arc.now) }
{
    let last = arc.len().saturating_sub(1);
    let mut first = 0;
    while first < last {
        let end = end_of_stretch(arc, first, are_crowded);
        stretches.push(stretch_of(&arc[first..end], are_crowded))?;
        first = end - 1;
    }
    Ok(())
}

/// All segments of arcs, in stretches.
#[tactic(auto, using(crate::proofs::Gathered::all_put))]
fn stretches_of(
    alloc: Global,
    arcs: &[Items<Position>],
    are_crowded: bool,
) -> Result<Vec<Stretch<'_>>, Memory>
    ensures { IfOk result (λ v. flat_map lines_in v.items ≡ segments arcs.now) }
{
    let mut stretches = Vec::new(alloc);
    'arcs: for arc in arcs {
        put_stretches(&mut stretches, arc.as_slice(), are_crowded)?;
    }
    Ok(stretches)
}

/// Arcs have at most so many segments.
fn most_lines(arcs: &[Items<Position>]) -> usize {
    let mut most = 0usize;
    for arc in arcs {
        most = most.saturating_add(arc.len());
    }
    most
}

/// Segments in stretches, one stretch after another, and the ranks that stretches begin with. Nothing rests on these but speed.
#[derive(Drop)]
pub struct Gathered {
    pub lines: Vec<Line>,
    pub starts: Vec<usize>,
}

/// The segments of stretches. There is room for so many from the start.
fn lines_along(alloc: Global, stretches: &[Stretch<'_>], room: usize) -> Result<Gathered, Memory>
    ensures { IfOk result (λ v. map as_segment v.lines.items ≡ flat_map lines_in stretches.now) }
{
    let mut lines = Vec::with_capacity(alloc, room)?;
    let mut starts = Vec::with_capacity(alloc, stretches.len())?;
    'stretches: for stretch in stretches {
        let start = lines.len();
        put_lines(&mut lines, stretch.positions)?;
        if start < lines.len() {
            starts.push(start)?;
        }
    }
    Ok(Gathered { lines, starts })
}

/// The segments of arcs, in stretches of which near ones are close together. Where segments are crowded, near ones of about the same length are.
#[tactic(auto, using(planar_predicates::proofs::Arranged::permuted, crate::proofs::Stretches::stretches_permuted))]
pub fn lines_in_order(
    alloc: Global,
    arcs: &[Items<Position>],
    are_crowded: bool,
) -> Result<Gathered, Memory>
    ensures { IfOk result (λ v. AreSame (segments arcs.now) (map as_segment v.lines.items)) }
{
    let mut stretches = stretches_of(alloc, arcs, are_crowded)?;
    arrange(alloc, &mut stretches)?;
    let gathered = lines_along(alloc, &stretches, most_lines(arcs))?;
    Ok(gathered)
}

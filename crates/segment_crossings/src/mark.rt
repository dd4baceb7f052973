// What is known of the segments of a run.
ghost use Rattle.std.specs.Prelude.{◌≡◌, ◌≤◌, true, false, length};
ghost use Rattle.std.specs.Option.{IfSome};
ghost use Rattle.guarded_meaning.specs.Segments.{Segment, meets_badly};
ghost use Rattle.segment_crossings.specs.Lines.{Each, as_segment};
ghost use Rattle.segment_crossings.specs.Marks.{Covers, IsMark, IsOff, Joins, RunsInto};

use crate::line::{Line, extent_with, read_line};
use crate::run::Run;
use effective_area::cross;
use geometry::{Position, is_same};
use planar_predicates::{Extent, empty_extent, is_beyond, is_end};

/// What is known of the segments of a run by one of them: boxes round the other ends of all, where each has its first end, or its second; and a strip
/// that holds them all, between two parallels of it: how far it goes to the right of its line, and to the left, by `cross`. Along any segment it would
/// be right: which one matters for speed alone.
#[derive(Clone, Copy, Debug, PartialEq, Eq)]
pub struct Mark {
    pub run: Run,
    pub along: Line,
    pub at_from: Option<Extent>,
    pub at_to: Option<Extent>,
    pub low: i128,
    pub high: i128,
}

/// The other end of a segment that has this one.
fn other_end(line: &Line, end: Position) -> Option<Position>
    ensures { IfSome result (λ p. Joins end p (as_segment line.now)) }
{
    if is_same(line.from, end) {
        return Some(line.to);
    }
    if is_same(line.to, end) {
        Some(line.from)
    } else {
        None
    }
}

/// The box round other ends with that of one more segment, where this has the end, too.
fn others_with(others: Option<Extent>, end: Position, line: &Line) -> Option<Extent>
    ensures line { IfSome result (λ e. RunsInto end e (as_segment line.now)) }
    ensures kept { (t : Segment) → IfSome others (λ e. RunsInto end e t) → IfSome result (λ e. RunsInto end e t) }
{
    let others = others?;
    let other = other_end(line, end)?;
    Some(extent_with(others, other))
}

/// What is known of one segment more.
fn widened(mark: &Mark, line: &Line) -> Mark
    ensures run { result.run ≡ mark.now.run }
    ensures line { Covers result (as_segment line.now) }
    ensures kept { (t : Segment) → Covers mark.now t → Covers result t }
{
    let along = mark.along;
    let from = cross(along.from, along.to, line.from);
    let to = cross(along.from, along.to, line.to);
    Mark {
        run: mark.run,
        along,
        at_from: others_with(mark.at_from, along.from, line),
        at_to: others_with(mark.at_to, along.to, line),
        low: mark.low.min(from.min(to)),
        high: mark.high.max(from.max(to)),
    }
}

/// What is known of the segments of a run, by the one in its middle.
pub fn mark_over(lines: &[Line], run: Run, along: Line) -> Mark
    requires { run.end ≤ length lines.now }
    ensures { IsMark lines.now result }
{
    let mut mark = Mark {
        run,
        along,
        at_from: Some(empty_extent()),
        at_to: Some(empty_extent()),
        low: 0,
        high: 0,
    };
    for rank in run.first..run.end {
        mark = widened(&mark, read_line(lines, rank));
    }
    mark
}

/// A box lies strictly on one side of the segment's line, if the answer is yes.
pub fn is_off(e: &Extent, line: &Line) -> bool
    ensures { result ≡ true → IsOff e.now (as_segment line.now) }
{
    is_beyond(e, line.from, line.to) || is_beyond(e, line.to, line.from)
}

/// All segments have an end of this one, and the others lie strictly on one side of its line, if the answer is yes.
fn is_off_at(others: Option<Extent>, end: Position, line: &Line) -> bool
    ensures { result ≡ true → (t : Segment) → IfSome others (λ e. RunsInto end e t) → meets_badly (as_segment line.now) t ≡ false }
{
    match others {
        Some(others) => is_end(line.from, line.to, end) && is_off(&others, line),
        None => false,
    }
}

/// Both ends of a segment lie beyond a strip, on the same side, if the answer is yes.
fn is_beside(mark: &Mark, line: &Line) -> bool
    ensures { result ≡ true → (t : Segment) → Covers mark.now t → meets_badly (as_segment line.now) t ≡ false }
{
    let from = cross(mark.along.from, mark.along.to, line.from);
    let to = cross(mark.along.from, mark.along.to, line.to);
    from.max(to) < mark.low || mark.high < from.min(to)
}

/// No segment of the run meets this one badly, if the answer is yes. A no is never wrong, and costs time alone.
pub fn rules_out(mark: &Mark, line: &Line) -> bool
    ensures { result ≡ true → (t : Segment) → Covers mark.now t → meets_badly (as_segment line.now) t ≡ false }
{
    is_off_at(mark.at_from, mark.along.from, line)
        || (is_off_at(mark.at_to, mark.along.to, line) || is_beside(mark, line))
}

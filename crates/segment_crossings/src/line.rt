// Segments of arcs.
ghost use Rattle.std.specs.Prelude.{◌≡◌, ◌<◌, true, false, length};
ghost use Rattle.geometry.specs.Points.{Point};
ghost use Rattle.segment_crossings.specs.Lines.{as_segment, line_at};
ghost use Rattle.segment_crossings.specs.Marks.{HasPosition, IsIn, Off};
ghost use Rattle.guarded_meaning.specs.Segments.{Segment};
ghost use Rattle.guarded_meaning.specs.Segments as spec;

use geometry::{Position, is_same};
use planar_predicates::{
    Extent, around, empty_extent, is_left, is_right, joined, meets, meets_badly,
};

/// A segment of an arc.
#[derive(Clone, Copy, Debug, PartialEq, Eq)]
pub struct Line {
    pub from: Position,
    pub to: Position,
}

/// The segment of a rank.
#[tactic(auto, unfolding(crate::specs::Lines::line_at))]
pub fn read_line(lines: &[Line], rank: usize) -> &Line
    requires { rank < length lines.now }
    ensures { result.now ≡ line_at lines.now rank }
{
    &lines[rank]
}

/// The box with a position more.
#[tactic(auto, using(planar_predicates::proofs::Boxes::holds_in))]
pub fn extent_with(e: Extent, p: Position) -> Extent
    ensures position { HasPosition result p }
    ensures kept { (q : Point) → HasPosition e q → HasPosition result q }
{
    let _ = (p.x(), p.y());
    joined(e, around(p))
}

/// The box round a segment.
pub fn extent_of(line: &Line) -> Extent
    ensures { IsIn result (as_segment line.now) }
{
    extent_with(extent_with(empty_extent(), line.from), line.to)
}

/// No two segments, one in each box, meet badly, since the boxes lie apart, if the answer is yes.
#[inline(always)]
#[tactic(auto, using(crate::proofs::Marks::extents_apart))]
pub fn are_apart(e: Extent, f: Extent) -> bool
    ensures { result ≡ true → (s t : Segment) → IsIn e s → IsIn f t → spec.meets_badly s t ≡ false }
{
    !meets(e, f)
}

/// The position is to the left of the segment's line, or to the right.
#[inline(always)]
fn is_to_side(is_left_side: bool, line: &Line, p: Position) -> bool
    ensures { result ≡ true → Off is_left_side line.now.from line.now.to p }
{
    if is_left_side {
        is_left(line.from, line.to, p)
    } else {
        is_right(line.from, line.to, p)
    }
}

/// The second segment ends on this side of the first one's line, and begins there, too, or where the first one ends: then they don't meet badly.
#[inline(always)]
fn lies_to_side(is_left_side: bool, line: &Line, other: &Line) -> bool
    ensures { result ≡ true → spec.meets_badly (as_segment line.now) (as_segment other.now) ≡ false }
{
    is_to_side(is_left_side, line, other.to)
        && (is_same(other.from, line.to) || is_to_side(is_left_side, line, other.from))
}

/// The same on one of the two sides.
fn lies_aside(line: &Line, other: &Line) -> bool
    ensures { result ≡ true → spec.meets_badly (as_segment line.now) (as_segment other.now) ≡ false }
{
    lies_to_side(true, line, other) || lies_to_side(false, line, other)
}

/// Two segments meet badly. Most pairs that are asked of have boxes that lie apart, and most of the others follow one another.
#[inline(always)]
pub fn is_bad_pair(line: &Line, other: &Line) -> bool
    ensures { result ≡ spec.meets_badly (as_segment line.now) (as_segment other.now) }
{
    !are_apart(extent_of(line), extent_of(other))
        && (!lies_aside(line, other) && meets_badly(line.from, line.to, other.from, other.to))
}

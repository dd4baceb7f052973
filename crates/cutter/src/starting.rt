// Where rings start.
ghost use Rattle.std.specs.Prelude.{◌≡◌, ◌<◌, ◌+◌, ◌^◌, true, List, length, if◌then◌else◌};
ghost use Rattle.std.specs.List.{filter};
ghost use Rattle.geometry.specs.Rings.{same};
ghost use Rattle.junctions.specs.Cleaning.{AllClean};
ghost use Rattle.junctions.specs.Cuts.{is_cut};
ghost use Rattle.junctions.specs.Answers.{AnswersFor, is_member};
ghost use Rattle.junctions.specs.declared.stroke.Stroke as line;
ghost use Rattle.cutter.specs.Known.{AllKnown};
ghost use Rattle.cutter.specs.Pieces.{first_at, start_in};
ghost use Rattle.cutter.specs.Places.{In};
ghost use Rattle.cutter.specs.Slices.{least_point, least_with};

use geometry::{Position, is_same};
use junctions::{Stroke, Vertices};

/// The index at which a ring starts: that of the first visit, in its own order, of its least cut position. Each ring of
/// the lines that the vertices were made of has a cut position; where there is none the answer is the length.
#[tactic(auto, using(crate::proofs::Names::is_member, crate::proofs::Names::start_in, crate::proofs::Known::start_known, crate::proofs::Known::starts_known))]
pub fn ring_start(stroke: &Stroke, vertices: &Vertices) -> usize
    requires { AllKnown vertices.now.points stroke.now.positions }
    ensures start { result ≡ start_in (is_member vertices.now.cuts) stroke.now.positions }
    ensures of_lines { (ls : List line.Stroke) → AnswersFor ls vertices.now → In stroke.now ls → result ≡ start_in (is_cut ls) stroke.now.positions }
    ensures within { (ls : List line.Stroke) → AnswersFor ls vertices.now → AllClean ls → In stroke.now ls → stroke.now.closed ≡ true
        → result < length stroke.now.positions }
{
    let (start, _) = first_of_least_cut(stroke.positions.as_slice(), 0, vertices);
    start
}

/// The index at which a ring with these positions starts, and how many of them are cut positions. The number of its first visit says where
/// positions are looked for first; any number gives one answer.
#[tactic(auto, using(crate::proofs::SliceLaws::no_start))]
pub fn first_of_least_cut(
    positions: &[Position],
    visit: usize,
    vertices: &Vertices,
) -> (usize, usize)
    requires { AllKnown vertices.now.points positions.now }
    ensures start { result.0 ≡ start_in (is_member vertices.now.cuts) positions.now }
    ensures count { result.1 ≡ length (filter (is_member vertices.now.cuts) positions.now) }
{
    let (least, count) = least_cut(positions, visit, vertices);
    match least {
        Some(p) => (index_of(positions, p), count),
        None => (positions.len(), count),
    }
}

// The least cut position, and how many there are.
#[tactic(auto, using(crate::proofs::Alone::at_most_one, crate::proofs::Alone::count_step, crate::proofs::Known::known_at, crate::proofs::SliceLaws::least_step))]
fn least_cut(positions: &[Position], visit: usize, vertices: &Vertices) -> (Option<Position>, usize)
    requires { AllKnown vertices.now.points positions.now }
    ensures least { result.0 ≡ least_point (filter (is_member vertices.now.cuts) positions.now) }
    ensures count { result.1 ≡ length (filter (is_member vertices.now.cuts) positions.now) }
{
    let mut best = None;
    let mut count = 0;
    for i in 0..positions.len() {
        let place = visit.wrapping_add(i);
        (best, count) = with_cut(best, count, positions[i], place, vertices);
    }
    (best, count)
}

// The lesser of the least so far and one more, where that is a cut position, and how many there are with it.
#[inline(always)]
fn with_cut(
    best: Option<Position>,
    count: usize,
    p: Position,
    visit: usize,
    vertices: &Vertices,
) -> (Option<Position>, usize)
    requires known { is_member vertices.now.points p ≡ true }
    requires few { count + 1 < 2 ^ 64 }
    ensures least { result.0 ≡ (if is_member vertices.now.cuts p then least_with best p else best) }
    ensures count { result.1 ≡ count + (if is_member vertices.now.cuts p then 1 else 0) }
{
    if !vertices.is_cut_at(visit, p) {
        return (best, count);
    }
    match best {
        Some(b) if !(p < b) => (Some(b), count + 1),
        _ => (Some(p), count + 1),
    }
}

// The index of a position, or the length.
fn index_of(positions: &[Position], p: Position) -> usize
    ensures { result ≡ first_at (λ q. same q p) positions.now }
{
    for i in 0..positions.len() {
        if is_same(positions[i], p) {
            return i;
        }
    }
    positions.len()
}

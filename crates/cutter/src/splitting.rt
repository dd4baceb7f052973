// Lines and rings, split at their cut positions.
ghost use Rattle.std.specs.Prelude.{◌≡◌, ◌<◌, ◌≤◌, ◌-◌, ◌++◌, ◌∷◌, [], true, IfOk, OnOk, drop, length, take, if◌then◌else◌};
ghost use Rattle.std.specs.List.{filter};
ghost use Rattle.junctions.specs.Answers.{is_member};
ghost use Rattle.cutter.specs.Known.{AllKnown, GoesOnceThroughSecond, IsReady};
ghost use Rattle.cutter.specs.Pieces.{start_in, turned};
ghost use Rattle.cutter.specs.Slices.{indexes, started as started_by};

use crate::starting::first_of_least_cut;
use geometry::Position;
use junctions::{Stroke, Vertices};
use owned_values::Memory;

/// Splits the line whose first visit has this number: a ring is turned so that it begins at its start, and the indexes at which the line is
/// cut are added after those of other lines. The answer is whether it is one piece whose second position is known to be visited once.
pub fn split_line(
    stroke: &mut Stroke,
    visit: usize,
    vertices: &Vertices,
    cuts: &mut Vec<usize>,
) -> Result<bool, Memory>
    requires { IsReady vertices.now stroke.old }
    ensures stroke { OnOk result (stroke.new ≡ started_by (is_member vertices.now.cuts) stroke.old) }
    ensures cuts { OnOk result (cuts.new.items ≡ cuts.old.items ++ indexes (is_member vertices.now.cuts) 0 stroke.new.positions) }
    ensures once { IfOk result (λ once. once ≡ true → (length (indexes (is_member vertices.now.cuts) 0 stroke.new.positions) ≡ 2)
        × GoesOnceThroughSecond vertices.now.once stroke.new.positions) }
{
    let (start, count) = start_ring(stroke, visit, vertices);
    let positions = stroke.positions.as_slice();
    let before = cuts.len();
    if stroke.closed && positions.len() > 1 && count <= 2 - start.min(1) {
        add_ends(cuts, positions.len())?;
    } else {
        add_cuts(cuts, positions, visit, start, vertices)?;
    }
    let second = visit_after(visit.wrapping_add(start), visit, positions.len());
    Ok(cuts.len() - before == 2 && goes_once_through_second(positions, second, vertices))
}

// Whether the second position, whose visit has this number, isn't the last and is known to be visited once.
fn goes_once_through_second(positions: &[Position], visit: usize, vertices: &Vertices) -> bool
    requires { AllKnown vertices.now.points positions.now }
    ensures { result ≡ true → GoesOnceThroughSecond vertices.now.once positions.now }
{
    positions.len() > 2 && vertices.is_once_at(visit, positions[1])
}

// Turns the line, if it is a ring, so that it begins at its start, and returns the index at which the start was before, and how many of a
// ring's positions are cut positions. Where there are no others than the start, which is counted twice if it is the first and the last, the
// ring is one piece.
fn start_ring(stroke: &mut Stroke, visit: usize, vertices: &Vertices) -> (usize, usize)
    requires { IsReady vertices.now stroke.old }
    ensures stroke { stroke.new ≡ started_by (is_member vertices.now.cuts) stroke.old }
    ensures start { stroke.old.closed ≡ true → result.0 ≡ start_in (is_member vertices.now.cuts) stroke.old.positions }
    ensures count { stroke.old.closed ≡ true → result.1 ≡ length (filter (is_member vertices.now.cuts) stroke.old.positions) }
{
    if !stroke.closed {
        return (0, 0);
    }
    let (start, count) = first_of_least_cut(stroke.positions.as_slice(), visit, vertices);
    turn(stroke.positions.as_mut_slice(), start);
    (start, count)
}

// Adds the indexes of the ends of a line of so many positions.
fn add_ends(cuts: &mut Vec<usize>, count: usize) -> Result<(), Memory>
    requires { 0 < count }
    ensures { OnOk result (cuts.new.items ≡ cuts.old.items ++ (0 ∷ ((count - 1) ∷ []))) }
{
    cuts.push(0)?;
    cuts.push(count - 1)?;
    Ok(())
}

// Turns the ring in place: it goes from its position at the index round to that position.
fn turn(ring: &mut [Position], start: usize)
    requires { start < length ring.old }
    ensures { ring.new ≡ turned start ring.old }
{
    if start == 0 {
        return;
    }
    let last = ring.len() - 1;
    move_to_end(&mut ring[1..], start);
    ring[0] = ring[last];
}

// Moves the first `count` positions after the others. The library's `rotate_left` does so too, through room on the stack, some 4 KB, that
// it clears at each call.
fn move_to_end(positions: &mut [Position], count: usize)
    requires { count ≤ length positions.old }
    ensures { positions.new ≡ drop count positions.old ++ take count positions.old }
{
    positions[..count].reverse();
    positions[count..].reverse();
    positions.reverse();
}

// The number of the visit after this one, where a line of so many positions starts with the visit `first`. The last of a ring is the first again.
fn visit_after(place: usize, first: usize, count: usize) -> usize {
    let next = place.wrapping_add(1);
    if next == first.wrapping_add(count) {
        return first.wrapping_add(1);
    }
    next
}

// Adds the indexes of the cut positions.
#[tactic(auto, using(crate::proofs::Names::is_member, crate::proofs::Names::indexes, crate::proofs::Known::known_at, crate::proofs::SliceLaws::indexes_step))]
fn add_cuts(
    cuts: &mut Vec<usize>,
    positions: &[Position],
    visit: usize,
    start: usize,
    vertices: &Vertices,
) -> Result<(), Memory>
    requires { AllKnown vertices.now.points positions.now }
    ensures { OnOk result (cuts.new.items ≡ cuts.old.items ++ indexes (is_member vertices.now.cuts) 0 positions.now) }
{
    let mut place = visit.wrapping_add(start);
    for i in 0..positions.len() {
        add_cut(cuts, i, positions[i], place, vertices)?;
        place = visit_after(place, visit, positions.len());
    }
    Ok(())
}

// Adds the index of the position, where that is a cut position.
#[inline(always)]
fn add_cut(
    cuts: &mut Vec<usize>,
    i: usize,
    p: Position,
    visit: usize,
    vertices: &Vertices,
) -> Result<(), Memory>
    requires { is_member vertices.now.points p ≡ true }
    ensures { OnOk result
        (cuts.new.items ≡ cuts.old.items ++ (if is_member vertices.now.cuts p then i ∷ [] else [])) }
{
    if vertices.is_cut_at(visit, p) {
        cuts.push(i)?;
    }
    Ok(())
}

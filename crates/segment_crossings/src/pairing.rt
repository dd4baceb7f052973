// Pairs of segments that meet badly, the first of them in the order of arcs.
ghost use Rattle.std.specs.Prelude.{◌≡◌, ◌+◌, ◌<◌, ◌≤◌, ◌++◌, ℕ, true, IfOk, OnOk, length, map, min, take};
ghost use Rattle.guarded_meaning.specs.Arcs.{crossings, segments};
ghost use Rattle.guarded_meaning.specs.Segments.{bad_pairs};
ghost use Rattle.segment_crossings.specs.Crossings.{crossing_pairs};
ghost use Rattle.segment_crossings.specs.Gathering.{AreSame};
ghost use Rattle.segment_crossings.specs.Lines.{as_segment, bad_from, line_at, pairs_from};
ghost use Rattle.segment_crossings.specs.Trees.{IsTree};

use crate::counting::{count_pairs, count_under};
use crate::crossing::{Crossing, pair_of};
use crate::gathering::lines_of;
use crate::line::{Line, is_bad_pair, read_line};
use crate::tree::{Tree, tree_of};
use geometry::Position;
use owned_values::{Items, Memory};
use std::alloc::Global;

/// For each segment there are so many steps from the start. Where steps don't suffice, segments are crowded.
const FIRST_STEPS: u64 = 2;

/// So many pairs are enough, where they were counted up to a limit.
fn pairs_to_give(count: u64, limit: u64, most: usize) -> usize
    ensures { (n : ℕ) → count ≡ min limit n → min result n ≡ min most n }
{
    if count < limit && count < most as u64 {
        count as usize
    } else {
        most
    }
}

/// Of all segments none but itself meets this one badly, if the answer is yes.
#[tactic(auto, using(crate::proofs::Trees::all_in))]
fn is_alone(tree: &Tree, line: &Line) -> bool
    requires { IsTree tree.now }
    ensures { result ≡ true → bad_from tree.now.lines.items line.now 0 ≤ 1 }
{
    count_under(tree, &tree.root, line, 0, 2) < 2
}

/// Puts the pairs of the segment of this rank and later ones after the others, up to so many in all.
#[tactic(auto, using(crate::proofs::Crossings::no_pair, crate::proofs::Crossings::one_pair, crate::proofs::Crossings::one_put))]
fn put_pairs(
    lines: &[Line],
    rank: usize,
    most: usize,
    pairs: &mut Vec<Crossing>,
) -> Result<(), Memory>
    requires rank { rank < length lines.now }
    requires few { length pairs.old.items ≤ most }
    ensures few { OnOk result (length pairs.new.items ≤ most) }
    ensures put { OnOk result (pairs.new.items ≡ take most (pairs.old.items ++ pairs_from lines.now (line_at lines.now rank) (rank + 1))) }
{
    let line = read_line(lines, rank);
    let mut other = rank + 1;
    while other < lines.len() && pairs.len() < most {
        let second = read_line(lines, other);
        if is_bad_pair(line, second) {
            pairs.push(pair_of(line, second))?;
        }
        other += 1;
    }
    Ok(())
}

/// The first so many pairs, of segments in order. Those that meet none badly are found by the tree.
fn pairs_in_order(
    alloc: Global,
    lines: &[Line],
    tree: &Tree,
    most: usize,
) -> Result<Vec<Crossing>, Memory>
    requires same { AreSame (map as_segment lines.now) (map as_segment tree.now.lines.items) }
    requires tree { IsTree tree.now }
    ensures { IfOk result (λ pairs. pairs.items ≡ take most (crossing_pairs (map as_segment lines.now))) }
{
    let mut pairs = Vec::new(alloc);
    let mut rank = 0;
    while rank < lines.len() && pairs.len() < most {
        if !is_alone(tree, read_line(lines, rank)) {
            put_pairs(lines, rank, most, &mut pairs)?;
        }
        rank += 1;
    }
    Ok(pairs)
}

/// The first so many pairs of segments of arcs.
fn first_pairs(
    alloc: Global,
    arcs: &[Items<Position>],
    tree: &Tree,
    most: usize,
) -> Result<Vec<Crossing>, Memory>
    requires same { AreSame (segments arcs.now) (map as_segment tree.now.lines.items) }
    requires tree { IsTree tree.now }
    ensures { IfOk result (λ pairs. pairs.items ≡ take most (crossing_pairs (segments arcs.now))) }
{
    if most == 0 {
        return Ok(Vec::new(alloc));
    }
    let lines = lines_of(alloc, arcs)?;
    let pairs = pairs_in_order(alloc, &lines, tree, most)?;
    Ok(pairs)
}

/// The segments of arcs in the tree by which their pairs were counted, and how many meet badly, or the limit.
#[derive(Drop)]
struct Counted {
    tree: Tree,
    count: u64,
}

/// Counts the pairs of segments of arcs: those of segments that are crowded, if they are.
fn count_in_tree(alloc: Global, arcs: &[Items<Position>], limit: u64) -> Result<Counted, Memory>
    ensures same { IfOk result (λ c. AreSame (segments arcs.now) (map as_segment c.tree.lines.items)) }
    ensures tree { IfOk result (λ c. IsTree c.tree) }
    ensures count { IfOk result (λ c. c.count ≡ min limit (bad_pairs (map as_segment c.tree.lines.items))) }
{
    let tree = tree_of(alloc, arcs, false)?;
    let mut steps = FIRST_STEPS.saturating_mul(tree.lines.len() as u64);
    let count = count_pairs(&tree, limit, &mut steps);
    if steps > 0 {
        return Ok(Counted { tree, count });
    }
    drop(tree);
    let tree = tree_of(alloc, arcs, true)?;
    let mut steps = 1;
    let count = count_pairs(&tree, limit, &mut steps);
    Ok(Counted { tree, count })
}

/// How many pairs of segments of arcs meet badly, each pair of places once, or the limit, if they are more; and so many of the pairs, or all, where
/// they are fewer: the first by the arc and the place of the first segment, and then by those of the second. Equal neighbours make no segment.
#[tactic(auto, using(crate::proofs::Counts::pairs_same, crate::proofs::Crossings::enough_pairs))]
pub fn crossings_with(
    alloc: Global,
    arcs: &[Items<Position>],
    limit: u64,
    most: usize,
) -> Result<(u64, Vec<Crossing>), Memory>
    ensures count { IfOk result (λ r. r.0 ≡ min limit (crossings arcs.now)) }
    ensures found { IfOk result (λ r. r.1.items ≡ take most (crossing_pairs (segments arcs.now))) }
{
    let Counted { tree, count } = count_in_tree(alloc, arcs, limit)?;
    let many = pairs_to_give(count, limit, most);
    let pairs = first_pairs(alloc, arcs, &tree, many)?;
    Ok((count, pairs))
}

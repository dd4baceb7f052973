// Counting.
ghost use Rattle.std.specs.Prelude.{◌≡◌, ◌+◌, ◌-◌, ◌<◌, ◌≤◌, true, length, map, min};
ghost use Rattle.guarded_meaning.specs.Segments.{bad_pairs};
ghost use Rattle.segment_crossings.specs.Lines.{as_segment};
ghost use Rattle.segment_crossings.specs.Trees.{IsNode, IsTree, bad_between, bad_in, bad_within};

use crate::line::{Line, are_apart, is_bad_pair, read_line};
use crate::run::Run;
use crate::tree::{Node, Tree, is_clear_of, parts_of};

/// For each segment of a run that is gone through there are so many steps more.
const STEPS: u64 = 24;

/// So many, and as many as segments of a run meet a segment badly; or the limit.
#[tactic(auto, using(crate::proofs::Counts::one, crate::proofs::Lines::later_fewer, crate::proofs::Lines::one_ahead))]
fn count_in(lines: &[Line], line: &Line, run: Run, sofar: u64, limit: u64) -> u64
    requires run { run.first ≤ run.end }
    requires within { run.end ≤ length lines.now }
    requires sofar { sofar ≤ limit }
    ensures { result ≡ min limit (sofar + bad_in lines.now line.now run) }
{
    let mut count = sofar;
    let mut rank = run.first;
    while rank < run.end && count < limit {
        if is_bad_pair(line, read_line(lines, rank)) {
            count += 1;
        }
        rank += 1;
    }
    count
}

/// So many, and the pairs of two segments of a run that meet badly, each pair by itself; or the limit.
#[tactic(auto, using(crate::proofs::Across::inside_ahead, crate::proofs::Across::inside_none))]
fn count_few(lines: &[Line], run: Run, sofar: u64, limit: u64) -> u64
    requires run { run.end ≤ length lines.now }
    requires sofar { sofar ≤ limit }
    ensures { result ≡ min limit (sofar + bad_within lines.now run) }
{
    let mut count = sofar;
    for rank in run.first..run.end {
        let later = Run {
            first: rank + 1,
            end: run.end,
        };
        count = count_in(lines, read_line(lines, rank), later, count, limit);
    }
    count
}

/// So many, and as many as segments of a node meet a segment badly; or the limit.
#[tactic(auto, using(crate::proofs::Trees::none_in))]
pub fn count_under(tree: &Tree, node: &Node, line: &Line, sofar: u64, limit: u64) -> u64
    requires tree { IsTree tree.now }
    requires node { IsNode tree.now.lines.items node.now }
    requires sofar { sofar ≤ limit }
    ensures { result ≡ min limit (sofar + bad_in tree.now.lines.items line.now node.now.run) }
{
    if sofar == limit || is_clear_of(tree, node, line) {
        return sofar;
    }
    match parts_of(tree, node) {
        Some(parts) => {
            let count = count_under(tree, parts.first, line, sofar, limit);
            count_under(tree, parts.second, line, count, limit)
        }
        None => count_in(&tree.lines, line, node.run, sofar, limit),
    }
}

/// So many, and the pairs of a segment of a run and one of a node that meet badly, each segment of the run by itself; or the limit.
#[tactic(auto, using(crate::proofs::Across::across_none))]
fn count_each(tree: &Tree, run: Run, node: &Node, sofar: u64, limit: u64) -> u64
    requires tree { IsTree tree.now }
    requires run { run.end ≤ length tree.now.lines.items }
    requires node { IsNode tree.now.lines.items node.now }
    requires sofar { sofar ≤ limit }
    ensures { result ≡ min limit (sofar + bad_between tree.now.lines.items run node.now.run) }
{
    let mut count = sofar;
    for rank in run.first..run.end {
        count = count_under(tree, node, read_line(&tree.lines, rank), count, limit);
    }
    count
}

/// So many, and the pairs of a segment of a node and one of another that meet badly, or the limit, if there are steps left in the end: the larger node's
/// parts are gone through, unless the boxes of the two lie apart. Each pair that is found gives a step back.
#[tactic(auto, using(crate::proofs::Trees::none_between))]
fn count_across(
    tree: &Tree,
    node: &Node,
    other: &Node,
    sofar: u64,
    limit: u64,
    steps: &mut u64,
) -> u64
    requires tree { IsTree tree.now }
    requires node { IsNode tree.now.lines.items node.now }
    requires other { IsNode tree.now.lines.items other.now }
    requires sofar { sofar ≤ limit }
    ensures most { result ≤ limit }
    ensures left { 0 < steps.new → 0 < steps.old }
    ensures count { 0 < steps.new → result ≡ min limit (sofar + bad_between tree.now.lines.items node.now.run other.now.run) }
{
    if *steps == 0 || sofar == limit {
        return sofar;
    }
    *steps -= 1;
    if are_apart(node.extent, other.extent) {
        return sofar;
    }
    if node.run.len() >= other.run.len() {
        if let Some(parts) = parts_of(tree, node) {
            let count = count_across(tree, parts.first, other, sofar, limit, steps);
            return count_across(tree, parts.second, other, count, limit, steps);
        }
    }
    if let Some(parts) = parts_of(tree, other) {
        let count = count_across(tree, node, parts.first, sofar, limit, steps);
        return count_across(tree, node, parts.second, count, limit, steps);
    }
    let count = count_each(tree, node.run, other, sofar, limit);
    *steps = steps
        .saturating_sub(node.run.len() as u64)
        .saturating_add(count - sofar);
    count
}

/// There are more steps, for the segments of a run, if there are any left.
fn add_steps(steps: &mut u64, run: Run)
    requires { run.first ≤ run.end }
    ensures left { 0 < steps.new → 0 < steps.old }
    ensures kept { 0 < steps.old → 0 < steps.new }
{
    if *steps > 0 {
        *steps = steps.saturating_add(STEPS.saturating_mul(run.len() as u64));
    }
}

/// So many, and the pairs of two segments of a node that meet badly, or the limit, if there are steps left in the end. Where segments are crowded, none
/// is spent, and each segment of the first part goes through the second by itself.
fn count_inside(tree: &Tree, node: &Node, sofar: u64, limit: u64, steps: &mut u64) -> u64
    requires tree { IsTree tree.now }
    requires node { IsNode tree.now.lines.items node.now }
    requires sofar { sofar ≤ limit }
    ensures most { result ≤ limit }
    ensures left { 0 < steps.new → 0 < steps.old }
    ensures kept { tree.now.is_crowded ≡ true → 0 < steps.old → 0 < steps.new }
    ensures count { 0 < steps.new → result ≡ min limit (sofar + bad_within tree.now.lines.items node.now.run) }
{
    if *steps == 0 || sofar == limit {
        return sofar;
    }
    let parts = match parts_of(tree, node) {
        Some(parts) => parts,
        None => {
            add_steps(steps, node.run);
            return count_few(&tree.lines, node.run, sofar, limit);
        }
    };
    let mut count = count_inside(tree, parts.first, sofar, limit, steps);
    count = count_inside(tree, parts.second, count, limit, steps);
    if tree.is_crowded {
        return count_each(tree, parts.first.run, parts.second, count, limit);
    }
    count_across(tree, parts.first, parts.second, count, limit, steps)
}

/// How many pairs of segments meet badly, or the limit, if they are more, and if there are steps left in the end. Where segments are crowded, no step is
/// spent.
#[tactic(auto, using(crate::proofs::Trees::all_within))]
pub fn count_pairs(tree: &Tree, limit: u64, steps: &mut u64) -> u64
    requires { IsTree tree.now }
    ensures kept { tree.now.is_crowded ≡ true → 0 < steps.old → 0 < steps.new }
    ensures count { 0 < steps.new → result ≡ min limit (bad_pairs (map as_segment tree.now.lines.items)) }
{
    count_inside(tree, &tree.root, 0, limit, steps)
}

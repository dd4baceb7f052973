// Segments in a tree of runs.
ghost use Rattle.std.specs.Prelude.{◌≡◌, ◌<◌, ◌≤◌, true, IfOk, OnOk, length, map};
ghost use Rattle.std.specs.List.{All};
ghost use Rattle.std.specs.Option.{IfSome};
ghost use Rattle.guarded_meaning.specs.Arcs.{segments};
ghost use Rattle.segment_crossings.specs.Gathering.{AreSame};
ghost use Rattle.segment_crossings.specs.Lines.{as_segment};
ghost use Rattle.segment_crossings.specs.Marks.{IsMark};
ghost use Rattle.segment_crossings.specs.Trees.{AreParts, IsNode, IsTree, bad_in};

use crate::gathering::{Gathered, lines_in_order};
use crate::line::{Line, are_apart, extent_of};
use crate::mark::{Mark, is_off, mark_over, rules_out};
use crate::run::{Run, extent_round};
use geometry::Position;
use owned_values::{Items, Memory};
use planar_predicates::{Extent, joined};
use std::alloc::Global;

/// So many segments are not parted.
const FEW: usize = 8;

/// The segments of a run, with the box round them. The node before this one and the one of another number have the parts of its run, unless its segments
/// are few: then there is none of that number.
#[derive(Clone, Copy, Debug, PartialEq, Eq)]
pub struct Node {
    pub run: Run,
    pub number: usize,
    pub first: usize,
    pub extent: Extent,
}

/// The segments of arcs in an order in which near ones are close together, or near ones of about the same length, if they are crowded; the nodes of runs
/// of them, that of all of them also by itself; and if they are crowded, a mark for each node.
#[derive(Drop)]
pub struct Tree {
    pub is_crowded: bool,
    pub lines: Vec<Line>,
    pub nodes: Vec<Node>,
    pub marks: Vec<Mark>,
    pub root: Node,
}

/// Two nodes that have the parts of a run.
#[derive(Clone, Copy)]
pub struct Parts<'a> {
    pub first: &'a Node,
    pub second: &'a Node,
}

/// How many of so many stretches are in the first half, as `arrange` halves them: elsewhere a half would have some of what lies in the other.
fn half_of(n: usize) -> usize
    ensures { result ≤ n }
{
    if n <= FEW {
        return n / 2;
    }
    let power = 1usize << (n - 1).ilog2();
    power / 2 + (n - power).min(power / 2)
}

/// The rank that a stretch begins with, if it is inside the run, and this has many segments.
fn cut_at(starts: &[usize], half: usize, run: Run) -> Option<usize>
    requires { run.first ≤ run.end }
    ensures { IfSome result (λ m. (run.first < m) × (m < run.end)) }
{
    let rank = *starts.get(half)?;
    if FEW < run.len() && (run.first < rank && rank < run.end) {
        Some(rank)
    } else {
        None
    }
}

/// The node of a run, whose stretches begin with these ranks. It is put after the nodes under it, and these after the others.
fn node_over(
    lines: &[Line],
    starts: &[usize],
    run: Run,
    nodes: &mut Vec<Node>,
) -> Result<Node, Memory>
    requires order { run.first ≤ run.end }
    requires within { run.end ≤ length lines.now }
    requires nodes { All (IsNode lines.now) nodes.old.items }
    ensures node { IfOk result (λ n. IsNode lines.now n) }
    ensures run { IfOk result (λ n. n.run ≡ run) }
    ensures nodes { OnOk result (All (IsNode lines.now) nodes.new.items) }
{
    let half = half_of(starts.len());
    let middle = match cut_at(starts, half, run) {
        Some(middle) => middle,
        None => {
            let leaf = Node {
                run,
                number: nodes.len(),
                first: usize::MAX,
                extent: extent_round(lines, run),
            };
            nodes.push(leaf)?;
            return Ok(leaf);
        }
    };
    let (front, back) = starts.split_at(half);
    let before = Run {
        first: run.first,
        end: middle,
    };
    let after = Run {
        first: middle,
        end: run.end,
    };
    let first = node_over(lines, front, before, nodes)?;
    let second = node_over(lines, back, after, nodes)?;
    let node = Node {
        run,
        number: nodes.len(),
        first: first.number,
        extent: joined(first.extent, second.extent),
    };
    nodes.push(node)?;
    Ok(node)
}

/// The marks of nodes, each by the segment in the middle of its run.
fn marks_of(alloc: Global, lines: &[Line], nodes: &[Node]) -> Result<Vec<Mark>, Memory>
    requires { All (IsNode lines.now) nodes.now }
    ensures { IfOk result (λ marks. All (IsMark lines.now) marks.items) }
{
    let mut marks = Vec::new(alloc);
    'nodes: for node in nodes {
        let run = node.run;
        let Some(along) = lines.get(run.first + run.len() / 2) else {
            return Ok(marks);
        };
        marks.push(mark_over(lines, run, *along))?;
    }
    Ok(marks)
}

/// The segments of arcs in a tree.
pub fn tree_of(alloc: Global, arcs: &[Items<Position>], is_crowded: bool) -> Result<Tree, Memory>
    ensures same { IfOk result (λ t. AreSame (segments arcs.now) (map as_segment t.lines.items)) }
    ensures tree { IfOk result (λ t. IsTree t) }
    ensures crowded { IfOk result (λ t. t.is_crowded ≡ is_crowded) }
{
    let Gathered { lines, starts } = lines_in_order(alloc, arcs, is_crowded)?;
    let mut nodes = Vec::new(alloc);
    let all = Run {
        first: 0,
        end: lines.len(),
    };
    let root = node_over(&lines, &starts, all, &mut nodes)?;
    let marked = if is_crowded { nodes.len() } else { 0 };
    let marks = marks_of(alloc, &lines, &nodes[..marked])?;
    Ok(Tree {
        is_crowded,
        lines,
        nodes,
        marks,
        root,
    })
}

/// The first run ends where the second begins, both are a third one, and neither is empty, if the answer is yes.
fn are_parts(run: Run, first: Run, second: Run) -> bool
    ensures { result ≡ true → AreParts run first second }
{
    (first.first == run.first && (first.end == second.first && second.end == run.end))
        && (first.first < first.end && second.first < second.end)
}

/// The nodes that have the parts of a node's run, if it has any.
pub fn parts_of<'a>(tree: &'a Tree, node: &Node) -> Option<Parts<'a>>
    requires { IsTree tree.now }
    ensures parts { IfSome result (λ p. AreParts node.now.run p.first.now.run p.second.now.run) }
    ensures first { IfSome result (λ p. IsNode tree.now.lines.items p.first.now) }
    ensures second { IfSome result (λ p. IsNode tree.now.lines.items p.second.now) }
{
    let first = tree.nodes.get(node.first)?;
    let second = tree.nodes.get(node.number.saturating_sub(1))?;
    if are_parts(node.run, first.run, second.run) {
        Some(Parts { first, second })
    } else {
        None
    }
}

/// No segment of a node meets this one badly, if the answer is yes.
pub fn is_clear_of(tree: &Tree, node: &Node, line: &Line) -> bool
    requires tree { IsTree tree.now }
    requires node { IsNode tree.now.lines.items node.now }
    ensures { result ≡ true → bad_in tree.now.lines.items line.now node.now.run ≡ 0 }
{
    if are_apart(extent_of(line), node.extent) {
        return true;
    }
    match tree.marks.get(node.number) {
        Some(mark) => {
            mark.run.first == node.run.first
                && (mark.run.end == node.run.end
                    && (is_off(&node.extent, line) || rules_out(mark, line)))
        }
        None => false,
    }
}

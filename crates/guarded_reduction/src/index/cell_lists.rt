// Places by the square cells that their positions lie in.
ghost use Rattle.std.specs.Prelude.{◌≡◌, ◌+◌, ◌<◌, ◌≤◌, ◌^◌, ◌≤ℤ◌, ℤ, length, replicate, slice_set, true, false, IfOk, OnOk};
ghost use Rattle.guarded_reduction.specs.Cells as spec;
ghost use Rattle.guarded_reduction.specs.Cells.{AreCells, AreChained, IsGrid, least};
ghost use Rattle.guarded_reduction.specs.Indexes.{IsIndex};

use crate::index::box_tree::{BoxTree, tree_of};
use crate::index::searching::{is_left, position_of};
use crate::places::neighbours::{Neighbours, after_or, before_or};
use geometry::Position;
use owned_values::Memory;
use std::alloc::Global;

/// A factor without a pattern in its bits, by which the rows of cells are spread over the lists.
const FACTOR: u64 = 0x9E37_79B9_7F4A_7C15;

/// So many places have one list, which all of them are on.
const FEW: usize = 64;

/// At so many places it is looked how far the next one lies away.
const SAMPLES: usize = 64;

/// Lists of places: those whose cells have the same list are on it, the last one first, as far as they were left when the lists were made. A list is the
/// number of its first place, counted from one, and of each place that of the next one on its list; zero where there is none. A cell's side is two to
/// one more than so many bits.
#[derive(Drop)]
pub struct Grid {
    pub bits: u32,
    pub mask: u64,
    pub firsts: Vec<u32>,
    pub nexts: Vec<u32>,
}

/// The positions of places, which of them are left, and their lists by cells. By these they are found in less time than by boxes, as long as few places
/// lie in the cells of a box that is looked through.
#[derive(Drop)]
pub struct CellLists {
    pub positions: Vec<Position>,
    pub present: Vec<bool>,
    pub grid: Grid,
}

/// The number of the cell along one coordinate.
#[tactic(auto, unfolding(crate::specs::Cells::cell_along))]
fn cell_number(x: i64, bits: u32) -> u64
    requires { bits < 64 }
    ensures value { result ≡ spec.cell_along bits x }
    ensures within { result < 2 ^ 63 }
    ensures least { least ≤ℤ x }
{
    (x.abs_diff(i64::MIN) / 2) >> bits
}

/// The same, as cells are numbered: in the order of their coordinates.
#[tactic(auto, using(crate::proofs::Cells::cell_mono))]
pub fn cell_along(x: i64, bits: u32) -> u64
    requires { bits < 64 }
    ensures value { result ≡ spec.cell_along bits x }
    ensures within { result < 2 ^ 63 }
    ensures least { least ≤ℤ x }
    ensures from { (k : ℤ) → x ≤ℤ k → result ≤ spec.cell_along bits k }
    ensures until { (k : ℤ) → least ≤ℤ k → k ≤ℤ x → spec.cell_along bits k ≤ result }
{
    cell_number(x, bits)
}

/// The list of a cell. Those of the cells of a row stand side by side, so that a look through some of them waits for memory once.
#[tactic(auto, unfolding(crate::specs::Cells::list_of))]
pub fn list_of(column: u64, row: u64, mask: u64) -> usize
    ensures value { result ≡ spec.list_of mask column row }
    ensures within { result ≤ mask }
{
    let first = row.wrapping_mul(FACTOR) >> 32;
    (first.wrapping_add(column) & mask) as usize
}

/// The list of a position's cell.
#[tactic(auto, unfolding(crate::specs::Cells::list_at))]
pub fn list_at(position: Position, bits: u32, mask: u64) -> usize
    requires { bits < 64 }
    ensures value { result ≡ spec.list_at bits mask position }
    ensures within { result ≤ mask }
{
    list_of(
        cell_along(position.x(), bits),
        cell_along(position.y(), bits),
        mask,
    )
}

/// How far two places lie apart along both coordinates; not at all where there are no such places.
fn apart(positions: &[Position], place: usize, other: usize) -> u64 {
    if place >= positions.len() || other >= positions.len() {
        return 0;
    }
    let (p, q) = (positions[place], positions[other]);
    p.x().abs_diff(q.x()).saturating_add(p.y().abs_diff(q.y()))
}

/// How far the first place that is left, of so many from one on, lies from the farther of its neighbours.
fn step_after(
    positions: &[Position],
    present: &[bool],
    neighbours: &[Neighbours],
    from: usize,
    many: usize,
) -> u64 {
    for place in from..from.saturating_add(many).min(present.len()) {
        if present[place] {
            let before = before_or(neighbours, place, place);
            let after = after_or(neighbours, place, place);
            return apart(positions, place, before).max(apart(positions, place, after));
        }
    }
    0
}

/// How far a place that is left lies from the next one, mostly, as far as that is known.
fn usual_step(positions: &[Position], present: &[bool], neighbours: &[Neighbours]) -> u64 {
    let many = positions.len() / SAMPLES;
    let mut steps = [0u64; SAMPLES];
    for i in 0..SAMPLES {
        steps[i] = step_after(positions, present, neighbours, i.wrapping_mul(many), many);
    }
    steps.sort_unstable();
    let unknown = steps.iter().filter(|step| **step == 0).count();
    steps[(SAMPLES / 2 + unknown / 2).min(SAMPLES - 1)]
}

/// How many places are left.
fn count_left(present: &[bool]) -> usize {
    present.iter().filter(|left| **left).count()
}

/// How many lists there are for so many places: a power of two, more than these, so that few cells share one; and one for few places.
fn lists_for(places: usize) -> usize
    ensures { 0 < result }
{
    if places <= FEW {
        1
    } else {
        1usize << (places.ilog2() + 1).min(32)
    }
}

/// The bits of a cell's side: few places have one cell for all, others such as mostly hold a place and the two or three after it.
fn bits_for(places: usize, step: u64) -> u32
    ensures { result < 64 }
{
    if places <= FEW {
        63
    } else {
        (step.max(1).ilog2() + 1).min(62)
    }
}

/// The number of a place, counted from one, in short. For more there is no memory.
fn number_of(place: usize) -> Result<u32, Memory>
    requires { place + 1 < 2 ^ 64 }
    ensures { IfOk result (λ number. number ≡ place + 1) }
{
    match u32::try_from(place + 1) {
        Ok(number) => Ok(number),
        Err(_) => Err(Memory),
    }
}

/// Puts each place that is left on the list of its cell. The others have a next place too, and come before none.
fn put_on_lists(
    positions: &[Position],
    present: &[bool],
    bits: u32,
    mask: u64,
    firsts: &mut [u32],
    nexts: &mut Vec<u32>,
) -> Result<(), Memory>
    requires present { length present.now ≡ length positions.now }
    requires bits { bits < 64 }
    requires mask { mask < length firsts.old }
    requires none { AreChained bits mask positions.now present.now firsts.old nexts.old.items 0 }
    ensures many { length firsts.new ≡ length firsts.old }
    ensures chained { OnOk result (AreChained bits mask positions.now present.now firsts.new nexts.new.items (length positions.now)) }
{
    'places: for place in 0..positions.len() {
        let number = number_of(place)?;
        let list = list_at(position_of(positions, place), bits, mask);
        nexts.push(firsts[list])?;
        if is_left(present, place) {
            firsts[list] = number;
        }
    }
    Ok(())
}

/// The lists of the places that are left, by cells twice to four times as wide as these mostly lie apart.
fn grid_of(
    alloc: Global,
    positions: &[Position],
    present: &[bool],
    neighbours: &[Neighbours],
) -> Result<Grid, Memory>
    requires { length present.now ≡ length positions.now }
    ensures { IfOk result (λ g. IsGrid positions.now present.now g) }
{
    let left = count_left(present);
    let bits = bits_for(left, usual_step(positions, present, neighbours));
    let lists = lists_for(left);
    let mask = lists as u64 - 1;
    let mut firsts = vec![in alloc; 0u32; lists]?;
    let mut nexts = Vec::with_capacity(alloc, positions.len())?;
    put_on_lists(positions, present, bits, mask, &mut firsts, &mut nexts)?;
    Ok(Grid {
        bits,
        mask,
        firsts,
        nexts,
    })
}

/// The lists of these positions, which are all left, and of which these are the neighbours.
pub fn cell_lists_of(
    alloc: Global,
    positions: Vec<Position>,
    neighbours: &[Neighbours],
) -> Result<CellLists, Memory>
    ensures cells { IfOk result (λ x. AreCells x) }
    ensures positions { IfOk result (λ x. x.positions.items ≡ positions.items) }
    ensures present { IfOk result (λ x. x.present.items ≡ replicate (length positions.items) true) }
{
    let present = vec![in alloc; true; positions.len()]?;
    let grid = grid_of(alloc, &positions, &present, neighbours)?;
    Ok(CellLists {
        positions,
        present,
        grid,
    })
}

impl CellLists {
    /// The place goes.
    pub fn remove(&mut self, place: usize)
        requires cells { AreCells self.old }
        requires within { place < length self.old.positions.items }
        ensures cells { AreCells self.new }
        ensures positions { self.new.positions.items ≡ self.old.positions.items }
        ensures present { self.new.present.items ≡ slice_set self.old.present.items place false }
    {
        self.present[place] = false;
    }

    /// Makes the lists anew of the places that are left, by their neighbours, where fewer lists would do for these.
    pub fn renew(&mut self, alloc: Global, neighbours: &[Neighbours]) -> Result<(), Memory>
        requires { AreCells self.old }
        ensures cells { AreCells self.new }
        ensures positions { self.new.positions.items ≡ self.old.positions.items }
        ensures present { self.new.present.items ≡ self.old.present.items }
    {
        if lists_for(count_left(&self.present)) < self.grid.firsts.len() {
            self.grid = grid_of(alloc, &self.positions, &self.present, neighbours)?;
        }
        Ok(())
    }

    /// The same places in a tree of boxes.
    pub fn in_boxes(&self, alloc: Global) -> Result<BoxTree, Memory>
        requires { AreCells self.now }
        ensures index { IfOk result (λ x. IsIndex x) }
        ensures positions { IfOk result (λ x. x.positions.items ≡ self.now.positions.items) }
        ensures present { IfOk result (λ x. x.present.items ≡ self.now.present.items) }
    {
        let positions = self.positions.as_slice().to_vec(alloc)?;
        let present = self.present.as_slice().to_vec(alloc)?;
        tree_of(alloc, positions, present)
    }
}

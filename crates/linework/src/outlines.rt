// Lines and rings by themselves, and the linework of those that no layer holds any more.
ghost use Rattle.std.specs.Prelude.{◌≡◌, ◌<◌, ◌++◌, [], ◌∷◌, IfOk, OnOk, Some, length, map, slice_get};
ghost use Rattle.std.specs.List.{AllByRecursion};
ghost use Rattle.junctions.specs.Cleaning.{clean};
ghost use Rattle.junctions.specs.Gathering as spec;
ghost use Rattle.linework.specs.Outlines.{IsRingIfClosed, is_short_outline, linework_of, over_positions};

use crate::cleaning::without_repeats;
use geometry::{Moves, Position, move_positions};
use junctions::{Lines, Stroke, is_collapsed};
use owned_values::{Items, Memory};
use std::alloc::Global;
use std::marker::Model;
use std::mem;

/// Lines and rings by themselves, in one list. Whose they are isn't known here.
#[derive(Debug, Drop)]
pub struct Outlines {
    strokes: Vec<Stroke>,
}

impl Model for Outlines {
    ghost use Rattle.std.specs.Prelude.{List, map};
    ghost use Rattle.linework.specs.Outlines.{Outline, outline};

    ghost Value = { List Outline };

    ghost view = { λ o. map outline o.strokes.items };
}

impl Outlines {
    /// None yet.
    pub fn none(alloc: Global) -> Outlines
        ensures { result ≡ [] }
    {
        Outlines {
            strokes: Vec::new(alloc),
        }
    }

    /// One line or ring more.
    #[inline]
    pub fn push(&mut self, closed: bool, positions: Items<Position>) -> Result<(), Memory>
        ensures { OnOk result (self.new ≡ self.old ++ (closed, positions) ∷ []) }
    {
        self.strokes.push(Stroke { closed, positions })?;
        Ok(())
    }

    /// All the others after these. Where there is none yet, they are taken as they stand.
    pub fn append(&mut self, others: Outlines) -> Result<(), Memory>
        ensures { OnOk result (self.new ≡ self.old ++ others) }
    {
        let Outlines { strokes } = others;
        let mut strokes = strokes;
        if self.strokes.is_empty() {
            self.strokes = strokes;
        } else {
            self.strokes.append(&mut strokes)?;
        }
        Ok(())
    }

    /// How many lines and rings there are.
    pub fn len(&self) -> usize
        ensures { result ≡ length self.now }
    {
        self.strokes.len()
    }

    /// The positions of the line or ring with this number, counted from zero.
    pub fn positions_of(&self, i: usize) -> &[Position]
        requires { i < length self.now }
        ensures { slice_get (map (λ b. b.1) self.now) i ≡ Some result.now }
    {
        self.strokes[i].positions.as_slice()
    }

    /// Each position replaced.
    #[tactic(auto, using(geometry::proofs::Moved::refilled, crate::proofs::Outlined::outlines_over))]
    pub fn move_positions<M: Moves>(&mut self, moves: &M)
        ensures { self.new ≡ map (λ b. (b.0, map (M.goes_to moves.now) b.1)) self.old }
    {
        move_strokes(moves, self.strokes.as_mut_slice());
    }

    /// No more come: room for more is given back.
    pub fn shrink(&mut self)
        ensures { self.new ≡ self.old }
    {
        self.strokes.shrink_to_fit();
    }
}

/// Each position of each line or ring replaced.
#[tactic(auto, using(geometry::proofs::Moved::turns, geometry::proofs::Moved::refilled))]
fn move_strokes<M: Moves>(moves: &M, strokes: &mut [Stroke])
    ensures { strokes.new ≡ map (over_positions (map (M.goes_to moves.now))) strokes.old }
{
    'strokes: for stroke in strokes.iter_mut() {
        move_positions(moves, stroke.positions.as_mut_slice());
    }
}

/// The lines and rings that have enough positions with equal neighbours as one, and for each that is given whether it has too few. They are
/// cleaned where they stand.
#[tactic(auto, using(geometry::proofs::Moved::refilled, crate::proofs::Outlined::long_strokes, crate::proofs::Outlined::short_cleaned, crate::proofs::Outlined::long_clean, crate::proofs::Outlined::long_enough))]
pub fn lines_of_outlines(alloc: Global, outlines: Outlines) -> Result<(Lines, Vec<bool>), Memory>
    requires { AllByRecursion IsRingIfClosed outlines }
    ensures lines { IfOk result (λ r. r.0.lines_and_rings ≡ linework_of outlines) }
    ensures short { IfOk result (λ r. r.1.items ≡ map is_short_outline outlines) }
{
    let Outlines { strokes } = outlines;
    let mut strokes = strokes;
    let short = clean_strokes(alloc, strokes.as_mut_slice())?;
    leave_out_collapsed(&mut strokes);
    Ok((Lines::of_clean(alloc, strokes), short))
}

/// Each line or ring cleaned, and whether it then has too few positions.
fn clean_strokes(alloc: Global, strokes: &mut [Stroke]) -> Result<Vec<bool>, Memory>
    ensures cleaned { OnOk result (strokes.new ≡ map (over_positions clean) strokes.old) }
    ensures short { IfOk result (λ short. short.items ≡ map spec.is_collapsed strokes.new) }
{
    let mut short = Vec::with_capacity(alloc, strokes.len())?;
    'strokes: for stroke in strokes.iter_mut() {
        clean_stroke(alloc, stroke);
        short.push(is_collapsed(stroke))?;
    }
    Ok(short)
}

/// Equal neighbours as one position.
fn clean_stroke(alloc: Global, stroke: &mut Stroke)
    ensures { stroke.new ≡ over_positions clean stroke.old }
{
    let none = Items::of(Vec::new(alloc));
    let positions = mem::replace(&mut stroke.positions, none).into_inner();
    stroke.positions = Items::of(without_repeats(positions));
}

/// Leaves out the lines and rings that have too few positions.
fn leave_out_collapsed(strokes: &mut Vec<Stroke>)
    ensures { strokes.new.items ≡ spec.without_collapsed strokes.old.items }
{
    strokes.retain(|stroke| !is_collapsed(stroke));
}

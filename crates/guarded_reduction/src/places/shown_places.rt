// The positions of places, of which some are left.
ghost use Rattle.std.specs.Prelude.{◌≡◌, ◌<◌, IfOk, length, true};
ghost use Rattle.std.specs.Option.{IfNone, IfSome};
ghost use Rattle.guarded_reduction.specs.Blocked.{blocking};
ghost use Rattle.guarded_reduction.specs.Indexes.{Meets, NoneMeets, is_left_at};
ghost use Rattle.guarded_reduction.specs.PlacedLists.{all_placed, without_placed};

use crate::index::blocking::Blocked;
use crate::index::box_tree::BoxTree;
use crate::index::cell_lists::{CellLists, cell_lists_of};
use crate::index::corner::{Corner, reach_of};
use crate::places::neighbours::Neighbours;
use geometry::Position;
use owned_values::Memory;
use planar_predicates::Extent;
use std::alloc::Global;
use std::marker::Model;

/// For each place so many steps may be taken in cells, before boxes take their place: one for each cell that is gone through, and for each place in it.
const STEPS: u64 = 128;

/// The positions of places: listed without an index, or in an index of cells or of boxes.
#[derive(Drop)]
pub enum Places {
    Listed {
        positions: Vec<Position>,
        left: Vec<bool>,
    },
    Celled(CellLists),
    Boxed(BoxTree),
}

/// Positions by the numbers of their places, of which some are left, with an index over these, or without one where nothing is looked for. The index is
/// one of cells, until so many steps have been taken, and then one of boxes.
#[derive(Drop)]
pub struct ShownPlaces {
    places: Places,
    steps: u64,
}

impl Model for ShownPlaces {
    ghost use Rattle.guarded_reduction.specs.Placed.{IsPaired, placed_in};
    ghost use Rattle.guarded_reduction.specs.PlacedLists.{Placed};

    ghost Value = { Placed };

    ghost view = { λ p. placed_in p.places };

    ghost invariant = { λ p. IsPaired p.places };
}

impl ShownPlaces {
    /// These positions, which are all left, and of which these are the neighbours, with an index or without.
    pub fn of(
        alloc: Global,
        positions: Vec<Position>,
        neighbours: &[Neighbours],
        indexed: bool,
    ) -> Result<ShownPlaces, Memory>
        ensures { IfOk result (λ x. x ≡ all_placed indexed positions.items) }
    {
        let steps = STEPS.saturating_mul(positions.len() as u64);
        let places = if indexed {
            Places::Celled(cell_lists_of(alloc, positions, neighbours)?)
        } else {
            let left = vec![in alloc; true; positions.len()]?;
            Places::Listed { positions, left }
        };
        Ok(ShownPlaces { places, steps })
    }

    /// The positions of all places, also of those that are gone.
    pub fn positions(&self) -> &[Position]
        ensures { result.now ≡ self.now.positions }
    {
        match &self.places {
            Places::Listed { positions, .. } => positions.as_slice(),
            Places::Celled(cells) => cells.positions.as_slice(),
            Places::Boxed(tree) => tree.positions.as_slice(),
        }
    }

    /// Which places are left.
    pub fn left(&self) -> &[bool]
        ensures { result.now ≡ self.now.left }
    {
        match &self.places {
            Places::Listed { left, .. } => left.as_slice(),
            Places::Celled(cells) => cells.present.as_slice(),
            Places::Boxed(tree) => tree.present.as_slice(),
        }
    }

    /// There is an index.
    pub fn is_indexed(&self) -> bool
        ensures { result ≡ self.now.indexed }
    {
        match &self.places {
            Places::Listed { .. } => false,
            Places::Celled(_) => true,
            Places::Boxed(_) => true,
        }
    }

    /// There seem to be more places at the position of one than at that of another, as far as an index shows it. Nothing rests on it but speed.
    pub fn is_more_crowded(&self, place: usize, other: usize) -> bool
        requires place { place < length self.now.positions }
        requires other { other < length self.now.positions }
    {
        match &self.places {
            Places::Listed { .. } => false,
            Places::Celled(_) => false,
            Places::Boxed(tree) => tree.is_more_crowded(place, other),
        }
    }

    /// The place goes.
    pub fn remove(&mut self, place: usize)
        requires { place < length self.old.positions }
        ensures { self.new ≡ without_placed place self.old }
    {
        match &mut self.places {
            Places::Listed { left, .. } => left[place] = false,
            Places::Celled(cells) => cells.remove(place),
            Places::Boxed(tree) => tree.remove(place),
        }
    }

    /// Makes an index of cells anew of the places that are left, by their neighbours, where many are gone.
    pub fn renew(&mut self, alloc: Global, neighbours: &[Neighbours]) -> Result<(), Memory>
        ensures { self.new ≡ self.old }
    {
        match &mut self.places {
            Places::Listed { .. } => Ok(()),
            Places::Celled(cells) => cells.renew(alloc, neighbours),
            Places::Boxed(_) => Ok(()),
        }
    }

    /// Readies the index for a search through this box: one of boxes takes the place of one of cells, where this box meets more of these than steps
    /// are left.
    pub fn ready(&mut self, alloc: Global, within: &Extent) -> Result<(), Memory>
        ensures { self.new ≡ self.old }
    {
        let Places::Celled(cells) = &self.places else {
            return Ok(());
        };
        if cells.count_cells(within) <= self.steps {
            return Ok(());
        }
        let tree = cells.in_boxes(alloc)?;
        self.places = Places::Boxed(tree);
        Ok(())
    }

    /// As many steps as a search of the corner takes in cells, at least.
    pub fn least_steps(&self, corner: &Corner) -> u64 {
        match &self.places {
            Places::Listed { .. } => 0,
            Places::Celled(cells) => cells.least_steps(corner.at, &reach_of(corner)),
            Places::Boxed(_) => 0,
        }
    }

    /// So many steps have been taken.
    pub fn spend(&mut self, steps: u64)
        ensures { self.new ≡ self.old }
    {
        self.steps = self.steps.saturating_sub(steps);
    }

    /// A place that is left and meets the test of the query, where there is an index. The steps that this takes in cells are counted.
    pub fn find(&self, query: &Blocked, steps: &mut u64) -> Option<usize>
        ensures asked { IfSome result (λ _. self.now.indexed ≡ true) }
        ensures some { IfSome result (λ z. Meets self.now.positions self.now.left (blocking query.now) z) }
        ensures none { IfNone result (self.now.indexed ≡ true → NoneMeets self.now.positions self.now.left (blocking query.now)) }
    {
        match &self.places {
            Places::Listed { .. } => None,
            Places::Celled(cells) => cells.find(query, steps),
            Places::Boxed(tree) => tree.find(query),
        }
    }
}

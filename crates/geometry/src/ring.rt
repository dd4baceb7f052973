ghost use Rattle.std.specs.Prelude.{◌≡◌, true, map};
ghost use Rattle.geometry.specs.Rings as spec;
ghost use Rattle.geometry.specs.Rings.{is_ring};

use crate::moving::{Moves, move_positions};
use crate::position::Position;
use std::marker::Model;

/// A linear ring (RFC 7946, section 3.1.6): four positions or more, of which the first and the last are equal.
#[derive(Debug, Drop)]
pub struct Ring {
    positions: Vec<Position>,
}

impl Model for Ring {
    ghost use Rattle.std.specs.Prelude.{◌≡◌, List, true};
    ghost use Rattle.geometry.specs.Points.{Point};
    ghost use Rattle.geometry.specs.Rings.{is_ring};

    ghost Value = { List Point };

    ghost view = { λ r. r.positions.items };

    ghost invariant = { λ r. is_ring r.positions.items ≡ true };
}

impl Ring {
    /// The ring with these positions.
    pub fn of(positions: Vec<Position>) -> Ring
        requires { is_ring positions.items ≡ true }
        ensures { result ≡ positions.items }
    {
        Ring { positions }
    }

    /// Its positions, the last of them equal to the first.
    pub fn as_slice(&self) -> &[Position]
        ensures value { result.now ≡ self.now }
        ensures ring { is_ring self.now ≡ true }
    {
        self.positions.as_slice()
    }

    /// Each position replaced. Since equal positions stay equal, the ring stays closed.
    pub fn move_positions<M: Moves>(&mut self, moves: &M)
        ensures { self.new ≡ map (M.goes_to moves.now) self.old }
    {
        move_positions(moves, self.positions.as_mut_slice());
    }

    /// Its positions, by value.
    pub fn into_inner(self) -> Vec<Position>
        ensures value { result.items ≡ self }
        ensures ring { is_ring result.items ≡ true }
    {
        let Ring { positions } = self;
        positions
    }
}

/// Whether the first and the last position are equal. There is none of them in an empty slice.
#[tactic(auto, unfolding(crate::specs::Rings::is_closed, crate::specs::Rings::same))]
pub fn is_closed(positions: &[Position]) -> bool
    ensures { result ≡ spec.is_closed positions.now }
{
    match (positions.first(), positions.last()) {
        (Some(first), Some(last)) => first == last,
        _ => false,
    }
}

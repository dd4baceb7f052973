ghost use Rattle.std.specs.Prelude.{◌≡◌, ◌≤◌, ◌↔◌, IsSome, IfSome, IsTrue, unsigned_abs};
ghost use Rattle.geometry.specs.Points.{IsPosition, IsInput};
ghost use Rattle.geometry.specs.Units.{position_limit};
ghost use Rattle.geometry.specs.Rings.{same};

use crate::units::{INPUT_LIMIT, POSITION_LIMIT};
use std::marker::Model;

/// A position (RFC 7946, section 3.1.1) in whole units of `10^-PLACES` of the input's unit, x (longitude) first.
/// Positions compare by x and then by y.
#[derive(Clone, Copy, Debug, PartialEq, Eq, PartialOrd, Ord, Hash)]
pub struct Position {
    x: i64,
    y: i64,
}

impl Model for Position {
    ghost use Rattle.geometry.specs.Points.{Point, IsPosition};

    ghost Value = { Point };

    ghost view = { λ p. record { x = p.x; y = p.y } };

    ghost invariant = { λ p. IsPosition (record { x = p.x; y = p.y }) };

    ghost inverse = { λ p. record { x = p.x; y = p.y } };
}

impl Position {
    /// The position, where both coordinates are within `POSITION_LIMIT`.
    pub fn new(x: i64, y: i64) -> Option<Position>
        ensures there { IsSome result ↔ IsPosition (record { x = x; y = y }) }
        ensures value { IfSome result (λ p. p ≡ record { x = x; y = y }) }
    {
        if x.unsigned_abs() <= POSITION_LIMIT && y.unsigned_abs() <= POSITION_LIMIT {
            Some(Position::at(x, y))
        } else {
            None
        }
    }

    /// The position, whose coordinates are known to be within the limit.
    pub fn at(x: i64, y: i64) -> Position
        requires { IsPosition (record { x = x; y = y }) }
        ensures { result ≡ record { x = x; y = y } }
    {
        Position { x, y }
    }

    /// Its x (longitude), in units.
    pub fn x(self) -> i64
        ensures x { result ≡ self.x }
        ensures within { unsigned_abs result ≤ position_limit }
    {
        self.x
    }

    /// Its y (latitude), in units.
    pub fn y(self) -> i64
        ensures y { result ≡ self.y }
        ensures within { unsigned_abs result ≤ position_limit }
    {
        self.y
    }

    /// Whether a layer can hold it: both coordinates are within `INPUT_LIMIT`.
    pub fn is_input(self) -> bool
        ensures { IsTrue result ↔ IsInput self }
    {
        let Position { x, y } = self;
        x.unsigned_abs() <= INPUT_LIMIT && y.unsigned_abs() <= INPUT_LIMIT
    }
}

/// Whether two positions are equal.
pub fn is_same(p: Position, q: Position) -> bool
    ensures { result ≡ same p q }
{
    p == q
}

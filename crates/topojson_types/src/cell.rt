ghost use Rattle.std.specs.Prelude.{◌≡◌, ◌≤◌, unsigned_abs};
ghost use Rattle.geometry.specs.Points.{IsWithin};
ghost use Rattle.geometry.specs.Units.{cell_limit};

use geojson_types::Position;
use std::marker::Model;

/// A position of a topology as it is kept: in a topology without a transform the units of a position, x first.
#[derive(Clone, Copy, Debug, PartialEq, Eq, Hash)]
pub struct Cell {
    x: i64,
    y: i64,
}

impl Model for Cell {
    ghost use Rattle.geometry.specs.Points.{Point, IsWithin};
    ghost use Rattle.geometry.specs.Units.{cell_limit};

    ghost Value = { Point };

    ghost view = { λ c. record { x = c.x; y = c.y } };

    ghost invariant = { λ c. IsWithin cell_limit (record { x = c.x; y = c.y }) };

    ghost inverse = { λ c. record { x = c.x; y = c.y } };
}

impl Cell {
    /// The cell of these numbers.
    pub fn at(x: i64, y: i64) -> Cell
        requires { IsWithin cell_limit (record { x = x; y = y }) }
        ensures { result ≡ record { x = x; y = y } }
    {
        Cell { x, y }
    }

    /// The cell that holds the units of a position.
    pub fn of(position: Position) -> Cell
        ensures { result ≡ position }
    {
        Cell {
            x: position.x(),
            y: position.y(),
        }
    }

    pub fn x(self) -> i64
        ensures x { result ≡ self.x }
        ensures within { unsigned_abs result ≤ cell_limit }
    {
        self.x
    }

    pub fn y(self) -> i64
        ensures y { result ≡ self.y }
        ensures within { unsigned_abs result ≤ cell_limit }
    {
        self.y
    }
}

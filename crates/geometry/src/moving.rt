// Geometries whose positions are replaced in place.
ghost use Rattle.std.specs.Prelude.{◌≡◌, map};
ghost use Rattle.geometry.specs.Moving.{moved as moved_shape};
ghost use Rattle.geometry.specs.Points.{Point};

use crate::position::Position;
use crate::ring::Ring;
use crate::shape::{Geometry, Shape};
use owned_values::Items;

/// What gives another position for each, as a grid does to which positions are snapped. Equal positions are given equal ones.
pub trait Moves {
    /// The position that is given for one.
    ghost goes_to: { Self → Point → Point };

    fn moved(&self, position: Position) -> Position
        ensures { result ≡ goes_to self.now position };
}

/// Each position replaced.
pub fn move_positions<M: Moves>(moves: &M, positions: &mut [Position])
    ensures { positions.new ≡ map (M.goes_to moves.now) positions.old }
{
    'positions: for position in positions.iter_mut() {
        *position = moves.moved(*position);
    }
}

/// Each position of each line replaced.
fn move_lines<M: Moves>(moves: &M, lines: &mut [Items<Position>])
    ensures { lines.new ≡ map (map (M.goes_to moves.now)) lines.old }
{
    'lines: for line in lines.iter_mut() {
        move_positions(moves, line.as_mut_slice());
    }
}

/// Each position of each ring replaced.
fn move_rings<M: Moves>(moves: &M, rings: &mut [Ring])
    ensures { rings.new ≡ map (map (M.goes_to moves.now)) rings.old }
{
    'rings: for ring in rings.iter_mut() {
        ring.move_positions(moves);
    }
}

/// Each position of each ring of each polygon replaced.
fn move_areas<M: Moves>(moves: &M, areas: &mut [Items<Ring>])
    ensures { areas.new ≡ map (map (map (M.goes_to moves.now))) areas.old }
{
    'areas: for area in areas.iter_mut() {
        move_rings(moves, area.as_mut_slice());
    }
}

/// Each position of the shape replaced.
pub fn move_shape<M: Moves>(moves: &M, shape: &mut Shape)
    ensures { shape.new ≡ moved_shape (M.goes_to moves.now) shape.old }
{
    match shape {
        Geometry::Point(position) => *position = moves.moved(*position),
        Geometry::MultiPoint(positions) => move_positions(moves, positions.as_mut_slice()),
        Geometry::Line(positions) => move_positions(moves, positions.as_mut_slice()),
        Geometry::Lines(lines) => move_lines(moves, lines.as_mut_slice()),
        Geometry::Area(rings) => move_rings(moves, rings.as_mut_slice()),
        Geometry::Areas(areas) => move_areas(moves, areas.as_mut_slice()),
        Geometry::Group(shapes) => {
            'shapes: for shape in shapes.as_mut_slice().iter_mut() {
                move_shape(moves, shape);
            }
        }
    }
}

ghost use Rattle.std.specs.Prelude.{◌≡◌, ◌<◌, [], Some, get_or, length, slice_get};
ghost use Rattle.std.specs.Option.{option_copied};
ghost use Rattle.geometry.specs.Lists.{map_some};
ghost use Rattle.topojson_types.specs.Bounds.{bounds as bounds_of};
ghost use Rattle.topojson_types.specs.Transforms.{place as place_of};
ghost use Rattle.topojson_types.specs.Validity.{IsTopology};

use crate::bounding::{with_arcs, with_objects};
use crate::cell::Cell;
use crate::object::TopoObject;
use crate::placing::{ordered, position_at};
use crate::transform::Transform;
use geojson_types::Position;
use json_value::{Items, OwnText};
use std::marker::Model;

/// A topology (TopoJSON 1.0, section 2.1), valid by its type: no two names of objects are equal, each arc index names an arc, an arc
/// has two cells or more, the arcs of a line meet and those of a ring close, no list of a geometry is empty but that of a
/// GeometryCollection, and each cell stands for a position. With a transform the numbers of a cell are within `GRID_LIMIT`.
#[derive(Debug, Drop)]
pub struct Topology {
    shown: Items<(OwnText, TopoObject)>,
    lines: Items<Items<Cell>>,
    grid: Option<Transform>,
}

impl Model for Topology {
    ghost use Rattle.topojson_types.specs.Codes.{contents_code};
    ghost use Rattle.topojson_types.specs.Topologies.{Contents};
    ghost use Rattle.topojson_types.specs.Validity.{IsTopology};

    ghost Value = { Contents };

    ghost coded = { contents_code };

    ghost view = { λ t. record { objects = t.shown; arcs = t.lines; transform = t.grid } };

    ghost invariant = { λ t. IsTopology (record { objects = t.shown; arcs = t.lines; transform = t.grid }) };
}

impl Topology {
    /// The topology of these objects, by name in order, and these arcs, with this transform, if there is one.
    pub fn of(
        objects: Items<(OwnText, TopoObject)>,
        arcs: Items<Items<Cell>>,
        transform: Option<Transform>,
    ) -> Topology
        requires valid { IsTopology (record { objects = objects; arcs = arcs; transform = transform }) }
        ensures { result ≡ record { objects = objects; arcs = arcs; transform = transform } }
    {
        Topology {
            shown: objects,
            lines: arcs,
            grid: transform,
        }
    }

    /// Its objects by name, in order.
    pub fn objects(&self) -> &[(OwnText, TopoObject)]
        ensures objects { result.now ≡ self.now.objects }
        ensures valid { IsTopology self.now }
    {
        self.shown.as_slice()
    }

    /// Its arcs.
    pub fn arcs(&self) -> &[Items<Cell>]
        ensures arcs { result.now ≡ self.now.arcs }
        ensures valid { IsTopology self.now }
    {
        self.lines.as_slice()
    }

    /// Its transform, if there is one.
    pub fn transform(&self) -> Option<&Transform>
        ensures transform { option_copied result ≡ self.now.transform }
        ensures valid { IsTopology self.now }
    {
        self.grid.as_ref()
    }

    /// Where the cell with this number of the arc with that number lies, both counted from zero.
    pub fn place(&self, arc: usize, i: usize) -> Position
        requires arc { arc < length self.now.arcs }
        requires position { i < length (get_or self.now.arcs arc []) }
        ensures { map_some (place_of self.now.transform) (slice_get (get_or self.now.arcs arc []) i) ≡ Some result }
    {
        position_at(self.grid.as_ref(), self.lines.as_slice()[arc].as_slice()[i])
    }

    /// Its bounding box (TopoJSON 1.0, section 3): the least x and y of all positions of its arcs, its Points and its MultiPoints, as
    /// they lie by its transform, and the greatest. There is none where there is no position.
    pub fn bounds(&self) -> Option<(Position, Position)>
        ensures { result ≡ bounds_of self.now }
    {
        let of_arcs = with_arcs(None, self.lines.as_slice());
        let (least, greatest) = with_objects(of_arcs, self.shown.as_slice())?;
        let transform = self.grid.as_ref();
        Some(ordered(
            position_at(transform, least),
            position_at(transform, greatest),
        ))
    }

    /// Its objects, its arcs and its transform, by value.
    pub fn into_parts(
        self,
    ) -> (
        Items<(OwnText, TopoObject)>,
        Items<Items<Cell>>,
        Option<Transform>,
    )
        ensures objects { result.0 ≡ self.objects }
        ensures arcs { result.1 ≡ self.arcs }
        ensures transform { result.2 ≡ self.transform }
        ensures valid { IsTopology self }
    {
        let topology = self;
        (topology.shown, topology.lines, topology.grid)
    }
}

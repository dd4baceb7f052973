use crate::cell::Cell;
use geojson_types::{Geometry, Id, Properties};
use geometry::ArcRef;
use json_value::Items;
use std::marker::Model;

/// A geometry of a topology (TopoJSON 1.0, section 2.2): a line and a ring are lists of arc indexes.
pub type TopoShape = Geometry<Cell, Items<ArcRef>, Items<ArcRef>>;

/// A geometry object of a topology with its identifier and properties. `None` stands for no identifier, for null properties and
/// for a null geometry.
#[derive(Debug, Drop)]
pub struct TopoFeature {
    pub id: Option<Id>,
    pub properties: Option<Properties>,
    pub shape: Option<TopoShape>,
}

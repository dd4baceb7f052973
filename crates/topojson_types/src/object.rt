use crate::feature::TopoFeature;
use json_value::Items;

/// An object of a topology: one geometry object that is no GeometryCollection, or a GeometryCollection, whose members are features.
#[derive(Debug, Drop)]
pub enum TopoObject {
    One(TopoFeature),
    Many(Items<TopoFeature>),
}

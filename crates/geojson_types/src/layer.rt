use crate::feature::Feature;
use json_value::Items;

/// The features of a GeoJSON text in order. A text that is one Feature or one bare geometry has one.
#[derive(Debug, Drop)]
pub struct Layer {
    pub features: Items<Feature>,
}

/// What a decoded object is written as: a Feature or a FeatureCollection (RFC 7946, section 3.3).
#[derive(Debug, Drop)]
pub enum FeatureSet {
    One(Feature),
    Many(Items<Feature>),
}

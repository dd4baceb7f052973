use crate::transform_number::TransformNumber;

/// The transform of a topology (TopoJSON 1.0, section 2.1.2): a number k of the grid stands for k * scale + translate. Each pair
/// holds the number for x first.
#[derive(Debug, Drop)]
pub struct Transform {
    pub scale: (TransformNumber, TransformNumber),
    pub translate: (TransformNumber, TransformNumber),
}

/// Up to which threshold a position of a line stays (Visvalingam and Whyatt 1993).
#[derive(Clone, Copy, Debug, PartialEq, Eq)]
pub enum Weight {
    /// It is an end of the line and stays at each threshold.
    End,
    /// It stays where the threshold isn't over this, in square units: the greatest of twice the areas at which positions are taken
    /// out, up to its own elimination.
    Area(u128),
}

// What a reduction is asked for.

use crate::level::Level;
use build_meaning::Guards;

/// What a reduction is asked for.
#[derive(Clone, Copy, Debug)]
pub struct Reduction {
    /// What it may not do.
    pub guards: Guards,
    /// How much of the detail of the arcs stays.
    pub level: Level,
    /// Rings are left out of which twice the area is under this, in square units.
    pub ring_limit: u128,
}

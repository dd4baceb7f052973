// What is asked for.
ghost use Rattle.std.specs.Prelude.{◌≡◌, true};
ghost use Rattle.mapchain_engine.specs.Ranges.{is_in_range};

use layer_topology::{Guards, Level};

/// How a topology is built.
#[derive(Clone, Copy, Debug)]
pub struct Options {
    /// The number of grid cells along each axis, from 2 to 10^9, that positions are snapped to, if any.
    pub grid: Option<u32>,
    /// What reduction may not do.
    pub guards: Guards,
    /// How much of the detail of lines stays: a threshold of at most twice `AREA_LIMIT`, or a share of at most one.
    pub level: Level,
    /// Rings are left out that are left with less than this, twice their area in square units: at most twice `AREA_LIMIT`.
    pub ring_limit: u128,
    /// Coordinates that aren't whole in units are refused.
    pub exact: bool,
    /// What the hashes of positions begin with. Nothing that is written depends on it; where strangers make the layers, take a number
    /// that they can't know.
    pub seed: u64,

    ghost in_range: { is_in_range grid level ring_limit ≡ true },
}

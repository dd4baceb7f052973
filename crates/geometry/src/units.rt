// The unit of coordinates, and every number that follows from it. `specs/Units.antt` has them as contracts see them.

/// The decimals of a unit, in which coordinates are whole: a unit is `10^-9` of the input's unit.
pub const PLACES: u32 = 9;

/// The units in one of the input's unit: `10^PLACES`.
const UNITS_IN_ONE: u64 = 1_000_000_000;

/// The greatest magnitude of a coordinate that is read from a layer, in units: 10^8 of the input's unit.
pub const INPUT_LIMIT: u64 = 100_000_000 * UNITS_IN_ONE;

/// The greatest magnitude of a coordinate of a `Position`, in units.
pub const POSITION_LIMIT: u64 = 3 * INPUT_LIMIT;

/// The greatest magnitude of a number of a cell of a topology.
pub const CELL_LIMIT: u64 = 10 * INPUT_LIMIT;

/// The decimals of an area in square units of the input's unit.
pub const AREA_PLACES: u32 = 2 * PLACES;

/// The greatest area, in square units: 10^18 square units of the input's unit. Twice the area of a triangle between positions is below it.
pub const AREA_LIMIT: u128 = 100 * (INPUT_LIMIT as u128) * (INPUT_LIMIT as u128);

/// The decimals at which the numbers of a transform (TopoJSON 1.0, section 2.1.2) are taken.
pub const TRANSFORM_PLACES: u32 = 20;

/// How many units of `10^-TRANSFORM_PLACES` a unit of coordinates is.
pub const FINE_UNITS: u128 = 100_000_000_000_000_000_000 / (UNITS_IN_ONE as u128);

/// The greatest magnitude of a number of a transform, in units of `10^-TRANSFORM_PLACES`: that of a position.
pub const TRANSFORM_LIMIT: i128 = (POSITION_LIMIT as i128) * (FINE_UNITS as i128);

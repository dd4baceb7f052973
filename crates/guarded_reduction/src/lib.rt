//! Guarded reduction of all arcs at once, in code: of all corners under a threshold the least goes again and again, where no crossing is made of it,
//! or where rings keep four positions, or both. It stands on `guarded_meaning`, whose definition it answers, and on `planar_predicates`, which
//! decides where positions and boxes lie. The layer above uses `reduce_guarded`, and `reduce_to_share` for a share of the positions.
//! The places of all arcs are numbered and linked (`src/places`). Their corners are queued in rounds by their areas, and the least is looked at
//! (`src/queue`): one that something blocks waits on it, and one without which a ring would be too short stays for good (`src/rings`). What blocks a corner
//! is found among the places that are left by cells, until that has taken so many steps, and then by boxes (`src/index`). How many corners are looked at,
//! and how many cells or boxes each look goes through, is not promised.
#![tactic(auto)]

mod index;
mod places;
mod queue;
mod reducing;
mod rings;
mod sharing;

pub use reducing::reduce_guarded;
pub use sharing::reduce_to_share;

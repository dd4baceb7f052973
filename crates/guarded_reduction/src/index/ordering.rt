// The order of places in the tree of an index, near ones close together.
ghost use Rattle.std.specs.Prelude.{◌≡◌, ◌<◌, ◌≤◌, ℕ, length, map, slice_index, IfOk, OnOk};
ghost use Rattle.std.specs.List.{range_with_len};
ghost use Rattle.std.specs.List.Sorted.{IsPermutation};
ghost use Rattle.guarded_reduction.specs.Orders.{AreRanks, place_of};

use geometry::Position;
use owned_values::Memory;
use planar_predicates::{Located, arrange};
use std::alloc::Global;

/// A place and its position.
#[derive(Clone, Copy, Debug, PartialEq, Eq)]
pub struct Key {
    pub at: Position,
    pub place: usize,
}

impl Located for Key {
    fn spot(&self) -> (i64, i64) {
        (self.at.x(), self.at.y())
    }
}

/// The places, each with its position.
#[tactic(auto, using(crate::proofs::Orders::keys_more))]
fn keys_of(alloc: Global, positions: &[Position]) -> Result<Vec<Key>, Memory>
    ensures { IfOk result (λ v. map place_of v.items ≡ range_with_len 0 (length positions.now)) }
{
    let mut keys = Vec::with_capacity(alloc, positions.len())?;
    for (place, p) in positions.iter().enumerate() {
        keys.push(Key { at: *p, place })?;
    }
    Ok(keys)
}

/// The places of the keys.
fn places_of(alloc: Global, keys: &[Key]) -> Result<Vec<usize>, Memory>
    ensures { IfOk result (λ v. v.items ≡ map place_of keys.now) }
{
    let places = keys.iter().map(|k| k.place).collect(alloc)?;
    Ok(places)
}

/// How many of so many leaves of a tree are a level lower than the others. The others come first.
fn lowest_leaves(n: usize) -> usize
    ensures { result ≤ n }
{
    if n == 0 {
        return 0;
    }
    2 * (n - (1usize << n.ilog2()))
}

/// Puts the keys in the order of the leaves.
fn put_in_order(alloc: Global, keys: &mut [Key]) -> Result<(), Memory>
    ensures { OnOk result (IsPermutation keys.old keys.new) }
{
    arrange(alloc, keys)?;
    keys.rotate_left(lowest_leaves(keys.len()));
    Ok(())
}

/// The places, in the order of the leaves.
pub fn places_in_order(alloc: Global, positions: &[Position]) -> Result<Vec<usize>, Memory>
    ensures { IfOk result (λ v. IsPermutation (range_with_len 0 (length positions.now)) v.items) }
{
    let mut keys = keys_of(alloc, positions)?;
    put_in_order(alloc, &mut keys)?;
    let places = places_of(alloc, &keys)?;
    Ok(places)
}

/// Where each place stands among them.
pub fn ranks_of(alloc: Global, places: &[usize]) -> Result<Vec<usize>, Memory>
    requires { (r : ℕ) → r < length places.now → slice_index places.now r < length places.now }
    ensures length { IfOk result (λ v. length v.items ≡ length places.now) }
    ensures ranks { IfOk result (λ v. AreRanks places.now v.items (length places.now)) }
{
    let mut ranks = vec![in alloc; 0; places.len()]?;
    for (rank, place) in places.iter().enumerate() {
        ranks[*place] = rank;
    }
    Ok(ranks)
}

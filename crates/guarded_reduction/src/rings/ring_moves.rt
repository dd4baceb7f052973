// How often arcs and rings move on, and which rings use which arcs.
ghost use Rattle.std.specs.Prelude.{◌≡◌, ℕ, ◌-◌, ◌*◌, ◌<◌, ◌≤◌, ◌++◌, [], IfOk, OnOk, ◌==◌, length, map, replicate, slice_index, slice_index_or, if◌then◌else◌};
ghost use Rattle.std.specs.List.{AllByRecursion, Contains};
ghost use Rattle.geometry.specs.Joins.{AreInRange};
ghost use Rattle.guarded_reduction.specs.Moves.{AddsUser, AreUsers, capped as capped_in, moves as moves_in, owners_of as owners_in, ring_moves, steps, times};

use geometry::{ArcRef, Position, is_same};
use owned_values::{Items, Memory};
use std::alloc::Global;

/// A ring of four positions moves on so often.
pub const LEAST_MOVES: usize = 3;

/// One move where the two positions differ.
pub fn step(p: Position, q: Position) -> usize
    ensures value { result ≡ steps p q }
    ensures most { result ≤ 1 }
{
    if is_same(p, q) { 0 } else { 1 }
}

/// How many of these positions differ from the one before.
fn moves_of(positions: &[Position]) -> usize
    ensures { result ≡ moves_in positions.now }
{
    let mut moves = 0;
    for i in 1..positions.len() {
        moves += step(positions[i - 1], positions[i]);
    }
    moves
}

/// How often each arc moves on.
#[tactic(auto, using(owned_values::proofs::Lists::mapped_more, owned_values::proofs::Lists::mapped_all))]
pub fn all_moves(alloc: Global, arcs: &[Items<Position>]) -> Result<Vec<usize>, Memory>
    ensures { IfOk result (λ all. all.items ≡ map moves_in arcs.now) }
{
    let mut all = Vec::with_capacity(alloc, arcs.len())?;
    'arcs: for arc in arcs {
        all.push(moves_of(arc.as_slice()))?;
    }
    Ok(all)
}

/// Puts the number of an arc as often after the others as it has places.
fn put_owner(owners: &mut Vec<usize>, arc: usize, n: usize) -> Result<(), Memory>
    ensures { OnOk result (owners.new.items ≡ owners.old.items ++ replicate n arc) }
{
    for _place in 0..n {
        owners.push(arc)?;
    }
    Ok(())
}

/// The number of each place's arc.
pub fn owners_of(alloc: Global, arcs: &[Items<Position>]) -> Result<Vec<usize>, Memory>
    ensures { IfOk result (λ all. all.items ≡ owners_in 0 arcs.now) }
{
    let mut all = Vec::new(alloc);
    for i in 0..arcs.len() {
        put_owner(&mut all, i, arcs[i].len())?;
    }
    Ok(all)
}

/// For so many arcs, which no ring uses.
fn no_users(alloc: Global, n: usize) -> Result<Vec<Vec<usize>>, Memory>
    ensures { IfOk result (λ users. map (λ u. u.items) users.items ≡ replicate n []) }
{
    let mut users = Vec::with_capacity(alloc, n)?;
    for _arc in 0..n {
        users.push(Vec::new(alloc))?;
    }
    Ok(users)
}

/// Lists the ring of this number with the arcs that it uses.
fn put_users(users: &mut Vec<Vec<usize>>, ring: usize, refs: &[ArcRef]) -> Result<(), Memory>
    requires { AreInRange (length users.old.items) refs.now }
    ensures { OnOk result (AddsUser ring refs.now (map (λ u. u.items) users.old.items) (map (λ u. u.items) users.new.items)) }
{
    'refs: for arc in refs {
        users[arc.index()].push(ring)?;
    }
    Ok(())
}

/// Of so many arcs the numbers of the rings that use them.
pub fn users_of(alloc: Global, n: usize, rings: &[Items<ArcRef>]) -> Result<Vec<Vec<usize>>, Memory>
    requires { AllByRecursion (AreInRange n) rings.now }
    ensures many { IfOk result (λ users. length users.items ≡ n) }
    ensures users { IfOk result (λ users. AreUsers (length rings.now) rings.now (map (λ u. u.items) users.items)) }
{
    let mut users = no_users(alloc, n)?;
    for ring in 0..rings.len() {
        put_users(&mut users, ring, rings[ring].as_slice())?;
    }
    Ok(users)
}

/// So often an arc counts that moves on so often, as three moves are enough for a ring.
pub fn capped(moves: usize) -> usize
    ensures { result ≡ capped_in moves }
{
    if moves >= LEAST_MOVES {
        LEAST_MOVES
    } else {
        moves
    }
}

/// How often a ring moves on, where no arc counts for more than three moves.
fn sum_of(moves: &[usize], refs: &[ArcRef]) -> u128
    requires in_range { AreInRange (length moves.now) refs.now }
    ensures { result ≡ ring_moves (map capped_in moves.now) refs.now }
{
    let mut sum = 0;
    'refs: for arc in refs {
        sum += capped(moves[arc.index()]) as u128;
    }
    sum
}

/// How often each ring moves on, where no arc counts for more than three moves.
#[tactic(auto, using(owned_values::proofs::Lists::mapped_more, owned_values::proofs::Lists::mapped_all))]
pub fn sums_of(alloc: Global, moves: &[usize], rings: &[Items<ArcRef>]) -> Result<Vec<u128>, Memory>
    requires { AllByRecursion (AreInRange (length moves.now)) rings.now }
    ensures { IfOk result (λ sums. sums.items ≡ map (ring_moves (map capped_in moves.now)) rings.now) }
{
    let mut sums = Vec::with_capacity(alloc, rings.len())?;
    'rings: for ring in rings {
        sums.push(sum_of(moves, ring.as_slice()))?;
    }
    Ok(sums)
}

/// How often a ring moves on, where so many moves are left to one of these rings.
pub fn left_to(sums: &[u128], ring: usize, other: usize, left: u128) -> u128
    requires { ring < length sums.now }
    ensures { result ≡ (if ring == other then left else slice_index sums.now ring) }
{
    if ring == other { left } else { sums[ring] }
}

/// Each of these rings loses so many moves as often as its number stands in the list.
pub fn lose(sums: &mut Vec<u128>, users: &[usize], lost: u128)
    requires { (j : ℕ) → Contains users.now j → j < length sums.old.items }
    ensures many { length sums.new.items ≡ length sums.old.items }
    ensures each { (j : ℕ) → slice_index_or sums.new.items j 0 ≡ slice_index_or sums.old.items j 0 - times j users.now * lost }
{
    'users: for user in users {
        sums[*user] = sums[*user].saturating_sub(lost);
    }
}

/// Each of these rings loses, as often as its number stands in the list, what an arc counts for less that moved on so often before and now moves on
/// so often.
pub fn lose_moves(sums: &mut Vec<u128>, users: &[usize], before: usize, left: usize)
    requires users { (j : ℕ) → Contains users.now j → j < length sums.old.items }
    requires left { left ≤ before }
    ensures many { length sums.new.items ≡ length sums.old.items }
    ensures each { (j : ℕ) → slice_index_or sums.new.items j 0 ≡ slice_index_or sums.old.items j 0 - times j users.now * (capped_in before - capped_in left) }
{
    let lost = capped(before).saturating_sub(capped(left));
    if lost > 0 {
        lose(sums, users, lost as u128);
    }
}

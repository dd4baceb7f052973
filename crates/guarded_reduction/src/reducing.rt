// The reduction.
ghost use Rattle.std.specs.Prelude.{◌≡◌, ◌+◌, ◌≤◌, IfOk, OnOk, true, length, map};
ghost use Rattle.std.specs.List.{AllByRecursion};
ghost use Rattle.geometry.specs.Joins.{AreInRange, Meet, arc_at};
ghost use Rattle.geometry.specs.Lists.{joined};
ghost use Rattle.guarded_meaning.specs.Elimination.{reduce_arcs, remaining_arcs};
ghost use Rattle.guarded_meaning.specs.Guards.{guarded_by, is_long};
ghost use Rattle.guarded_reduction.specs.First.{first_linked};
ghost use Rattle.guarded_reduction.specs.Numbers.{all_kept_indexes, kept_indexes, left_arcs};

use crate::index::searching::is_left;
use crate::places::linked_places::LinkedPlaces;
use crate::queue::corner_queue::CornerQueue;
use crate::queue::pushing::take_out;
use crate::queue::rounds::{begin_round, next_in_rounds, next_threshold};
use crate::queue::waiting_lists::WaitingLists;
use crate::rings::kept_rings::KeptRings;
use geometry::{ArcRef, Position};
use owned_values::{Items, Memory};
use std::alloc::Global;

/// The places go that are reduced at a threshold.
fn reduce_places(
    alloc: Global,
    arcs: &[Items<Position>],
    rings: &[Items<ArcRef>],
    threshold: u128,
    places: &mut LinkedPlaces,
) -> Result<(), Memory>
    requires in_range { AllByRecursion (AreInRange (length arcs.now)) rings.now }
    requires meet { AllByRecursion (λ refs. Meet (map (arc_at arcs.now) refs)) rings.now }
    requires long { AllByRecursion (λ refs. is_long arcs.now refs ≡ true) rings.now }
    requires first { places.old ≡ first_linked places.old.no_crossings arcs.now }
    ensures positions { OnOk result (length places.new.positions ≡ length (joined arcs.now)) }
    ensures left { OnOk result (left_arcs arcs.now places.new.left ≡ remaining_arcs (guarded_by places.old.no_crossings rings.now) threshold arcs.now) }
{
    let mut kept = KeptRings::of(alloc, arcs, rings)?;
    let n = places.len();
    let mut waiting = WaitingLists::none(alloc, n)?;
    let mut queue = CornerQueue::new(alloc);
    let mut round = next_threshold(places, 0, threshold);
    begin_round(alloc, &mut queue, &waiting, places, 0, round)?;
    'corners: for _step in 0..n {
        let next = next_in_rounds(
            alloc,
            &mut queue,
            &mut waiting,
            places,
            &mut kept,
            &mut round,
            threshold,
        )?;
        places.law();
        let Some(entry) = next else {
            return Ok(());
        };
        take_out(&mut queue, places, &waiting, round, entry)?;
    }
    Ok(())
}

/// Of n places from a first one on the indexes of those that stay.
#[tactic(auto, using(crate::proofs::Flattened::kept_more))]
fn kept_from(alloc: Global, stays: &[bool], first: usize, n: usize) -> Result<Vec<usize>, Memory>
    requires { first + n ≤ length stays.now }
    ensures { IfOk result (λ kept. kept.items ≡ kept_indexes stays.now first n) }
{
    let mut kept = Vec::new(alloc);
    for i in 0..n {
        if is_left(stays, first + i) {
            kept.push(i)?;
        }
    }
    Ok(kept)
}

/// Of each arc the indexes of the places that stay.
#[tactic(auto, using(crate::proofs::Flattened::ahead, crate::proofs::Flattened::all_kept_all, crate::proofs::Flattened::all_kept_more))]
pub fn all_kept(
    alloc: Global,
    stays: &[bool],
    arcs: &[Items<Position>],
) -> Result<Vec<Vec<usize>>, Memory>
    requires { length stays.now ≡ length (joined arcs.now) }
    ensures { IfOk result (λ all. map (λ kept. kept.items) all.items ≡ all_kept_indexes stays.now 0 arcs.now) }
{
    let mut all = Vec::with_capacity(alloc, arcs.len())?;
    let mut first = 0;
    'arcs: for arc in arcs {
        let n = arc.len();
        all.push(kept_from(alloc, stays, first, n)?)?;
        first += n;
    }
    Ok(all)
}

/// Of each arc the numbers of the positions that stay, where all arcs are reduced at once, no corner goes that would make a crossing, where crossings
/// are to be avoided, and none that would leave one of these rings fewer than four positions, with equal neighbours as one. The rings are given
/// by their arc indexes; they have four positions or more before. Corners go while they are under the threshold: twice the area of the triangle.
pub fn reduce_guarded(
    alloc: Global,
    arcs: &[Items<Position>],
    no_crossings: bool,
    rings: &[Items<ArcRef>],
    threshold: u128,
) -> Result<Vec<Vec<usize>>, Memory>
    requires in_range { AllByRecursion (AreInRange (length arcs.now)) rings.now }
    requires meet { AllByRecursion (λ refs. Meet (map (arc_at arcs.now) refs)) rings.now }
    requires long { AllByRecursion (λ refs. is_long arcs.now refs ≡ true) rings.now }
    ensures { IfOk result (λ kept. map (λ k. k.items) kept.items ≡ reduce_arcs (guarded_by no_crossings rings.now) threshold arcs.now) }
{
    let mut places = LinkedPlaces::of(alloc, arcs, no_crossings)?;
    reduce_places(alloc, arcs, rings, threshold, &mut places)?;
    places.law();
    all_kept(alloc, places.left(), arcs)
}

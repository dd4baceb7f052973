// The reduction to a share of the positions.
ghost use Rattle.std.specs.Prelude.{◌≡◌, ◌*◌, ◌+◌, ◌^◌, ◌≤◌, ◌<◌, IfOk, OnOk, false, true, length, map, max, slice_set};
ghost use Rattle.std.specs.List.{AllByRecursion};
ghost use Rattle.elimination_meaning.specs.Elimination.{numbered};
ghost use Rattle.geometry.specs.Joins.{AreInRange, Meet, arc_at};
ghost use Rattle.geometry.specs.Lists.{joined};
ghost use Rattle.guarded_meaning.specs.Elimination.{reduce_arcs, remaining_arcs};
ghost use Rattle.guarded_meaning.specs.Guards.{guarded_by, is_long};
ghost use Rattle.guarded_meaning.specs.Shares.{chosen};
ghost use Rattle.guarded_meaning.specs.Weights.{interior_count};
ghost use Rattle.guarded_reduction.specs.First.{first_linked};
ghost use Rattle.guarded_reduction.specs.Numbers.{left_arcs};
ghost use Rattle.guarded_reduction.specs.Sharing.{level_after, without_all};

use crate::places::linked_places::LinkedPlaces;
use crate::queue::corner_queue::CornerQueue;
use crate::queue::pushing::take_out;
use crate::queue::rounds::{begin_round, next_in_rounds, next_threshold};
use crate::queue::waiting_lists::WaitingLists;
use crate::reducing::all_kept;
use crate::rings::kept_rings::KeptRings;
use effective_area::most_weighed;
use geometry::{AREA_LIMIT, ArcRef, Position};
use owned_values::{Items, Memory};
use std::alloc::Global;

/// The greatest area of the corners that went; the places that stay where it is the threshold, which those that went at it do, too; and these.
#[derive(Drop)]
struct Level {
    area: u128,
    stays: Vec<bool>,
    gone: Vec<usize>,
}

/// These places don't stay.
#[tactic(auto, using(crate::proofs::Shares::without_here))]
fn lose_all(stays: &mut [bool], gone: &[usize])
    ensures { stays.new ≡ without_all gone.now stays.old }
{
    'gone: for place in gone {
        if *place < stays.len() {
            stays[*place] = false;
        }
    }
}

impl Level {
    /// Where the area is greater than the others, what went before doesn't stay.
    fn rise(&mut self, area: u128)
        ensures area { self.new.area ≡ max self.old.area area }
        ensures left { without_all self.new.gone.items self.new.stays.items ≡ without_all self.old.gone.items self.old.stays.items }
        ensures same { area ≤ self.old.area → self.new.stays.items ≡ self.old.stays.items }
        ensures risen { self.old.area < area → self.new.stays.items ≡ without_all self.old.gone.items self.old.stays.items }
    {
        if area <= self.area {
            return;
        }
        lose_all(&mut self.stays, &self.gone);
        self.gone.clear();
        self.area = area;
    }

    /// One more corner goes.
    #[tactic(auto, using(crate::proofs::Shares::without_one_more))]
    fn add(&mut self, place: usize, area: u128) -> Result<(), Memory>
        ensures area { OnOk result (self.new.area ≡ max self.old.area area) }
        ensures left { OnOk result (without_all self.new.gone.items self.new.stays.items ≡ slice_set (without_all self.old.gone.items self.old.stays.items) place false) }
        ensures same { OnOk result (area ≤ self.old.area → self.new.stays.items ≡ self.old.stays.items) }
        ensures risen { OnOk result (self.old.area < area → self.new.stays.items ≡ without_all self.old.gone.items self.old.stays.items) }
    {
        self.rise(area);
        self.gone.push(place)?;
        Ok(())
    }
}

/// So many corners go, whatever their areas, or all that may.
fn level_reached(
    alloc: Global,
    arcs: &[Items<Position>],
    rings: &[Items<ArcRef>],
    most: usize,
    places: &mut LinkedPlaces,
) -> Result<Level, Memory>
    requires in_range { AllByRecursion (AreInRange (length arcs.now)) rings.now }
    requires meet { AllByRecursion (λ refs. Meet (map (arc_at arcs.now) refs)) rings.now }
    requires long { AllByRecursion (λ refs. is_long arcs.now refs ≡ true) rings.now }
    requires first { places.old ≡ first_linked places.old.no_crossings arcs.now }
    requires most { most ≤ length places.old.positions }
    ensures many { IfOk result (λ level. length level.stays.items ≡ length (joined arcs.now)) }
    ensures area { IfOk result (λ level. level.area ≡ level_after (guarded_by places.old.no_crossings rings.now) most 0 (map (numbered 0) arcs.now)) }
    ensures stays { IfOk result (λ level. left_arcs arcs.now level.stays.items ≡ remaining_arcs (guarded_by places.old.no_crossings rings.now) level.area arcs.now) }
{
    let mut kept = KeptRings::of(alloc, arcs, rings)?;
    let n = places.len();
    let mut waiting = WaitingLists::none(alloc, n)?;
    let mut queue = CornerQueue::new(alloc);
    let mut round = next_threshold(places, 0, AREA_LIMIT);
    begin_round(alloc, &mut queue, &waiting, places, 0, round)?;
    let stays = vec![in alloc; true; n]?;
    let gone = Vec::new(alloc);
    let mut level = Level {
        area: 0,
        stays,
        gone,
    };
    'corners: for _step in 0..most {
        let next = next_in_rounds(
            alloc,
            &mut queue,
            &mut waiting,
            places,
            &mut kept,
            &mut round,
            AREA_LIMIT,
        )?;
        places.law();
        let Some(entry) = next else {
            return Ok(level);
        };
        level.add(entry.place as usize, entry.area)?;
        take_out(&mut queue, places, &waiting, round, entry)?;
    }
    places.law();
    Ok(level)
}

/// How many positions are between the ends of arcs.
#[tactic(auto, using(crate::proofs::Shares::count_ahead, crate::proofs::Shares::count_within))]
fn count_inner(arcs: &[Items<Position>]) -> usize
    requires { length (joined arcs.now) < 2 ^ 64 }
    ensures { result ≡ interior_count arcs.now }
{
    let mut count = 0;
    'arcs: for arc in arcs {
        count += arc.len().saturating_sub(2);
    }
    count
}

/// Of each arc the numbers of the positions that stay, as `reduce_guarded` gives them, at the threshold at which p of q of those between the ends stay,
/// and that threshold: the greatest of zero and the weights at which so many stay. The weight of a position is twice the greatest area of the corners
/// that go without a threshold, up to and including its own; one that never goes has none. Only so many corners go as have to be weighed.
pub fn reduce_to_share(
    alloc: Global,
    arcs: &[Items<Position>],
    no_crossings: bool,
    rings: &[Items<ArcRef>],
    p: u64,
    q: u64,
) -> Result<(Vec<Vec<usize>>, u128), Memory>
    requires whole { 0 < q }
    requires part { p ≤ q }
    requires in_range { AllByRecursion (AreInRange (length arcs.now)) rings.now }
    requires meet { AllByRecursion (λ refs. Meet (map (arc_at arcs.now) refs)) rings.now }
    requires long { AllByRecursion (λ refs. is_long arcs.now refs ≡ true) rings.now }
    ensures kept { IfOk result (λ r. map (λ k. k.items) r.0.items ≡ reduce_arcs (guarded_by no_crossings rings.now) r.1 arcs.now) }
    ensures chosen { IfOk result (λ r. r.1 ≡ chosen p q (guarded_by no_crossings rings.now) arcs.now) }
{
    let mut places = LinkedPlaces::of(alloc, arcs, no_crossings)?;
    places.law();
    let most = most_weighed(count_inner(arcs), p, q);
    let level = level_reached(alloc, arcs, rings, most, &mut places)?;
    let kept = all_kept(alloc, &level.stays, arcs)?;
    Ok((kept, level.area))
}

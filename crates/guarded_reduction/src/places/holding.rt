// What keeps the corner at a place from going.
ghost use Rattle.std.specs.Prelude.{◌≡◌, ◌<◌, IfOk, OnOk, length, true};
ghost use Rattle.std.specs.Option.{IfNone, IfSome};
ghost use Rattle.guarded_reduction.specs.Blocking.{is_blocked_by, turned_corner};
ghost use Rattle.guarded_reduction.specs.Indexes.{Meets, NoneMeets};
ghost use Rattle.guarded_reduction.specs.Linking.{IsChained};
ghost use Rattle.guarded_reduction.specs.States.{blocks};

use crate::index::corner::Corner;
use crate::places::linked_places::LinkedPlaces;
use owned_values::Memory;
use std::alloc::Global;

/// The corner as it is seen from its other side.
fn turned(corner: &Corner) -> Corner
    ensures { result ≡ turned_corner corner.now }
{
    Corner {
        before: corner.after,
        at: corner.at,
        after: corner.before,
        place: corner.place,
    }
}

/// The place blocks the corner, or the one before it does, or the one after it, where it blocks the corner from the other side.
#[tactic(auto, using(crate::proofs::OtherSide::last_of_three))]
fn from_other_side(places: &LinkedPlaces, corner: &Corner, holder: usize) -> usize
    requires chained { IsChained places.now }
    requires holder { Meets places.now.positions places.now.left (is_blocked_by places.now.positions places.now.befores places.now.afters (turned_corner corner.now)) holder }
    ensures { Meets places.now.positions places.now.left (is_blocked_by places.now.positions places.now.befores places.now.afters corner.now) result }
{
    places.law();
    if places.is_holder(corner, holder) {
        return holder;
    }
    let before = places.before(holder);
    if places.is_holder(corner, before) {
        return before;
    }
    places.after(holder)
}

/// A place that is left and blocks the corner at a place, where crossings are to be avoided. The one that was found last is tried first, since one
/// place often blocks many corners. A segment between the corner's ends is looked for from the end where fewer places lie.
#[tactic(auto, using(crate::proofs::OtherSide::none_from_other))]
pub fn holder_of(
    alloc: Global,
    places: &mut LinkedPlaces,
    place: usize,
    last: usize,
) -> Result<Option<usize>, Memory>
    requires place { place < length places.old.positions }
    requires chained { IsChained places.old }
    ensures same { OnOk result (places.new ≡ places.old) }
    ensures asked { IfOk result (λ found. IfSome found (λ _. places.old.no_crossings ≡ true)) }
    ensures some { IfOk result (λ found. IfSome found (λ z. Meets places.old.positions places.old.left (blocks places.old place) z)) }
    ensures none { IfOk result (λ found. IfNone found (places.old.no_crossings ≡ true → NoneMeets places.old.positions places.old.left (blocks places.old place))) }
{
    if !places.avoids_crossings() {
        return Ok(None);
    }
    places.law();
    let corner = places.corner(place);
    if places.is_holder(&corner, last) {
        return Ok(Some(last));
    }
    if !places.is_more_crowded(places.before(place), places.after(place)) {
        let holder = places.holder(alloc, corner)?;
        return Ok(holder);
    }
    match places.holder(alloc, turned(&corner))? {
        Some(holder) => Ok(Some(from_other_side(places, &corner, holder))),
        None => Ok(None),
    }
}

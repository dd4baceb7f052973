// All arcs reduced at once, without a crossing. That the answer is the definition's is proved: these show that memory isn't always refused, and the
// answers of small maps that were worked out by hand.
ghost use Rattle.std.specs.Prelude.{◌<◌, ◌≤◌};

use geometry::Position;
use guarded_reduction::{reduce_guarded, reduce_to_share};
use owned_values::{Items, Memory};
use std::alloc::Global;

/// What stays of two arcs.
fn kept(
    alloc: Global,
    first: &[Position],
    second: &[Position],
    no_crossings: bool,
    threshold: u128,
) -> Result<Vec<Vec<usize>>, Memory> {
    let arcs = [
        Items::of(first.to_vec(alloc)?),
        Items::of(second.to_vec(alloc)?),
    ];
    reduce_guarded(alloc, &arcs, no_crossings, &[], threshold)
}

/// Of two arcs these indexes stay.
fn are(kept: &[Vec<usize>], first: &[usize], second: &[usize]) -> bool {
    match kept {
        [one, other] => one.as_slice() == first && other.as_slice() == second,
        _ => false,
    }
}

/// Whether these indexes stay of two arcs, without a crossing.
fn stay(
    alloc: Global,
    first: &[Position],
    second: &[Position],
    threshold: u128,
    one: &[usize],
    other: &[usize],
) -> bool {
    match kept(alloc, first, second, true, threshold) {
        Ok(kept) => are(&kept, one, other),
        Err(_) => false,
    }
}

// An end of a line under a roof holds it, and one on its base does.
fn what_lies_under_a_roof_holds_it(alloc: Global) -> bool {
    let roof = [Position::at(0, 0), Position::at(2, 2), Position::at(4, 0)];
    let post = [Position::at(2, 1), Position::at(2, -5)];
    let wall = [Position::at(2, 0), Position::at(2, -5)];
    let far = [Position::at(9, 0), Position::at(9, -5)];
    stay(alloc, &roof, &post, 10, &[0, 1, 2], &[0, 1])
        && stay(alloc, &roof, &wall, u128::MAX, &[0, 1, 2], &[0, 1])
        && stay(alloc, &roof, &far, 10, &[0, 2], &[0, 1])
        && stay(alloc, &roof, &far, 8, &[0, 1, 2], &[0, 1])
}

// A roof under a roof holds it until it goes itself, and is looked at again then.
fn what_was_held_goes_later(alloc: Global) -> bool {
    let upper = [Position::at(0, 0), Position::at(2, 2), Position::at(4, 0)];
    let lower = [Position::at(0, -4), Position::at(2, 1), Position::at(4, -4)];
    let bent = [
        Position::at(0, 4),
        Position::at(0, 3),
        Position::at(4, 0),
        Position::at(0, 1),
    ];
    let inner = [Position::at(2, 3), Position::at(2, 2)];
    stay(alloc, &upper, &lower, 20, &[0, 1, 2], &[0, 1, 2])
        && stay(alloc, &upper, &lower, 30, &[0, 2], &[0, 2])
        && stay(alloc, &bent, &inner, 8, &[0, 1, 2, 3], &[0, 1])
        && stay(alloc, &bent, &inner, 9, &[0, 3], &[0, 1])
}

// Two lines between the same ends don't become one, and a segment doesn't come to reach over an end of another.
fn no_two_segments_come_to_lie_on_each_other(alloc: Global) -> bool {
    let there = [Position::at(0, 0), Position::at(2, 1), Position::at(4, 0)];
    let back = [Position::at(4, 0), Position::at(2, -2), Position::at(0, 0)];
    let hook = [
        Position::at(0, 0),
        Position::at(5, 0),
        Position::at(2, 0),
        Position::at(2, 4),
    ];
    let post = [Position::at(4, 0), Position::at(4, -3)];
    stay(alloc, &there, &back, 10, &[0, 2], &[0, 1, 2])
        && stay(alloc, &hook, &post, 10, &[0, 1, 2, 3], &[0, 1])
}

/// What stays of two arcs without a crossing, where p of q positions between the ends are to stay, and at which threshold.
fn kept_of_share(
    alloc: Global,
    first: &[Position],
    second: &[Position],
    p: u64,
    q: u64,
) -> Result<(Vec<Vec<usize>>, u128), Memory>
    requires whole { 0 < q }
    requires part { p ≤ q }
{
    let arcs = [
        Items::of(first.to_vec(alloc)?),
        Items::of(second.to_vec(alloc)?),
    ];
    reduce_to_share(alloc, &arcs, true, &[], p, q)
}

/// Whether the threshold of a share of two arcs is this one, and these indexes stay of the first, and all of the second.
fn share_is(
    alloc: Global,
    first: &[Position],
    second: &[Position],
    p: u64,
    q: u64,
    threshold: u128,
    one: &[usize],
) -> bool
    requires whole { 0 < q }
    requires part { p ≤ q }
{
    let Ok((kept, chosen)) = kept_of_share(alloc, first, second, p, q) else {
        return false;
    };
    let [stay, others] = kept.as_slice() else {
        return false;
    };
    chosen == threshold && stay.as_slice() == one && others.len() == second.len()
}

// What goes later weighs as much as what went before it, and what never goes has no weight.
fn what_is_held_weighs_as_much_as_what_held_it(alloc: Global) -> bool {
    let bent = [
        Position::at(0, 4),
        Position::at(0, 3),
        Position::at(4, 0),
        Position::at(0, 1),
    ];
    let inner = [Position::at(2, 3), Position::at(2, 2)];
    let upper = [Position::at(0, 0), Position::at(2, 2), Position::at(4, 0)];
    let lower = [Position::at(0, -4), Position::at(2, 1), Position::at(4, -4)];
    let post = [Position::at(2, 1), Position::at(2, -5)];
    share_is(alloc, &bent, &inner, 1, 1, 8, &[0, 1, 2, 3])
        && share_is(alloc, &bent, &inner, 0, 1, 8, &[0, 1, 2, 3])
        && share_is(alloc, &upper, &lower, 1, 1, 20, &[0, 1, 2])
        && share_is(alloc, &upper, &lower, 0, 1, 20, &[0, 1, 2])
        && share_is(alloc, &upper, &post, 0, 1, 0, &[0, 1, 2])
}

// Of three bends with 2, 6 and 12 the first that goes is enough for all of them, two for two thirds, and all for none.
fn as_many_go_as_have_to_be_weighed(alloc: Global) -> bool {
    let bends = [
        Position::at(10, 0),
        Position::at(11, 1),
        Position::at(12, 0),
        Position::at(13, 3),
        Position::at(14, 0),
    ];
    let far = [Position::at(9, 0), Position::at(9, -5)];
    share_is(alloc, &bends, &far, 1, 1, 2, &[0, 1, 2, 3, 4])
        && share_is(alloc, &bends, &far, 2, 3, 6, &[0, 2, 3, 4])
        && share_is(alloc, &bends, &far, 1, 3, 12, &[0, 3, 4])
        && share_is(alloc, &bends, &far, 0, 1, 12, &[0, 3, 4])
}

// Where neither is asked for, each arc is reduced by itself.
fn nothing_is_held_where_nothing_is_asked_for(alloc: Global) -> bool {
    let roof = [Position::at(0, 0), Position::at(2, 2), Position::at(4, 0)];
    let post = [Position::at(2, 1), Position::at(2, -5)];
    match kept(alloc, &roof, &post, false, 10) {
        Ok(kept) => are(&kept, &[0, 2], &[0, 1]),
        Err(_) => false,
    }
}

#[test]
fn corners_are_held(rt: HostRuntime) {
    assert!(rt; what_lies_under_a_roof_holds_it(rt.alloc()));
    assert!(rt; what_was_held_goes_later(rt.alloc()));
    assert!(rt; no_two_segments_come_to_lie_on_each_other(rt.alloc()));
    assert!(rt; what_is_held_weighs_as_much_as_what_held_it(rt.alloc()));
    assert!(rt; as_many_go_as_have_to_be_weighed(rt.alloc()));
    assert!(rt; nothing_is_held_where_nothing_is_asked_for(rt.alloc()));
}

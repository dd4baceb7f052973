// The order of what lies in the plane, in which near things are close together.
ghost use Rattle.std.specs.Prelude.{◌<◌, ◌≤◌, OnOk, length};
ghost use Rattle.std.specs.List.Sorted.{IsPermutation};

use owned_values::Memory;
use std::alloc::Global;

/// What lies in the plane. Nothing rests on where but speed.
pub trait Located {
    /// Its coordinates.
    fn spot(&self) -> (i64, i64);
}

/// So many are not halved any more.
const FEW: usize = 8;

/// How many of so many are in the first half: as many as are under the first child of a tree's node whose lowest leaves come first.
fn first_half(n: usize) -> usize
    requires { 8 < n }
    ensures some { 0 < result }
    ensures fewer { result < n }
{
    let power = 1usize << (n - 1).ilog2();
    power / 2 + (n - power).min(power / 2)
}

/// One of the two coordinates.
fn coordinate<T: Located>(item: &T, is_across: bool) -> i64 {
    let (x, y) = item.spot();
    if is_across { x } else { y }
}

/// They are spread at least as wide over the first coordinate as over the second.
fn is_wide<T: Located>(items: &[T]) -> bool {
    let mut low = (i64::MAX, i64::MAX);
    let mut high = (i64::MIN, i64::MIN);
    for item in items {
        let (x, y) = item.spot();
        low = (low.0.min(x), low.1.min(y));
        high = (high.0.max(x), high.1.max(y));
    }
    high.0.abs_diff(low.0) >= high.1.abs_diff(low.1)
}

/// The coordinate of the item that so many would stand before, were they sorted by it. There is room for the coordinates of all.
fn nth_coordinate<T: Located>(items: &[T], is_across: bool, n: usize, room: &mut [i64]) -> i64
    requires n { n < length items.now }
    requires room { length items.now ≤ length room.old }
{
    for (at, item) in items.iter().enumerate() {
        room[at] = coordinate(item, is_across);
    }
    let (all, _) = room.split_at_mut(items.len());
    let (_, nth, _) = all.select_nth_unstable(n);
    *nth
}

/// Those come first whose coordinate is under a limit. The answer is how many they are.
fn put_first<T: Located>(items: &mut [T], is_across: bool, limit: i64) -> usize
    ensures permutation { IsPermutation items.old items.new }
    ensures within { result ≤ length items.old }
{
    let mut first = 0;
    'items: for at in 0..items.len() {
        let is_under = coordinate(&items[at], is_across) < limit;
        items.swap(at, first);
        first += is_under as usize;
    }
    first
}

/// The same of the items after so many.
fn put_next<T: Located>(items: &mut [T], is_across: bool, limit: i64, after: usize)
    requires { after ≤ length items.old }
    ensures { IsPermutation items.old items.new }
{
    let (_, rest) = items.split_at_mut(after);
    let _ = put_first(rest, is_across, limit);
}

/// So many come first, none of which lies beyond one of the others by the coordinate over which all are spread the wider.
fn divide<T: Located>(items: &mut [T], first: usize, room: &mut [i64])
    requires first { first < length items.old }
    requires room { length items.old ≤ length room.old }
    ensures { IsPermutation items.old items.new }
{
    let is_across = is_wide(items);
    let middle = nth_coordinate(items, is_across, first, room);
    let under = put_first(items, is_across, middle);
    if under < first {
        put_next(items, is_across, middle.saturating_add(1), under);
    }
}

/// The items are halved, and so are the halves, until few are left.
fn halve<T: Located>(items: &mut [T], room: &mut [i64])
    requires { length items.old ≤ length room.old }
    ensures { IsPermutation items.old items.new }
{
    let n = items.len();
    if n <= FEW {
        return;
    }
    let first = first_half(n);
    divide(items, first, room);
    let (front, back) = items.split_at_mut(first);
    halve(front, room);
    halve(back, room);
}

/// Puts the items in an order in which near ones are close together: they are halved by the coordinate over which they are spread the wider, and so
/// are the halves, each by its own, until few are left.
pub fn arrange<T: Located>(alloc: Global, items: &mut [T]) -> Result<(), Memory>
    ensures { OnOk result (IsPermutation items.old items.new) }
{
    let mut room = vec![in alloc; 0i64; items.len()]?;
    halve(items, &mut room);
    Ok(())
}

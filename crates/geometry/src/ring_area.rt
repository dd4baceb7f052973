// The area of a ring.
ghost use Rattle.std.specs.Prelude.{◌≡◌, ◌+◌, ◌*◌, ◌<◌, ◌≤◌, ◌^◌, ◌+ℤ◌, ◌*ℤ◌, None, nat_lt, pos, unsigned_abs};
ghost use Rattle.geometry.specs.Areas as spec;
ghost use Rattle.geometry.specs.Areas.{sum_limit};
ghost use Rattle.geometry.specs.Units.{area_limit, position_limit, threshold_limit};

use crate::position::Position;
use crate::units::AREA_LIMIT;
use std::marker::Model;

/// What the sum is carried by.
const CARRY: i128 = AREA_LIMIT as i128;

/// A product of coordinates.
fn product(a: i64, b: i64) -> i128
    requires a { unsigned_abs a ≤ position_limit }
    requires b { unsigned_abs b ≤ position_limit }
    ensures value { result ≡ a *ℤ b }
    ensures bound { unsigned_abs result ≤ position_limit * position_limit }
{
    a as i128 * b as i128
}

/// What a position and the next add to the sum.
fn turn(p: Position, q: Position) -> i128
    ensures value { result ≡ spec.turn p q }
    ensures bound { unsigned_abs result ≤ spec.most_turned }
{
    let left = product(p.x(), q.y());
    let right = product(q.x(), p.y());
    left - right
}

/// The sum of so many times what it is carried by and a rest, with a rest of less than once that.
fn carried(whole: i128, rest: i128) -> (i128, i128)
    requires whole { unsigned_abs whole < 2 ^ 126 }
    requires rest { unsigned_abs rest < 2 * area_limit }
    ensures value { result.0 *ℤ pos area_limit +ℤ result.1 ≡ whole *ℤ pos area_limit +ℤ rest }
    ensures whole { unsigned_abs result.0 ≤ unsigned_abs whole + 1 }
    ensures rest { unsigned_abs result.1 < area_limit }
{
    if rest >= CARRY {
        (whole + 1, rest - CARRY)
    } else if rest <= -CARRY {
        (whole - 1, rest + CARRY)
    } else {
        (whole, rest)
    }
}

/// The sum of so many times what it is carried by and a rest, with what a position adds after the last one.
fn with_turn(last: Option<Position>, position: Position, whole: i128, rest: i128) -> (i128, i128)
    requires sum { unsigned_abs (whole *ℤ pos area_limit +ℤ rest) ≤ sum_limit }
    requires rest { unsigned_abs rest < area_limit }
    ensures value { result.0 *ℤ pos area_limit +ℤ result.1 ≡ (whole *ℤ pos area_limit +ℤ rest) +ℤ spec.turn_after last position }
    ensures bound { unsigned_abs (result.0 *ℤ pos area_limit +ℤ result.1)
        ≤ unsigned_abs (whole *ℤ pos area_limit +ℤ rest) + spec.most_turned }
    ensures rest { unsigned_abs result.1 < area_limit }
{
    match last {
        None => (whole, rest),
        Some(last) => carried(whole, rest + turn(last, position)),
    }
}

/// Two sums in one, each of so many times what it is carried by and a rest.
fn with_sum(whole: i128, rest: i128, more_whole: i128, more_rest: i128) -> (i128, i128)
    requires sums { unsigned_abs (whole *ℤ pos area_limit +ℤ rest) + unsigned_abs (more_whole *ℤ pos area_limit +ℤ more_rest) ≤ sum_limit }
    requires rest { unsigned_abs rest < area_limit }
    requires more_rest { unsigned_abs more_rest < area_limit }
    ensures value { result.0 *ℤ pos area_limit +ℤ result.1 ≡ (whole *ℤ pos area_limit +ℤ rest) +ℤ (more_whole *ℤ pos area_limit +ℤ more_rest) }
    ensures rest { unsigned_abs result.1 < area_limit }
{
    carried(whole + more_whole, rest + more_rest)
}

/// The opposite of a sum of so many times what it is carried by and a rest, where the line that it is of is reversed.
fn along(reversed: bool, whole: i128, rest: i128) -> (i128, i128)
    requires sum { unsigned_abs (whole *ℤ pos area_limit +ℤ rest) ≤ sum_limit }
    requires rest { unsigned_abs rest < area_limit }
    ensures value { result.0 *ℤ pos area_limit +ℤ result.1 ≡ spec.sum_along reversed (whole *ℤ pos area_limit +ℤ rest) }
    ensures rest { unsigned_abs result.1 < area_limit }
{
    if reversed {
        (-whole, -rest)
    } else {
        (whole, rest)
    }
}

/// Whether a sum is closer to zero than the limit.
fn is_closer(whole: i128, rest: i128, limit: u128) -> bool
    requires rest { unsigned_abs rest < area_limit }
    requires limit { limit ≤ threshold_limit }
    ensures { result ≡ nat_lt (unsigned_abs (whole *ℤ pos area_limit +ℤ rest)) limit }
{
    if whole < -2 || 2 < whole {
        return false;
    }
    let sum = whole * CARRY + rest;
    sum.unsigned_abs() < limit
}

/// How far a sum is from zero, as so many times what it is carried by and a rest.
fn distance_from_zero(whole: i128, rest: i128) -> (u128, u128)
    requires rest { unsigned_abs rest < area_limit }
    ensures value { result.0 * area_limit + result.1 ≡ unsigned_abs (whole *ℤ pos area_limit +ℤ rest) }
    ensures rest { result.1 < area_limit }
{
    let is_short = (whole > 0 && rest < 0) || (whole < 0 && rest > 0);
    if is_short {
        (whole.unsigned_abs() - 1, AREA_LIMIT - rest.unsigned_abs())
    } else {
        (whole.unsigned_abs(), rest.unsigned_abs())
    }
}

/// What the positions of a ring that were passed one after the other add up to: once all were, twice its signed area in square units. As
/// that may pass 128 bits, it is carried.
#[derive(Drop)]
pub struct RingSum {
    last: Option<Position>,
    whole: i128,
    rest: i128,
}

impl Model for RingSum {
    ghost use Rattle.std.specs.Prelude.{◌+ℤ◌, ◌*ℤ◌, ◌<◌, pos, unsigned_abs};
    ghost use Rattle.geometry.specs.Areas.{Passed};
    ghost use Rattle.geometry.specs.Units.{area_limit};

    ghost Value = { Passed };

    ghost view = { λ s. record { last = s.last; sum = s.whole *ℤ pos area_limit +ℤ s.rest } };

    ghost invariant = { λ s. unsigned_abs s.rest < area_limit };
}

impl RingSum {
    /// Before any position is passed.
    pub fn new() -> RingSum
        ensures { result ≡ record { last = None; sum = pos 0 } }
    {
        RingSum {
            last: None,
            whole: 0,
            rest: 0,
        }
    }

    /// Passes one.
    pub fn pass(&mut self, position: Position)
        requires { unsigned_abs self.old.sum ≤ sum_limit }
        ensures passed { self.new ≡ spec.passed self.old position }
        ensures bound { unsigned_abs self.new.sum ≤ unsigned_abs self.old.sum + spec.most_turned }
    {
        let (whole, rest) = with_turn(self.last, position, self.whole, self.rest);
        *self = RingSum {
            last: Some(position),
            whole,
            rest,
        };
    }

    /// The last position that was passed, if one was.
    pub fn last(&self) -> Option<Position>
        ensures { result ≡ self.now.last }
    {
        self.last
    }

    /// Passes a line at once that begins where the ring is, or begins the ring. The positions of the line add up to this sum where they are passed by
    /// themselves, or where it is reversed, and it ends at this position.
    pub fn pass_line(&mut self, line: &RingSum, reversed: bool, end: Position)
        requires { unsigned_abs self.old.sum + unsigned_abs line.now.sum ≤ sum_limit }
        ensures { self.new ≡ spec.passed_along reversed self.old line.now.sum end }
    {
        let (more_whole, more_rest) = along(reversed, line.whole, line.rest);
        let (whole, rest) = with_sum(self.whole, self.rest, more_whole, more_rest);
        *self = RingSum {
            last: Some(end),
            whole,
            rest,
        };
    }

    /// Whether the sum is closer to zero than the limit.
    pub fn is_under(&self, limit: u128) -> bool
        requires { limit ≤ threshold_limit }
        ensures { result ≡ nat_lt (unsigned_abs self.now.sum) limit }
    {
        is_closer(self.whole, self.rest, limit)
    }

    /// How far the sum is from zero, as so many times what it is carried by and a rest.
    fn distance(&self) -> (u128, u128)
        ensures value { result.0 * area_limit + result.1 ≡ unsigned_abs self.now.sum }
        ensures rest { result.1 < area_limit }
    {
        distance_from_zero(self.whole, self.rest)
    }

    /// Whether the sum is closer to zero than the other.
    pub fn is_closer_than(&self, other: &RingSum) -> bool
        ensures { result ≡ nat_lt (unsigned_abs self.now.sum) (unsigned_abs other.now.sum) }
    {
        let (whole, rest) = self.distance();
        let (other_whole, other_rest) = other.distance();
        whole < other_whole || (whole == other_whole && rest < other_rest)
    }
}

/// Whether twice the area of a ring, in square units, is under the limit. This takes no memory.
pub fn ring_under(ring: &[Position], limit: u128) -> bool
    requires { limit ≤ threshold_limit }
    ensures { result ≡ nat_lt (spec.twice_ring_area ring.now) limit }
{
    let mut sum = RingSum::new();
    'positions: for position in ring {
        sum.pass(*position);
    }
    sum.is_under(limit)
}

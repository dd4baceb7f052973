// Equally spaced coordinates.
ghost use Rattle.std.specs.Prelude.{◌≡◌, ◌≤◌, ◌+◌, ◌*◌, pos, unsigned_abs, true};
ghost use Rattle.geometry.specs.Units.{input_limit};
ghost use Rattle.grid_snap.specs.Axes.{IsAxis, IsNumbered, axis_over, count_limit, is_on, reach};
ghost use Rattle.grid_snap.specs.Axes as spec;
ghost use Rattle.grid_snap.specs.Bounds.{IsSpan};
ghost use Rattle.grid_snap.specs.Inverses.{IsInverse};

use crate::dividing::{inverse, near_quotient, quotient};

/// The coordinates `first`, `first + step` and so on, in units, the last of which has the number `last`, counted from zero.
#[derive(Clone, Copy, Debug)]
pub struct Axis {
    pub first: i64,
    pub step: u64,
    pub last: u64,
}

/// So many coordinates from the least to the greatest or farther. The step is the least whole number of units that serves.
pub(crate) fn axis_over(count: u32, least: i64, greatest: i64) -> Axis
    requires some { 2 ≤ count }
    requires few { count ≤ count_limit }
    requires span { IsSpan least greatest }
    ensures value { result ≡ axis_over count least greatest }
    ensures axis { IsAxis result }
{
    let length = greatest.abs_diff(least);
    let last = u64::from(count) - 1;
    let step = ((length + (last - 1)) / last).max(1);
    Axis {
        first: least,
        step,
        last,
    }
}

impl Axis {
    /// Whether a coordinate is neither before the first nor past the last.
    #[tactic(auto, unfolding(crate::specs::Axes::is_on))]
    pub(crate) fn has(self, x: i64) -> bool
        requires axis { IsAxis self }
        ensures { result ≡ is_on self x }
    {
        self.first <= x && x.abs_diff(self.first) <= self.last * self.step
    }

    /// How far a coordinate is from the first one, in units.
    #[tactic(auto, using(crate::proofs::Settled::offset_within, crate::proofs::Settled::offset_is))]
    fn offset(self, x: i64) -> u64
        requires axis { IsAxis self }
        requires covered { is_on self x ≡ true }
        ensures offset { result ≡ spec.offset self x }
        ensures within { result ≤ 2 * input_limit + count_limit }
    {
        (x - self.first) as u64
    }

    /// The inverse of twice the step, by which halves between two coordinates are numbered, too.
    pub(crate) fn inverse(self) -> u64
        requires { IsAxis self }
        ensures { IsInverse (2 * self.step) result }
    {
        inverse(2 * self.step)
    }

    /// The number of the nearest of its coordinates, the higher one of two.
    pub(crate) fn number(self, x: i64, inverse: u64) -> i64
        requires axis { IsAxis self }
        requires inverse { IsInverse (2 * self.step) inverse }
        requires covered { is_on self x ≡ true }
        ensures number { result ≡ pos (spec.number self x) }
        ensures within { IsNumbered self result }
    {
        let halves = 2 * self.offset(x) + self.step;
        quotient(halves, 2 * self.step, inverse) as i64
    }

    /// The number of one of its coordinates.
    pub(crate) fn number_at(self, x: i64, inverse: u64) -> i64
        requires axis { IsAxis self }
        requires inverse { IsInverse (2 * self.step) inverse }
        requires covered { is_on self x ≡ true }
        requires there { spec.coordinate self (pos (spec.number self x)) ≡ x }
        ensures number { result ≡ pos (spec.number self x) }
        ensures within { IsNumbered self result }
    {
        near_quotient(2 * self.offset(x), inverse) as i64
    }

    /// The coordinate of a number.
    pub(crate) fn coordinate(self, number: i64) -> i64
        requires axis { IsAxis self }
        requires number { IsNumbered self number }
        ensures coordinate { result ≡ spec.coordinate self number }
        ensures within { unsigned_abs result ≤ reach }
    {
        self.first + (number as u64 * self.step) as i64
    }
}

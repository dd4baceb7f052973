// Boxes.
ghost use Rattle.std.specs.Prelude.{◌≡◌, ℤ, ◌≤ℤ◌, true};
ghost use Rattle.geometry.specs.Points.{Point};
ghost use Rattle.planar_predicates.specs.Extents.{HoldsPoint, LiesIn, is_within};

use geometry::Position;

/// A box, whose sides belong to it.
#[derive(Clone, Copy, Debug, PartialEq, Eq)]
pub struct Extent {
    pub low_x: i64,
    pub low_y: i64,
    pub high_x: i64,
    pub high_y: i64,
}

/// A box that holds nothing.
pub fn empty_extent() -> Extent
    ensures { (p : Point) → HoldsPoint result p → ⊥ }
{
    Extent {
        low_x: i64::MAX,
        low_y: i64::MAX,
        high_x: i64::MIN,
        high_y: i64::MIN,
    }
}

/// The box round one position.
pub fn around(p: Position) -> Extent
    ensures { HoldsPoint result p }
{
    let x = p.x();
    let y = p.y();
    Extent {
        low_x: x,
        low_y: y,
        high_x: x,
        high_y: y,
    }
}

/// The box holds the position.
#[tactic(auto, unfolding(crate::specs::Extents::is_within))]
pub fn holds(e: &Extent, p: Position) -> bool
    ensures { result ≡ is_within e.now p }
{
    e.low_x <= p.x() && (p.x() <= e.high_x && (e.low_y <= p.y() && p.y() <= e.high_y))
}

/// The box holds this position alone, if the answer is yes.
pub fn is_point(e: &Extent, p: Position) -> bool
    ensures { result ≡ true → (q : Point) → HoldsPoint e.now q → q ≡ p }
{
    e.low_x == p.x() && (e.high_x == p.x() && (e.low_y == p.y() && e.high_y == p.y()))
}

/// The box round both.
pub fn joined(e: Extent, f: Extent) -> Extent
    ensures first { LiesIn e result }
    ensures second { LiesIn f result }
{
    Extent {
        low_x: e.low_x.min(f.low_x),
        low_y: e.low_y.min(f.low_y),
        high_x: e.high_x.max(f.high_x),
        high_y: e.high_y.max(f.high_y),
    }
}

/// Two ranges have a number in common, unless the answer is no.
fn meets_along(low: i64, high: i64, other_low: i64, other_high: i64) -> bool
    ensures { (k : ℤ) → low ≤ℤ k → k ≤ℤ high → other_low ≤ℤ k → k ≤ℤ other_high → result ≡ true }
{
    low <= other_high && other_low <= high
}

/// They have a position in common, unless the answer is no.
pub fn meets(e: Extent, f: Extent) -> bool
    ensures { (p : Point) → HoldsPoint e p → HoldsPoint f p → result ≡ true }
{
    meets_along(e.low_x, e.high_x, f.low_x, f.high_x)
        && meets_along(e.low_y, e.high_y, f.low_y, f.high_y)
}

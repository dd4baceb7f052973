ghost use Rattle.std.specs.Prelude.{◌≡◌, ℕ, ◌+◌, ◌-◌, ◌<◌, ◌≤◌, true, false, OnOk, length};
ghost use Rattle.elimination_meaning.specs.Elimination.{is_before};
ghost use Rattle.effective_area.specs.Counts.{AreasRose, RoseBy};
ghost use Rattle.effective_area.specs.Links.{AreCached, Fits, IsFirst, CachesArea, entry_at};
ghost use Rattle.effective_area.specs.Links as spec;
ghost use Rattle.effective_area.specs.Vertices.{candidate_corner};

use crate::candidate::Candidate;
use crate::links::{Link, after_of, area_of, before_of, first_links, set_area};
use crate::steps::{Steps, twice_area};
use geometry::Position;
use owned_values::Memory;

/// The corner at an index, with the cached area.
#[tactic(auto, using(crate::proofs::LinkLaws::cached_at))]
pub fn cached(arc: &[Position], links: &[Link], index: u32) -> Candidate
    requires arc { index < length arc.now }
    requires links { index < length links.now }
    ensures { candidate_corner result ≡ spec.cached arc.now links.now index }
{
    let index = index as usize;
    let point = arc[index];
    Candidate {
        area: area_of(links, index),
        point,
        index,
    }
}

/// Whether the corner at an index goes before another one, by the cached areas.
#[tactic(auto, unfolding(elimination_meaning::specs::Elimination::is_before))]
pub fn goes_before(arc: &[Position], links: &[Link], index: u32, other: u32) -> bool
    requires size { length links.now ≡ length arc.now }
    requires index { index < length links.now }
    requires other { other < length links.now }
    ensures { result ≡ is_before (spec.cached arc.now links.now index) (spec.cached arc.now links.now other) }
{
    cached(arc, links, index) < cached(arc, links, other)
}

/// Whether a corner under the threshold, at the other index, is one that the corner at an index doesn't go before.
pub fn goes_after(arc: &[Position], links: &[Link], t: u128, index: u32, other: u32) -> bool
    requires size { length links.now ≡ length arc.now }
    requires index { index < length links.now }
    requires other { other < length links.now }
    ensures { result ≡ true → is_before (spec.cached arc.now links.now index) (spec.cached arc.now links.now other) ≡ false }
{
    if area_of(links, other as usize) >= t {
        return false;
    }
    !goes_before(arc, links, index, other)
}

/// Twice the area of the corner at an index between these neighbours.
#[tactic(auto, using(crate::proofs::LinkLaws::area_is))]
fn area_between(
    steps: &mut Steps,
    arc: &[Position],
    before: usize,
    index: usize,
    after: usize,
) -> u128
    requires before { before < length arc.now }
    requires index { index < length arc.now }
    requires after { after < length arc.now }
    ensures area { result ≡ (entry_at arc.now before index after).area }
    ensures counted { RoseBy 1 0 steps.old steps.new }
    ensures computed { AreasRose 1 steps.old steps.new }
{
    let point = arc[index];
    twice_area(steps, arc[before], point, arc[after])
}

/// Notes the area at an index with its present neighbours, if it is between the ends.
#[tactic(auto, using(crate::proofs::LinkLaws::notes, crate::proofs::LinkLaws::notes_end))]
pub fn note_area(links: &mut [Link], steps: &mut Steps, arc: &[Position], index: u32)
    requires size { length links.old ≡ length arc.now }
    requires within { index < length links.old }
    requires fits { 0 < index → index + 1 < length links.old → Fits links.old (length arc.now) index }
    ensures cached { CachesArea arc.now links.old links.new index }
    ensures counted { RoseBy 1 0 steps.old steps.new }
    ensures computed { 0 < index → index + 1 < length links.old → AreasRose 1 steps.old steps.new }
{
    if index == 0 {
        return;
    }
    let index = index as usize;
    if links.len() - index <= 1 {
        return;
    }
    let before = before_of(links, index) as usize;
    let after = after_of(links, index) as usize;
    let area = area_between(steps, arc, before, index, after);
    set_area(links, index, area);
}

/// Fills the list with links from each position of a line to the next, with the areas of its corners, and the threshold for those of
/// its ends.
pub fn cached_links(
    links: &mut Vec<Link>,
    steps: &mut Steps,
    arc: &[Position],
    t: u128,
) -> Result<(), Memory>
    requires two { 2 ≤ length arc.now }
    ensures first { OnOk result (IsFirst links.new.items (length arc.now)) }
    ensures cached { OnOk result (AreCached t arc.now links.new.items) }
    ensures counted { RoseBy (length arc.now - 2) 0 steps.old steps.new }
    ensures computed { OnOk result (AreasRose (length arc.now - 2) steps.old steps.new) }
{
    first_links(links, arc.len(), t)?;
    note_all(links, steps, arc);
    Ok(())
}

/// Notes the area of each corner of a whole line.
fn note_all(links: &mut [Link], steps: &mut Steps, arc: &[Position])
    requires two { 2 ≤ length arc.now }
    requires first { IsFirst links.old (length arc.now) }
    ensures first { IsFirst links.new (length arc.now) }
    ensures cached { (t : ℕ) → ((v : ℕ) → v < length arc.now → spec.area_in links.old v ≡ t) → AreCached t arc.now links.new }
    ensures counted { RoseBy (length arc.now - 2) 0 steps.old steps.new }
    ensures computed { AreasRose (length arc.now - 2) steps.old steps.new }
{
    for i in 1..arc.len() - 1 {
        let area = area_between(steps, arc, i - 1, i, i + 1);
        set_area(links, i, area);
    }
}

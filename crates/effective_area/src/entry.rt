ghost use Rattle.std.specs.Prelude.{◌≡◌, ◌<◌, ◌↔◌, IsTrue, length, slice_index_or};
ghost use Rattle.elimination_meaning.specs.Elimination.{corner_cmp, is_before};
ghost use Rattle.effective_area.specs.Links.{IsCurrent, after_in, area_in, before_in, entry_corner};
ghost use Rattle.effective_area.specs.Vertices.{candidate_corner, origin};

use crate::candidate::Candidate;
use crate::halves::Halves;
use crate::links::Link;
use geometry::Position;
use std::cmp::Ordering;

/// A corner that could be removed, with the neighbours that its area was computed with. Its position is that at the index.
#[derive(Clone, Copy, Debug)]
pub struct Entry {
    pub area: Halves,
    pub index: u32,
    pub before: u32,
    pub after: u32,
}

/// The entry of an index with its present neighbours, whose area is cached.
#[tactic(auto, unfolding(crate::specs::Links::after_in, crate::specs::Links::before_in, crate::specs::Links::area_in))]
pub fn entry_of(links: &[Link], index: u32) -> Entry
    requires { index < length links.now }
    ensures { result ≡ record { area = area_in links.now index; index = index; before = before_in links.now index; after = after_in links.now index } }
{
    let link = links[index as usize];
    Entry {
        area: link.area,
        index,
        before: link.before,
        after: link.after,
    }
}

/// Whether the neighbours of the entry's index are still those that its area was computed with.
#[tactic(auto, unfolding(crate::specs::Links::after_in, crate::specs::Links::before_in))]
pub fn is_current(links: &[Link], entry: &Entry) -> bool
    ensures { IsTrue result ↔ IsCurrent links.now entry.now }
{
    let index = entry.index as usize;
    if index >= links.len() {
        return false;
    }
    let link = links[index];
    if link.before != entry.before {
        return false;
    }
    link.after == entry.after
}

/// The position at an index, or that at zero where there is none.
fn point_at(arc: &[Position], index: usize) -> Position
    ensures { result ≡ slice_index_or arc.now index origin }
{
    match arc.get(index) {
        Some(point) => *point,
        None => Position::at(0, 0),
    }
}

/// The candidate that an entry stands for.
fn candidate_of(arc: &[Position], entry: &Entry) -> Candidate
    ensures { candidate_corner result ≡ entry_corner arc.now entry.now }
{
    let index = entry.index as usize;
    Candidate {
        area: entry.area.number(),
        point: point_at(arc, index),
        index,
    }
}

/// How the corners of two entries compare. Their positions are looked at where their areas are equal only.
pub fn compared(arc: &[Position], entry: &Entry, other: &Entry) -> Ordering
    ensures { result ≡ corner_cmp (entry_corner arc.now entry.now) (entry_corner arc.now other.now) }
{
    let areas = entry.area.number().cmp(&other.area.number());
    if areas.is_ne() {
        return areas;
    }
    candidate_of(arc, entry).cmp(&candidate_of(arc, other))
}

/// Whether the corner of an entry goes before that of another one.
#[tactic(auto, unfolding(elimination_meaning::specs::Elimination::is_before))]
pub fn is_ahead(arc: &[Position], entry: &Entry, other: &Entry) -> bool
    ensures { result ≡ is_before (entry_corner arc.now entry.now) (entry_corner arc.now other.now) }
{
    compared(arc, entry, other).is_lt()
}

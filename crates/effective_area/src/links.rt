ghost use Rattle.std.specs.Prelude.{◌≡◌, ℕ, ◌<◌, IfOk, OnOk, List, ◌∷◌, length};
ghost use Rattle.effective_area.specs.Links.{IsFirst, IsLinked, SetsAfter, SetsArea, SetsBefore, Unlinks, after_in, area_in, before_in};

use crate::halves::Halves;
use owned_values::Memory;
use std::alloc::Global;

/// The present neighbours of a position, and twice its effective area between them. One that was removed names itself as the one
/// before it. An end has the threshold for its area, so that each corner under it goes before the end.
#[derive(Clone, Copy, Debug)]
pub struct Link {
    pub before: u32,
    pub after: u32,
    pub area: Halves,
}

/// A number of positions in short, for which there is no memory beyond that.
pub fn short(number: usize) -> Result<u32, Memory>
    ensures { IfOk result (λ n. n ≡ number) }
{
    match u32::try_from(number) {
        Ok(number) => Ok(number),
        Err(_) => Err(Memory),
    }
}

/// The one before an index.
pub fn before_of(links: &[Link], index: usize) -> u32
    requires { index < length links.now }
    ensures { result ≡ before_in links.now index }
{
    links[index].before
}

/// The one after an index.
pub fn after_of(links: &[Link], index: usize) -> u32
    requires { index < length links.now }
    ensures { result ≡ after_in links.now index }
{
    links[index].after
}

/// The area at an index.
pub fn area_of(links: &[Link], index: usize) -> u128
    requires { index < length links.now }
    ensures { result ≡ area_in links.now index }
{
    links[index].area.number()
}

fn set_after(links: &mut [Link], at: u32, to: u32)
    requires { at < length links.old }
    ensures { SetsAfter links.old links.new at to }
{
    links[at as usize].after = to;
}

fn set_before(links: &mut [Link], at: u32, to: u32)
    requires { at < length links.old }
    ensures { SetsBefore links.old links.new at to }
{
    links[at as usize].before = to;
}

/// Notes an area.
pub fn set_area(links: &mut [Link], at: usize, area: u128)
    requires { at < length links.old }
    ensures { SetsArea links.old links.new at area }
{
    links[at].area = Halves::of(area);
}

/// Links the two neighbours of an index to each other.
#[tactic(auto, using(crate::proofs::LinkLaws::unlinks))]
pub fn unlink(links: &mut [Link], before: u32, index: u32, after: u32)
    requires before { before < index }
    requires index { index < after }
    requires after { after < length links.old }
    ensures links { Unlinks links.old links.new before index after }
    ensures areas { (v : ℕ) → area_in links.new v ≡ area_in links.old v }
{
    set_after(links, before, after);
    set_before(links, after, before);
    set_before(links, index, index);
}

/// Fills the list with links from each index to the next, and one area for all.
#[tactic(auto, using(crate::proofs::LinkLaws::first_more, crate::proofs::LinkLaws::areas_more))]
pub fn first_links(links: &mut Vec<Link>, n: usize, area: u128) -> Result<(), Memory>
    ensures first { OnOk result (IsFirst links.new.items n) }
    ensures areas { OnOk result ((v : ℕ) → v < n → area_in links.new.items v ≡ area) }
{
    let count = short(n)?;
    let area = Halves::of(area);
    links.clear();
    links.reserve(n)?;
    for i in 0..count {
        let before = if i == 0 { 0 } else { i - 1 };
        links.push_reserved(Link {
            before,
            after: i + 1,
            area,
        });
    }
    Ok(())
}

/// The indexes that are present, in a list that has room for so many at first.
#[tactic(auto, using(crate::proofs::LinkLaws::walk_below, crate::proofs::LinkLaws::walk_end, crate::proofs::LinkLaws::walk_more, crate::proofs::LinkLaws::walk_start))]
pub fn present(alloc: Global, links: &[Link], room: usize) -> Result<Vec<usize>, Memory>
    requires { (vs : List ℕ) × IsLinked links.now vs }
    ensures { IfOk result (λ kept. (vs : List ℕ) × IsLinked links.now vs × (kept.items ≡ 0 ∷ vs)) }
{
    let mut kept = Vec::with_capacity(alloc, room)?;
    kept.push(0)?;
    let mut i = 0;
    while links.len() - i > 1 {
        i = after_of(links, i) as usize;
        kept.push(i)?;
    }
    Ok(kept)
}

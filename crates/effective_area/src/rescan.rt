ghost use Rattle.std.specs.Prelude.{◌≡◌, ℕ, ◌-◌, ◌*◌, ◌/◌, ◌<◌, ◌≤◌, [], All, IfOk, length, not, ◌==◌, Some};
ghost use Rattle.std.specs.List.{filter};
ghost use Rattle.elimination_meaning.specs.Elimination.{corners, least, lesser, reduce};
ghost use Rattle.effective_area.specs.Counts.{AreasRose, RoseBy};
ghost use Rattle.effective_area.specs.Vertices.{candidate_corner, vertices};
ghost use Rattle.geometry.specs.Lists.{map_some};

use crate::call_log::CallLog;
use crate::candidate::Candidate;
use crate::indexes::all_indexes;
use crate::reducer::Reducer;
use crate::steps::{Steps, twice_area};
use geometry::Position;
use owned_values::Memory;
use std::alloc::Global;
use std::marker::Model;

/// The one of two candidates that goes first.
#[tactic(auto, unfolding(elimination_meaning::specs::Elimination::is_before))]
fn first(best: Option<Candidate>, candidate: Candidate) -> Candidate
    ensures { Some (candidate_corner result) ≡ lesser (map_some candidate_corner best) (Some (candidate_corner candidate)) }
{
    match best {
        None => candidate,
        Some(best) => { if candidate < best { candidate } else { best } }
    }
}

/// The candidate that goes first of all.
fn least_corner(steps: &mut Steps, arc: &[Position], present: &[usize]) -> Option<Candidate>
    requires { All (λ i. i < length arc.now) present.now }
    ensures least { map_some candidate_corner result ≡ least (corners (vertices arc.now present.now)) }
    ensures counted { RoseBy (length present.now - 2) 0 steps.old steps.new }
    ensures computed { AreasRose (length present.now - 2) steps.old steps.new }
{
    if present.len() < 3 {
        return None;
    }
    let mut best: Option<Candidate> = None;
    for i in 2..present.len() {
        let index = present[i - 1];
        let point = arc[index];
        let area = twice_area(steps, arc[present[i - 2]], point, arc[present[i]]);
        best = Some(first(best, Candidate { area, point, index }));
    }
    best
}

/// Takes an index out.
fn take_out(present: &mut Vec<usize>, index: usize)
    ensures { present.new.items ≡ filter (λ i. not (i == index)) present.old.items }
{
    present.retain(move |i| !(*i == index));
}

/// The indexes that stay, by looks through all corners of the line, one for each position that goes and one that finds none to go.
pub fn rescanned(
    alloc: Global,
    steps: &mut Steps,
    arc: &[Position],
    t: u128,
) -> Result<Vec<usize>, Memory>
    requires { 2 ≤ length arc.now }
    ensures kept { IfOk result (λ kept. kept.items ≡ reduce t arc.now) }
    // A look computes an area at each position between the ends that is left: n, n - 1 and so on.
    ensures counted { RoseBy ((length arc.now - 2) * (length arc.now - 1) / 2) 0 steps.old steps.new }
    // The first look computes the area at each position between the ends.
    ensures computed { IfOk result (λ _. AreasRose (length arc.now - 2) steps.old steps.new) }
{
    let mut present = all_indexes(alloc, arc.len())?;
    for _turn in 0..arc.len() {
        match least_corner(steps, arc, &present) {
            Some(corner) if corner.area < t => take_out(&mut present, corner.index),
            _ => return Ok(present),
        }
    }
    Ok(present)
}

/// A reducer that looks through all corners of the line for each position that it removes: the plainest body of the law,
/// in time n squared. Contracts see it as its calls: nothing else is left of them.
#[derive(Debug, Drop)]
pub struct Rescan {
    calls: CallLog,
}

impl Model for Rescan {
    ghost use Rattle.std.specs.Prelude.{List};
    ghost use Rattle.effective_area.specs.Calls.{Call};

    ghost Value = { List Call };

    ghost view = { λ r. r.calls.calls };
}

impl Rescan {
    /// A reducer that wasn't called yet.
    pub fn new() -> Rescan
        ensures { result ≡ [] }
    {
        Rescan {
            calls: CallLog::none(),
        }
    }
}

impl Reducer for Rescan {
    ghost calls = { λ calls. calls };

    fn kept(&mut self, alloc: Global, arc: &[Position], t: u128) -> Result<Vec<usize>, Memory> {
        self.calls = self.calls.and(arc, t);
        rescanned(alloc, &mut Steps::none(), arc, t)
    }
}

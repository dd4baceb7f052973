// The neighbours of places.
ghost use Rattle.std.specs.Prelude.{◌≡◌, ◌<◌, length, slice_index, slice_index_or, slice_set};
ghost use Rattle.guarded_reduction.specs.SideBySide.{afters_in, befores_in};

/// The place before a place, and the one after it, side by side, so that they are waited for once; where there is none, the place itself.
#[derive(Clone, Copy, Debug, PartialEq, Eq)]
pub struct Neighbours {
    pub before: u32,
    pub after: u32,
}

/// The place before a place, or another where there is none.
#[tactic(auto, using(crate::proofs::SideBySide::read_field, crate::proofs::SideBySide::read_beyond))]
pub fn before_or(neighbours: &[Neighbours], place: usize, otherwise: usize) -> usize
    ensures { result ≡ slice_index_or (befores_in neighbours.now) place otherwise }
{
    if place < neighbours.len() {
        neighbours[place].before as usize
    } else {
        otherwise
    }
}

/// The place after a place, or another where there is none.
#[tactic(auto, using(crate::proofs::SideBySide::read_field, crate::proofs::SideBySide::read_beyond))]
pub fn after_or(neighbours: &[Neighbours], place: usize, otherwise: usize) -> usize
    ensures { result ≡ slice_index_or (afters_in neighbours.now) place otherwise }
{
    if place < neighbours.len() {
        neighbours[place].after as usize
    } else {
        otherwise
    }
}

/// The neighbours of a place.
#[tactic(auto, using(crate::proofs::SideBySide::read_field))]
pub fn neighbours_of(neighbours: &[Neighbours], place: usize) -> Neighbours
    requires { place < length neighbours.now }
    ensures before { result.before ≡ slice_index (befores_in neighbours.now) place }
    ensures after { result.after ≡ slice_index (afters_in neighbours.now) place }
{
    neighbours[place]
}

/// Another place comes before a place.
pub fn set_before(neighbours: &mut Vec<Neighbours>, place: usize, before: u32)
    requires { place < length neighbours.old.items }
    ensures befores { befores_in neighbours.new.items ≡ slice_set (befores_in neighbours.old.items) place before }
    ensures afters { afters_in neighbours.new.items ≡ afters_in neighbours.old.items }
{
    neighbours[place].before = before;
}

/// Another place comes after a place.
pub fn set_after(neighbours: &mut Vec<Neighbours>, place: usize, after: u32)
    requires { place < length neighbours.old.items }
    ensures befores { befores_in neighbours.new.items ≡ befores_in neighbours.old.items }
    ensures afters { afters_in neighbours.new.items ≡ slice_set (afters_in neighbours.old.items) place after }
{
    neighbours[place].after = after;
}

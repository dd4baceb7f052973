// The ways to the rings of features that stay whatever is left of them, and the steps along them.
ghost use Rattle.std.specs.Prelude.{◌≡◌, map};
ghost use Rattle.geometry.specs.Lists.{map_some, tail};
ghost use Rattle.build_meaning.specs.OuterRings.{ends_here, into_part};
ghost use Rattle.topo_model.specs.Along.{first_way};

use std::marker::Model;

/// The rest of a way, if it leads into the part with this number.
pub fn into_part(way: Option<&[usize]>, number: usize) -> Option<&[usize]>
    ensures { map_some (λ w. w.now) result ≡ into_part number (map_some (λ w. w.now) way.entry) }
{
    let (first, rest) = way?.split_first()?;
    if number == *first { Some(rest) } else { None }
}

/// Whether a way ends here.
pub fn ends_here(way: Option<&[usize]>) -> bool
    ensures { result ≡ ends_here (map_some (λ w. w.now) way.entry) }
{
    match way {
        None => false,
        Some(way) => way.is_empty(),
    }
}

/// The ways of the features that are still to come, in reading order. Those that come after the last way have none.
#[derive(Drop)]
pub struct Ways<'a> {
    rest: &'a [Option<Vec<usize>>],
}

impl<'a> Model for Ways<'a> {
    ghost use Rattle.std.specs.Prelude.{map};
    ghost use Rattle.geometry.specs.Lists.{map_some};
    ghost use Rattle.topo_model.specs.Along.{Ways as OfFeatures};

    ghost Value = { OfFeatures };

    ghost view = { λ w. map (map_some (λ v. v.items)) w.rest.now };
}

impl<'a> Ways<'a> {
    /// Of the features, in reading order.
    pub fn of(ways: &'a [Option<Vec<usize>>]) -> Ways<'a>
        ensures { result ≡ map (map_some (λ v. v.items)) ways.now }
    {
        Ways { rest: ways }
    }

    /// The way of the next feature.
    pub fn next(&mut self) -> Option<&'a [usize]>
        ensures way { map_some (λ w. w.now) result ≡ first_way self.old }
        ensures rest { self.new ≡ tail self.old }
    {
        let (way, rest) = self.rest.split_first()?;
        self.rest = rest;
        match way {
            None => None,
            Some(way) => Some(way.as_slice()),
        }
    }
}

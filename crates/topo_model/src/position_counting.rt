// How many positions arcs have.
ghost use Rattle.std.specs.Prelude.{◌≡◌, IfOk, length, map};
ghost use Rattle.build_meaning.specs.Built.{positions_of};

use json_value::Items;
use owned_values::Memory;
use std::alloc::Global;
use topojson_types::Cell;

/// How many positions each arc has.
pub fn position_counts<P>(alloc: Global, arcs: &[Items<P>]) -> Result<Vec<usize>, Memory>
    ensures { IfOk result (λ counts. counts.items ≡ map length arcs.now) }
{
    let mut counts = Vec::with_capacity(alloc, arcs.len())?;
    'arcs: for arc in arcs {
        counts.push(arc.len())?;
    }
    Ok(counts)
}

/// How many positions all arcs have.
pub fn position_sum(arcs: &[Items<Cell>]) -> u128
    ensures { result ≡ positions_of arcs.now }
{
    let mut total: u128 = 0;
    'arcs: for arc in arcs {
        total += arc.len() as u128;
    }
    total
}

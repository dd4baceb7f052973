// Which arcs lines and rings use.
ghost use Rattle.std.specs.Prelude.{◌≡◌, ◌==◌, IfOk, false, replicate};
ghost use Rattle.std.specs.List.{list_all};
ghost use Rattle.geometry.specs.Joins.{number_of};
ghost use Rattle.topo_model.specs.Marks.{also_set, names_arc};

use owned_values::Memory;
use std::alloc::Global;
use topojson_types::ArcRef;

/// The flags of so many arcs, of which none is used yet.
pub fn unused_flags(alloc: Global, arcs: usize) -> Result<Vec<bool>, Memory>
    ensures { IfOk result (λ flags. flags.items ≡ replicate arcs false) }
{
    let flags = vec![in alloc; false; arcs]?;
    Ok(flags)
}

/// Sets the flag of the arc that an index names.
fn mark_arc(arc: ArcRef, used: &mut [bool])
    ensures { used.new ≡ also_set (λ n. number_of arc == n) 0 used.old }
{
    let index = arc.index();
    if index < used.len() {
        used[index] = true;
    }
}

/// Sets the flags of the arcs that a line or ring names.
pub fn mark_refs(refs: &[ArcRef], used: &mut [bool])
    ensures { used.new ≡ also_set (names_arc refs.now) 0 used.old }
{
    'refs: for arc in refs {
        mark_arc(*arc, used);
    }
}

/// Whether each flag is set.
pub fn all_set(flags: &[bool]) -> bool
    ensures { result ≡ list_all (λ flag. flag) flags.now }
{
    for flag in flags {
        if !*flag {
            return false;
        }
    }
    true
}

ghost use Rattle.std.specs.Prelude.{◌≡◌, IfOk};
ghost use Rattle.std.specs.List.{range_with_len};

use owned_values::Memory;
use std::alloc::Global;

/// All indexes below `n`.
#[tactic(auto, using(crate::proofs::Scan::indexes_more))]
pub fn all_indexes(alloc: Global, n: usize) -> Result<Vec<usize>, Memory>
    ensures { IfOk result (λ all. all.items ≡ range_with_len 0 n) }
{
    let mut all = Vec::with_capacity(alloc, n)?;
    for i in 0..n {
        all.push(i)?;
    }
    Ok(all)
}

// Where the names of members repeat.
ghost use Rattle.std.specs.Prelude.{◌≡◌, [], IfOk, map};
ghost use Rattle.topojson_meaning.specs.Objects.{is_met};
ghost use Rattle.topojson_decoder.specs.Names.{names_before_repeat};

use json_value::OwnText;
use owned_values::Memory;
use std::alloc::Global;
use std::collections::BTreeSet;

/// Whether one of them has this name.
pub(crate) fn is_among<V>(name: &str, members: &[(OwnText, V)]) -> bool
    ensures { result ≡ is_met name.now (map (λ m. m.0) members.now) }
{
    'names: for at in 0..members.len() {
        if members[at].0.as_str() == name {
            return true;
        }
    }
    false
}

/// How many members come before the first whose name an earlier one has.
pub fn members_before_repeat<V>(alloc: Global, members: &[(OwnText, V)]) -> Result<usize, Memory>
    ensures { IfOk result (λ n. n ≡ names_before_repeat [] (map (λ m. m.0) members.now)) }
{
    let mut met = BTreeSet::new(alloc);
    'members: for (index, member) in members.iter().enumerate() {
        if !met.insert(member.0.as_str())? {
            return Ok(index);
        }
    }
    Ok(members.len())
}

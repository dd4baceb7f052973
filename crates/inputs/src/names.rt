// The names of layers.
ghost use Rattle.std.specs.List.{AllByRecursion};
ghost use Rattle.std.specs.Prelude.{◌≡◌, ◌∷◌, ◌++◌, [], map, Ok, Err, IfOk, IsUtf8, false};
ghost use Rattle.inputs.specs.Names as spec;
ghost use Rattle.inputs.specs.Names.{name_fault, IsRefusedFor, Knows};

use crate::fault::BuildFault;
use byte_ends::{Feed, Source};
use json_value::OwnText;
use std::alloc::Global;
use std::collections::BTreeSet;

/// Whether one of the layers has this name.
fn is_among<R: Feed>(name: &str, sources: &[(OwnText, Source<R>)]) -> bool
    ensures { result ≡ spec.is_among name.now (map (λ s. s.0) sources.now) }
{
    for source in sources {
        if source.0.as_str() == name {
            return true;
        }
    }
    false
}

/// Whether one of the layers before has this name, and the set of their names with this one. Where memory is refused there is no
/// such set, and all layers are looked through.
fn meet<'a, R: Feed>(
    met: Option<BTreeSet<&'a str>>,
    name: &'a str,
    before: &[(OwnText, Source<R>)],
) -> (bool, Option<BTreeSet<&'a str>>)
    requires { Knows met (map (λ s. s.0) before.now) }
    ensures again { result.0 ≡ spec.is_among name.now (map (λ s. s.0) before.now) }
    ensures known { result.0 ≡ false → Knows result.1 (map (λ s. s.0) before.now ++ name.now ∷ []) }
{
    if let Some(mut names) = met {
        if let Ok(added) = names.insert(name) {
            return (!added, Some(names));
        }
    }
    (is_among(name, before), None)
}

/// Refuses the first layer whose name is empty or that of an earlier one.
pub fn check_names<R: Feed>(
    alloc: Global,
    sources: &[(OwnText, Source<R>)],
) -> Result<(), BuildFault>
    ensures fault { IsRefusedFor (name_fault (map (λ s. s.0) sources.now)) result }
    // Names are texts.
    ensures texts { IfOk result (λ _. AllByRecursion IsUtf8 (map (λ s. s.0) sources.now)) }
{
    let mut met = Some(BTreeSet::new(alloc));
    'layers: for (layer, source) in sources.iter().enumerate() {
        let name = source.0.as_str();
        if name.is_empty() {
            return Err(BuildFault::EmptyName { layer });
        }
        let (again, names) = meet(met, name, &sources[..layer]);
        if again {
            return Err(BuildFault::DuplicateName { layer });
        }
        met = names;
    }
    Ok(())
}

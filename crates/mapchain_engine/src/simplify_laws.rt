// Laws of the definitions. A function here does nothing: its contract is the law.
ghost use Rattle.std.specs.Prelude.{ℕ};
ghost use Rattle.build_meaning.specs.declared.guards.Guards.{Guards};
ghost use Rattle.layer_topology.specs.declared.level.Level.{Level};
ghost use Rattle.mapchain_engine.specs.FileLaws.{HaveFileOutcome, HaveOneFileOutcome};
ghost use Rattle.mapchain_engine.specs.SimplifyLaws.{SimplifiedIsUtf8, WrittenIsSimplified};
ghost use Rattle.mapchain_engine.specs.SimplifyOutcomes.{simplified};

use json_value::read_values_are_well_formed;
use layer_topology::left_law;
use topojson_meaning::{numbers_stay, texts_stay, topology_is_valid, topology_text_is_utf8};

/// Where a source has left the bytes of a topology, simplifying writes the text of what is left of that topology at the level.
pub fn text_is_simplified()
    ensures { WrittenIsSimplified }
{}

/// The bytes of a file have exactly one outcome where `simplify` is asked at a level: either the text of what is left of the
/// topology and the report, or the fault, but for where and why a malformed text is malformed.
pub fn simplified_is_one_outcome()
    ensures there { (guards : Guards) (level : Level) (ring_limit : ℕ) → HaveFileOutcome (simplified guards level ring_limit) }
    ensures one { (guards : Guards) (level : Level) (ring_limit : ℕ) → HaveOneFileOutcome (simplified guards level ring_limit) }
{}

/// The text of what is left of a topology is UTF-8 (RFC 8259, section 8.1), whichever topology the bytes of a file spell.
pub fn simplified_text_is_utf8()
    ensures { SimplifiedIsUtf8 }
{
    read_values_are_well_formed();
    numbers_stay();
    texts_stay();
    topology_is_valid();
    left_law();
    topology_text_is_utf8();
}

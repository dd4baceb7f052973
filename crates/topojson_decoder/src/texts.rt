// Whole texts of topologies.
ghost use Rattle.std.specs.Prelude.{◌≡◌, None, Ok, Err, IsUtf8};
ghost use Rattle.std.specs.Str.{is_utf8};
ghost use Rattle.json_value.specs.declared.json.Json.{Json as Value};
ghost use Rattle.json_value.specs.Reading as reading;
ghost use Rattle.json_reading.specs.Outcome.{SaysUtf8, SpellsNothing};
ghost use Rattle.geojson_types.specs.declared.counts.Counts.{Counts as Counted};
ghost use Rattle.topojson_meaning.specs.Topologies.{topology};
ghost use Rattle.json_value.specs.Limits.{topology_depth};
ghost use Rattle.topojson_types.specs.Validity.{IsTopology};
ghost use Rattle.topojson_decoder.specs.Kept.{parts_contents};
ghost use Rattle.topojson_decoder.specs.Texts.{PartsAnswer, SpelledAnswers, TextAnswers};

use crate::keeping::Keeping;
use crate::topologies::{Parts, SpelledParts, kept_topology_at};
use geojson_types::Counts;
use json_cursor::{Stop, are_utf8, text_of};
use json_reading::{JsonFault, TOPOLOGY_DEPTH, check, skip};
use std::alloc::Global;
use topojson_meaning::{TopoFault, topology_is_valid};
use topojson_types::Topology;

/// Why a text gives no topology.
#[derive(Clone, Copy, Debug, PartialEq, Eq)]
pub enum Refusal {
    /// It spells no value.
    Text(JsonFault),
    /// The value that it spells has this first fault.
    Meaning(TopoFault),
    Memory,
}

/// The fault of a text that spells no value.
fn malformed(alloc: Global, bytes: &[u8]) -> JsonFault
    requires { IsUtf8 bytes.now → reading.text_at is_utf8 topology_depth bytes.now ≡ None }
    ensures utf8 { SaysUtf8 bytes.now (Err result) }
    ensures nothing { SpellsNothing topology_depth bytes.now (Err result) }
{
    match check(alloc, bytes, TOPOLOGY_DEPTH) {
        Err(fault) => fault,
        Ok(()) => unreachable!(),
    }
}

/// The topology of these parts, which is valid.
pub fn topology_of_valid(parts: Parts) -> Topology
    requires { IsTopology (parts_contents parts) }
    ensures { result ≡ parts_contents parts }
{
    let Parts {
        objects,
        arcs,
        transform,
        features,
        ..
    } = parts;
    drop(features);
    Topology::of(objects, arcs, transform)
}

/// The topology of these parts, which a value stands for.
pub fn topology_of(parts: Parts) -> Topology
    requires { (v : Value) × (counts : Counted) × (topology v ≡ Ok (record { objects = parts.objects; arcs = parts.arcs; transform = parts.transform }, counts)) }
    ensures { result ≡ record { objects = parts.objects; arcs = parts.arcs; transform = parts.transform } }
{
    topology_is_valid();
    topology_of_valid(parts)
}

/// What is kept of the parts of the topology that a whole text spells, beside the texts of its arcs if these are kept.
fn read_spelled_parts<'a>(
    alloc: Global,
    keeping: Keeping,
    texts: bool,
    bytes: &'a [u8],
) -> Result<(SpelledParts<'a>, Counts), Refusal>
    ensures { PartsAnswer keeping bytes.now result }
{
    if !are_utf8(bytes) {
        return Err(Refusal::Text(malformed(alloc, bytes)));
    }
    let mut counts = Counts::none();
    match kept_topology_at(
        alloc,
        TOPOLOGY_DEPTH,
        keeping,
        texts,
        skip(text_of(bytes)),
        &mut counts,
    ) {
        Ok((parts, rest)) => {
            let following = skip(rest);
            if following.is_empty() {
                return Ok((parts, counts));
            }
            drop(parts);
            Err(Refusal::Text(malformed(alloc, bytes)))
        }
        Err(Stop::NoValue) => Err(Refusal::Text(malformed(alloc, bytes))),
        Err(Stop::Memory) => Err(Refusal::Memory),
        Err(Stop::Fault(fault)) => match check(alloc, bytes, TOPOLOGY_DEPTH) {
            Err(malformed) => Err(Refusal::Text(malformed)),
            Ok(()) => Err(Refusal::Meaning(fault)),
        },
    }
}

/// What is kept of the parts of the topology that a whole text spells (TopoJSON 1.0, section 2.1), with what was counted in reading it. Of a
/// text that spells no value it is said why, whatever else is wrong.
pub fn read_parts(alloc: Global, keeping: Keeping, bytes: &[u8]) -> Result<(Parts, Counts), Refusal>
    ensures { PartsAnswer keeping bytes.now result }
{
    match read_spelled_parts(alloc, keeping, false, bytes) {
        Err(refusal) => Err(refusal),
        Ok((spelled, counts)) => {
            let (parts, texts) = spelled.taken_apart();
            drop(texts);
            Ok((parts, counts))
        }
    }
}

/// A topology, and the texts in which its arcs stand, as far as these are known and are what is written of the arcs.
#[derive(Drop)]
pub struct SpelledTopology {
    pub topology: Topology,
    pub texts: Vec<Option<&'static [u8]>>,
}

/// The same as `read_text`, beside the texts of arcs, of bytes that stay to the end of the process: properties are left in them where they stand as
/// they are written.
#[tactic(auto, using(crate::proofs::KeptParts::whole_contents, crate::proofs::TextParts::parts_stand))]
pub fn read_spelled_text(
    alloc: Global,
    bytes: &'static [u8],
) -> Result<(SpelledTopology, Counts), Refusal>
    ensures { SpelledAnswers bytes.now result }
{
    match read_spelled_parts(alloc, Keeping::Whole(Some(bytes)), true, bytes) {
        Err(refusal) => Err(refusal),
        Ok((spelled, counts)) => {
            let (parts, texts) = spelled.taken_apart();
            let topology = topology_of(parts);
            Ok((SpelledTopology { topology, texts }, counts))
        }
    }
}

/// The topology that a whole text spells (TopoJSON 1.0, section 2.1), with what was counted in reading it. Of a text that spells no value
/// it is said why, whatever else is wrong.
#[tactic(auto, using(crate::proofs::KeptParts::whole_contents, crate::proofs::TextParts::parts_stand))]
pub fn read_text(alloc: Global, bytes: &[u8]) -> Result<(Topology, Counts), Refusal>
    ensures { TextAnswers bytes.now result }
{
    match read_parts(alloc, Keeping::Whole(None), bytes) {
        Err(refusal) => Err(refusal),
        Ok((parts, counts)) => Ok((topology_of(parts), counts)),
    }
}

// Reading a topology.
ghost use Rattle.std.specs.Prelude.{◌≡◌, ◌≢◌, Ok, Err, IfOk, IfErr};
ghost use Rattle.topojson_meaning.specs.Topologies as spec;
ghost use Rattle.topojson_meaning.specs.declared.fault.TopoFault.TheVariants.{Memory};

use crate::texts::topology_of;
use crate::topologies::topology_at;
use decimal_json::value_text;
use geojson_types::Counts;
use json_cursor::Stop;
use json_value::Json;
use std::alloc::Global;
use topojson_meaning::TopoFault;
use topojson_types::Topology;

/// The topology that a JSON value stands for (TopoJSON 1.0, section 2.1), with what was counted, or the first fault on the way through
/// its `type`, `transform`, `arcs` and `objects`. Identifiers and properties stay unchanged. An empty array in place of a line,
/// a ring, a polygon or coordinates is left out and counted; a geometry of which nothing is left is null. The value is read through
/// its text, which takes memory for a while: that there is too little is reported too where arrays and objects nest more than `u32::MAX` deep.
#[tactic(auto, using(crate::proofs::ReadingParts::topology_read, crate::proofs::ReadingParts::topology_fails))]
pub fn read_topology(alloc: Global, value: Json) -> Result<(Topology, Counts), TopoFault>
    ensures topology { IfOk result (λ r. spec.topology value ≡ Ok (r.0, r.1)) }
    ensures fault { IfErr result (λ e. e ≢ Memory → spec.topology value ≡ Err e) }
{
    let written = value_text(alloc, &value);
    drop(value);
    let text = written?;
    let mut counts = Counts::none();
    match topology_at(alloc, u32::MAX, &text, &mut counts) {
        Ok((parts, _)) => Ok((topology_of(parts), counts)),
        Err(Stop::Fault(fault)) => Err(fault),
        Err(Stop::NoValue) => Err(TopoFault::Memory),
        Err(Stop::Memory) => Err(TopoFault::Memory),
    }
}

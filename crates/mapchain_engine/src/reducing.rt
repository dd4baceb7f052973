// What is left where arcs are reduced, and the report of it.
ghost use Rattle.std.specs.Prelude.{◌≡◌, ◌≤◌, ◌++◌, IfOk, map, true};
ghost use Rattle.build_meaning.specs.Thresholds.{placed_cells};
ghost use Rattle.geometry.specs.Units.{threshold_limit};
ghost use Rattle.layer_topology.specs.Levels.{calls_over, is_simplifying_level};
ghost use Rattle.reports.specs.Summaries.{report_with};
ghost use Rattle.mapchain_engine.specs.Simplified as spec;

use byte_ends::Memory;
use effective_area::Reducer;
use geojson_types::Counts;
use layer_topology::{Left, Reduction, left_of_topology};
use reports::{Report, report_of};
use std::alloc::Global;
use topojson_types::Topology;

/// The topology that is left, and the report of it with these counts.
pub fn reported(counts: Counts, left: Left) -> (Topology, Report)
    ensures topology { result.0 ≡ left.topology }
    ensures report { result.1 ≡ report_with counts left.dropped.items left.topology.objects left.topology.arcs left.removed_count left.chosen }
{
    let Left {
        topology,
        dropped,
        removed_count,
        chosen,
    } = left;
    let report = report_of(
        counts,
        dropped,
        topology.objects(),
        topology.arcs(),
        removed_count,
        chosen,
    );
    (topology, report)
}

/// What is left of a topology, with these counts, where its arcs are reduced as is asked for, and the report of it.
#[tactic(auto, using(crate::proofs::Built::report_is))]
pub fn simplify_topology<Q: Reducer>(
    alloc: Global,
    reducer: &mut Q,
    topology: Topology,
    counts: Counts,
    asked: Reduction,
) -> Result<(Topology, Report), Memory>
    requires level { is_simplifying_level asked.level ≡ true }
    requires limit { asked.ring_limit ≤ threshold_limit }
    ensures left { IfOk result (λ r. (r.0 ≡ (spec.left_at asked.guards asked.level asked.ring_limit topology).contents)
        × (r.1 ≡ spec.report_of asked.guards asked.level asked.ring_limit topology counts)) }
    ensures called { IfOk result (λ _. Q.calls reducer.new
        ≡ Q.calls reducer.old ++ calls_over asked.guards asked.level (map (placed_cells topology.transform) topology.arcs)) }
{
    let left = left_of_topology(alloc, reducer, topology, asked)?;
    Ok(reported(counts, left))
}

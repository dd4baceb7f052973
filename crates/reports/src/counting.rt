// What is counted in a topology.
ghost use Rattle.std.specs.Prelude.{◌≡◌, IfOk, map};
ghost use Rattle.reports.specs.Summaries.{counted};
ghost use Rattle.reports.specs.Summaries as spec;

use crate::losing::{count_lost, features_in};
use crate::report::Report;
use crate::summary::Summary;
use byte_ends::Memory;
use geojson_types::{Counts, Dropped};
use json_value::{Items, OwnText};
use std::alloc::Global;
use topojson_types::{Cell, TopoObject};

/// The positions of all arcs: a count that stays at `u64::MAX` once it is there.
fn positions_in(arcs: &[Items<Cell>]) -> u64
    ensures { result ≡ spec.positions_in arcs.now }
{
    let mut kept: u64 = 0;
    'arcs: for arc in arcs {
        kept = kept.saturating_add(arc.len() as u64);
    }
    kept
}

/// The report of a topology that has these objects and these arcs, with these counts, of which these lines and rings are dropped, and out of
/// whose arcs so many positions were taken, at this threshold where one was chosen.
pub fn report_of(
    counts: Counts,
    dropped: Vec<Dropped>,
    objects: &[(OwnText, TopoObject)],
    arcs: &[Items<Cell>],
    removed: u64,
    chosen: Option<u128>,
) -> Report
    ensures { result ≡ spec.report_with counts dropped.items objects.now arcs.now removed chosen }
{
    let lost = count_lost(objects, dropped.as_slice());
    Report {
        counts,
        dropped: Items::of(dropped),
        lost,
        arcs: arcs.len() as u64,
        kept: positions_in(arcs),
        removed,
        chosen,
    }
}

/// The name of each object and the number of its features.
fn counted_objects(
    alloc: Global,
    objects: &[(OwnText, TopoObject)],
) -> Result<Vec<(OwnText, u64)>, Memory>
    ensures { IfOk result (λ v. v.items ≡ map counted objects.now) }
{
    let mut all = Vec::new(alloc);
    'objects: for object in objects {
        let name = object.0.copy(alloc)?;
        all.push((name, features_in(&object.1).len() as u64))?;
    }
    Ok(all)
}

/// The summary of a topology of these objects and arcs, with a transform or without one (TopoJSON 1.0, section 2.1).
pub fn summary_with(
    alloc: Global,
    objects: &[(OwnText, TopoObject)],
    arcs: &[Items<Cell>],
    grid: bool,
) -> Result<Summary, Memory>
    ensures { IfOk result (λ summary. summary ≡ spec.summary_with objects.now arcs.now grid) }
{
    let objects = counted_objects(alloc, objects)?;
    Ok(Summary {
        objects: Items::of(objects),
        arcs: arcs.len() as u64,
        positions: positions_in(arcs),
        grid,
        crossings: None,
    })
}

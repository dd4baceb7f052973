// The topology of layers over reduced arcs.
ghost use Rattle.std.specs.Prelude.{◌≡◌, ◌<◌, ◌≤◌, ◌^◌, [], ℕ, IfOk, List, length, map};
ghost use Rattle.arc_table.specs.Arcs.{table_of};
ghost use Rattle.build_meaning.specs.BuiltLaws.{AreSound};
ghost use Rattle.build_meaning.specs.Layers.{Named, layers_of, names_of};
ghost use Rattle.build_meaning.specs.Assembled.{arcs_of_layers, assembled, assembled_dropped, assembled_removed_count};
ghost use Rattle.build_meaning.specs.Simplified.{EachFromFirstToLast, retained_arcs};
ghost use Rattle.byte_ends.specs.Ends.{saturated};
ghost use Rattle.cutter.specs.Slices.{split_of};
ghost use Rattle.geometry.specs.Units.{threshold_limit};
ghost use Rattle.linework.specs.Linework.{linework};
ghost use Rattle.topojson_types.specs.Validity.{AreDistinct};
ghost use Rattle.topo_model.specs.Retaining.{IsDraft, IsDraftOf};

use crate::filling::filled;
use crate::finishing::finish;
use crate::given_numbers::positions_of_all;
use crate::left::{Left, Retained};
use crate::position_counting::position_counts;
use crate::taking_apart::take_apart;
use arc_table::Table;
use build_meaning::unprotected_is_simplified;
use elimination_meaning::{ends_stay, nothing_is_new, zero_law};
use extraction::ExtractedLayer;
use geojson_types::{Dropped, Layer};
use json_value::OwnText;
use linework::lines_of_outlines;
use owned_values::Memory;
use std::alloc::Global;
use topojson_types::{TopoObject, Topology};

/// What is left of a draft of layers over the arcs of their lines, of which these cells stay. Lines and rings that are then left with too few
/// positions, and rings of which twice the area is under the limit (in square units), are left out, and so are arcs that no kept line uses. No
/// ring is protected.
pub fn assemble_draft(
    alloc: Global,
    objects: Vec<(OwnText, TopoObject)>,
    retained: Retained,
    ring_limit: u128,
) -> Result<Left, Memory>
    requires draft { IsDraft objects.items retained.arcs.items retained.counts.items }
    requires ways { retained.ways.items ≡ [] }
    requires limit { ring_limit ≤ threshold_limit }
    ensures topology { IfOk result (λ r. (ls : Named) (kept : List (List ℕ)) → IsDraftOf ls objects.items
        → retained.arcs.items ≡ retained_arcs kept (arcs_of_layers ls) → r.topology ≡ assembled kept ring_limit ls) }
    ensures dropped { IfOk result (λ r. (ls : Named) (kept : List (List ℕ)) → IsDraftOf ls objects.items
        → retained.arcs.items ≡ retained_arcs kept (arcs_of_layers ls) → r.dropped.items ≡ assembled_dropped kept ring_limit ls) }
    ensures removed_count { IfOk result (λ r. (ls : Named) (kept : List (List ℕ)) → IsDraftOf ls objects.items
        → retained.arcs.items ≡ retained_arcs kept (arcs_of_layers ls) → retained.counts.items ≡ map length (arcs_of_layers ls)
        → r.removed_count ≡ saturated (assembled_removed_count kept ring_limit ls)) }
    ensures chosen { IfOk result (λ r. r.chosen ≡ retained.chosen) }
    ensures few { IfOk result (λ r. length r.topology.arcs < 2 ^ 63) }
{
    zero_law();
    ends_stay();
    nothing_is_new();
    unprotected_is_simplified();
    finish(alloc, objects, retained, None, None, ring_limit)
}

/// Named layers without their lines and rings, and these by themselves.
fn extracted(
    alloc: Global,
    layers: Vec<(OwnText, Layer)>,
) -> Result<Vec<(OwnText, ExtractedLayer)>, Memory>
    ensures { IfOk result (λ all. all.items ≡ layers.items) }
{
    let mut all = Vec::with_capacity(alloc, layers.len())?;
    'layers: for (name, layer) in layers {
        all.push((name, ExtractedLayer::of(alloc, layer)?))?;
    }
    Ok(all)
}

/// The topology of named layers over the arcs of their lines, where of each arc the positions with these numbers are kept: a list
/// for each arc, from its first position to its last. What is left out is as for `assemble_draft`.
pub fn assemble(
    alloc: Global,
    layers: Vec<(OwnText, Layer)>,
    table: Table,
    kept: &[Vec<usize>],
    ring_limit: u128,
) -> Result<(Topology, Vec<Dropped>, u64), Memory>
    requires table { table ≡ table_of (map (split_of (linework (layers_of layers.items))) (linework (layers_of layers.items))) }
    requires sound { AreSound layers.items }
    requires names { AreDistinct (names_of layers.items) }
    requires kept { EachFromFirstToLast (map (λ k. k.items) kept.now) table.arcs }
    requires limit { ring_limit ≤ threshold_limit }
    ensures topology { IfOk result (λ r. r.0 ≡ assembled (map (λ k. k.items) kept.now) ring_limit layers.items) }
    ensures dropped { IfOk result (λ r. r.1.items ≡ assembled_dropped (map (λ k. k.items) kept.now) ring_limit layers.items) }
    ensures removed_count { IfOk result (λ r. r.2 ≡ saturated (assembled_removed_count (map (λ k. k.items) kept.now) ring_limit layers.items)) }
    ensures few { IfOk result (λ r. length r.0.arcs < 2 ^ 63) }
{
    let counts = position_counts(alloc, table.arcs())?;
    let arcs = positions_of_all(alloc, kept, table.arcs())?;
    let (_arcs, refs) = table.into_parts();
    let extracted = extracted(alloc, layers)?;
    let (objects, outlines) = take_apart(alloc, extracted)?;
    let (_lines, short) = lines_of_outlines(alloc, outlines)?;
    let draft = filled(alloc, objects, refs, &short);
    let retained = Retained {
        arcs,
        counts,
        ways: Vec::new(alloc),
        chosen: None,
    };
    let left = assemble_draft(alloc, draft, retained, ring_limit)?;
    Ok((left.topology, left.dropped, left.removed_count))
}

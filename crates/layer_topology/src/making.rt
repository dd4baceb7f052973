// Making the topology of layers.
ghost use Rattle.std.specs.Prelude.{◌≡◌, ◌<◌, ◌≤◌, ◌^◌, ◌++◌, IfOk, length, map, true};
ghost use Rattle.std.specs.List.{AllByRecursion};
ghost use Rattle.arc_table.specs.Arcs.{table_of};
ghost use Rattle.build_meaning.specs.Assembled.{arcs_of_layers};
ghost use Rattle.build_meaning.specs.BuiltLaws.{AreSound};
ghost use Rattle.build_meaning.specs.Layers.{Named, layers_of, named_lines_and_rings, names_of};
ghost use Rattle.build_meaning.specs.InTurn as meaning;
ghost use Rattle.build_meaning.specs.Left.{is_at_once as is_at_once_of};
ghost use Rattle.build_meaning.specs.Quantized.{AreInputs, IsCount, named_grid};
ghost use Rattle.cutter.specs.Slices.{split_of};
ghost use Rattle.geometry.specs.Units.{threshold_limit};
ghost use Rattle.layer_topology.specs.Levels.{calls_at, calls_over, chosen_for, is_level, is_simplifying_level, threshold_at};
ghost use Rattle.layer_topology.specs.Topologies.{IsLeft};
ghost use Rattle.layer_topology.specs.Written.{AreTaken, layers_threshold, snapped_to, written_left, written_threshold};
ghost use Rattle.linework.specs.Linework.{linework};
ghost use Rattle.linework.specs.Outlines.{IsRingIfClosed, is_short_outline};
ghost use Rattle.topojson_types.specs.Validity.{AreDistinct};
ghost use Rattle.topo_model.specs.Retaining.{IsDraftOf};

use crate::choosing::left_of_arcs;
use crate::in_turn::{is_at_once, left_in_turn};
use crate::layers::snap_layers;
use crate::level::Level;
use crate::reduction::Reduction;
use crate::topology::on_grid;
use crate::used::whole_arcs;
use arc_table::Table;
use build_meaning::{
    arc_indexes_reach, assembles_to_built, assembling_drops_expected, assembling_removes,
    built_cells_are_on, first_is_left_at_zero, first_of_built, left_on_grid, snapped_are_on,
    unguarded_is_built, unprotected_is_simplified, without_small_keeps, without_small_on_grid,
};
use cutter::{Pieces, cut};
use effective_area::Reducer;
use elimination_meaning::{ends_stay, nothing_is_new, zero_law};
use extraction::ExtractedLayer;
use geojson_types::Position;
use grid_snap::Grid;
use guarded_meaning::kept_by_weight;
use json_value::{Items, OwnText};
use linework::{Lines, Outlines, Vertices, lines_of_outlines};
use owned_values::Memory;
use std::alloc::Global;
use topo_model::{Left, Rebuilding, Retained, assemble_draft, filled, position_counts, take_apart};
use topojson_types::TopoObject;

/// Lines and rings, cut. What was known of their positions is given back.
fn cut_lines(alloc: Global, seed: u64, lines: Lines) -> Result<Pieces, Memory>
    ensures { IfOk result (λ ps. ps ≡ map (split_of lines.lines_and_rings) lines.lines_and_rings) }
{
    match Vertices::by_seed(alloc, seed, &lines) {
        Ok(vertices) => {
            let pieces = cut(alloc, lines, &vertices);
            drop(vertices);
            pieces
        }
        Err(fault) => {
            drop(lines);
            Err(fault)
        }
    }
}

/// The arcs that the lines and rings of layers share, and for each of these whether it has too few positions.
#[tactic(auto, using(build_meaning::proofs::Linework::linework_lines))]
fn shared_arcs(alloc: Global, seed: u64, outlines: Outlines) -> Result<(Table, Vec<bool>), Memory>
    requires { AllByRecursion IsRingIfClosed outlines }
    ensures table { IfOk result (λ r. (ls : Named) → outlines ≡ named_lines_and_rings ls
        → r.0 ≡ table_of (map (split_of (linework (layers_of ls))) (linework (layers_of ls)))) }
    ensures short { IfOk result (λ r. r.1.items ≡ map is_short_outline outlines) }
{
    let (lines, short) = lines_of_outlines(alloc, outlines)?;
    let pieces = cut_lines(alloc, seed, lines)?;
    let table = Table::build_by_seed(alloc, seed, pieces)?;
    Ok((table, short))
}

/// The draft of named layers, and the arcs that their lines and rings share. No position of the layers is copied before they are cut, and when
/// they are none is held but those of the arcs.
#[tactic(auto, using(build_meaning::proofs::Linework::named_rings, topo_model::proofs::Assembled::draft_of, crate::proofs::Made::table_arcs))]
fn draft_and_arcs(
    alloc: Global,
    seed: u64,
    layers: Vec<(OwnText, ExtractedLayer)>,
) -> Result<(Vec<(OwnText, TopoObject)>, Vec<Items<Position>>), Memory>
    requires sound { AreSound layers.items }
    requires names { AreDistinct (names_of layers.items) }
    ensures draft { IfOk result (λ r. IsDraftOf layers.items r.0.items) }
    ensures arcs { IfOk result (λ r. r.1.items ≡ arcs_of_layers layers.items) }
    ensures long { IfOk result (λ r. AllByRecursion (λ arc. 2 ≤ length arc) r.1.items) }
{
    let (objects, outlines) = take_apart(alloc, layers)?;
    match shared_arcs(alloc, seed, outlines) {
        Ok((table, short)) => {
            let (arcs, refs) = table.into_parts();
            Ok((filled(alloc, objects, refs, &short), arcs))
        }
        Err(fault) => {
            drop(objects);
            Err(fault)
        }
    }
}

/// What is left of named layers over the arcs of their lines, where each of these is reduced by itself.
#[tactic(auto, using(topo_model::proofs::Assembled::draft_of))]
fn left_apart<Q: Reducer>(
    alloc: Global,
    reducer: &mut Q,
    seed: u64,
    layers: Vec<(OwnText, ExtractedLayer)>,
    level: Level,
    ring_limit: u128,
) -> Result<Left, Memory>
    requires level { is_simplifying_level level ≡ true }
    requires sound { AreSound layers.items }
    requires names { AreDistinct (names_of layers.items) }
    requires limit { ring_limit ≤ threshold_limit }
    ensures left { IfOk result
        (λ r. IsLeft (meaning.built_left (threshold_at level (arcs_of_layers layers.items)) ring_limit layers.items) r.topology r.dropped.items r.removed_count) }
    ensures chosen { IfOk result (λ r. r.chosen ≡ chosen_for level (threshold_at level (arcs_of_layers layers.items))) }
    ensures called { IfOk result (λ _. Q.calls reducer.new ≡ Q.calls reducer.old ++ calls_at level (arcs_of_layers layers.items)) }
    ensures few { IfOk result (λ r. length r.topology.arcs < 2 ^ 63) }
{
    arc_indexes_reach();
    assembles_to_built();
    assembling_drops_expected();
    assembling_removes();
    let (objects, arcs) = draft_and_arcs(alloc, seed, layers)?;
    let counts = position_counts(alloc, &arcs)?;
    let (arcs, chosen) = left_of_arcs(alloc, reducer, arcs, level)?;
    let retained = Retained {
        arcs,
        counts,
        ways: Vec::new(alloc),
        chosen,
    };
    let left = assemble_draft(alloc, objects, retained, ring_limit)?;
    Ok(left)
}

/// What is left of named layers over the arcs of their lines, where guards are asked for.
fn left_at_once(
    alloc: Global,
    seed: u64,
    layers: Vec<(OwnText, ExtractedLayer)>,
    asked: Reduction,
) -> Result<Left, Memory>
    requires level { is_simplifying_level asked.level ≡ true }
    requires at_once { is_at_once_of asked.guards ≡ true }
    requires sound { AreSound layers.items }
    requires names { AreDistinct (names_of layers.items) }
    requires limit { asked.ring_limit ≤ threshold_limit }
    ensures left { IfOk result
        (λ r. IsLeft (meaning.layers_left_in_turn asked.guards (layers_threshold asked.guards asked.level asked.ring_limit layers.items) asked.ring_limit layers.items)
        r.topology r.dropped.items r.removed_count) }
    ensures chosen { IfOk result (λ r. r.chosen ≡ chosen_for asked.level (layers_threshold asked.guards asked.level asked.ring_limit layers.items)) }
    ensures few { IfOk result (λ r. length r.topology.arcs < 2 ^ 63) }
{
    zero_law();
    ends_stay();
    nothing_is_new();
    kept_by_weight();
    unprotected_is_simplified();
    unguarded_is_built();
    first_is_left_at_zero();
    first_of_built();
    let (objects, arcs) = draft_and_arcs(alloc, seed, layers)?;
    let cells = whole_arcs(alloc, &arcs)?;
    drop(arcs);
    let first = Rebuilding::of(alloc, &cells, asked.ring_limit)?;
    let left = left_in_turn(alloc, objects, &cells, &cells, None, Some(&first), asked)?;
    Ok(left)
}

/// What is left of named layers over the arcs of their lines.
fn left_of_layers<Q: Reducer>(
    alloc: Global,
    reducer: &mut Q,
    seed: u64,
    layers: Vec<(OwnText, ExtractedLayer)>,
    asked: Reduction,
) -> Result<Left, Memory>
    requires level { is_simplifying_level asked.level ≡ true }
    requires sound { AreSound layers.items }
    requires names { AreDistinct (names_of layers.items) }
    requires limit { asked.ring_limit ≤ threshold_limit }
    ensures left { IfOk result
        (λ r. IsLeft (meaning.layers_left_in_turn asked.guards (layers_threshold asked.guards asked.level asked.ring_limit layers.items) asked.ring_limit layers.items)
        r.topology r.dropped.items r.removed_count) }
    ensures chosen { IfOk result (λ r. r.chosen ≡ chosen_for asked.level (layers_threshold asked.guards asked.level asked.ring_limit layers.items)) }
    ensures called { IfOk result
        (λ _. Q.calls reducer.new ≡ Q.calls reducer.old ++ calls_over asked.guards asked.level (arcs_of_layers layers.items)) }
    ensures few { IfOk result (λ r. length r.topology.arcs < 2 ^ 63) }
{
    if is_at_once(asked.guards) {
        return left_at_once(alloc, seed, layers, asked);
    }
    left_apart(alloc, reducer, seed, layers, asked.level, asked.ring_limit)
}

/// The layers snapped to the grid that is asked for, if one is, and the grid.
fn snapped_layers(
    layers: Vec<(OwnText, ExtractedLayer)>,
    count: Option<u32>,
) -> (Vec<(OwnText, ExtractedLayer)>, Option<Grid>)
    requires count { IsCount count }
    requires inputs { AreInputs layers.items }
    ensures snapped { result.0.items ≡ snapped_to count layers.items }
    ensures grid { result.1 ≡ named_grid count layers.items }
{
    let mut snapped = layers;
    let grid = snap_layers(snapped.as_mut_slice(), count);
    (snapped, grid)
}

/// The topology of named layers: they are snapped to the grid that is asked for, if one is, the lines and rings are cut into the arcs
/// that they share, each arc is reduced once at the threshold (twice an area, in square units) that the level gives or for which all arcs
/// keep its share, rings that then enclose less than half the ring limit are left out, and positions on a grid become cells of it. Where
/// the guards forbid crossings or shapes stay, the arcs that the topology has at zero are reduced at once in place of that, a share is one of
/// their positions, and the others stay whole; where there is a ring limit, too, what is small as it stands goes before that, with the arcs that
/// nothing else uses. Where shapes stay, in each feature the outer ring is left that encloses most before, of those with four positions or more.
pub fn topology_of_layers<Q: Reducer>(
    alloc: Global,
    reducer: &mut Q,
    seed: u64,
    layers: Vec<(OwnText, ExtractedLayer)>,
    grid: Option<u32>,
    asked: Reduction,
) -> Result<Left, Memory>
    requires level { is_level asked.level ≡ true }
    requires taken { AreTaken grid layers.items }
    requires limit { asked.ring_limit ≤ threshold_limit }
    ensures left { IfOk result
        (λ r. IsLeft (written_left asked.guards grid (written_threshold asked.guards grid asked.level asked.ring_limit layers.items) asked.ring_limit layers.items)
        r.topology r.dropped.items r.removed_count) }
    ensures chosen { IfOk result (λ r. r.chosen ≡ chosen_for asked.level (written_threshold asked.guards grid asked.level asked.ring_limit layers.items)) }
    ensures called { IfOk result
        (λ _. Q.calls reducer.new ≡ Q.calls reducer.old ++ calls_over asked.guards asked.level (arcs_of_layers (snapped_to grid layers.items))) }
    ensures few { IfOk result (λ r. length r.topology.arcs < 2 ^ 63) }
{
    snapped_are_on();
    built_cells_are_on();
    left_on_grid();
    without_small_on_grid();
    without_small_keeps();
    let (snapped, grid) = snapped_layers(layers, grid);
    let left = left_of_layers(alloc, reducer, seed, snapped, asked)?;
    let Left {
        topology,
        dropped,
        removed_count,
        chosen,
    } = left;
    let topology = on_grid(alloc, topology, grid)?;
    Ok(Left {
        topology,
        dropped,
        removed_count,
        chosen,
    })
}

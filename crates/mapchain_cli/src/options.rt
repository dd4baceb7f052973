// What a build or simplifying is asked for.
ghost use Rattle.std.specs.Prelude.{◌≡◌, ◌⊎◌, ◌≤◌, IfErr, IfOk, IfSome, None, Some, true};
ghost use Rattle.effective_area.specs.Thresholds.{threshold_of};
ghost use Rattle.geometry.specs.Units.{threshold_limit};
ghost use Rattle.command_words.specs.Requests.{IsCells};
ghost use Rattle.layer_topology.specs.Levels.{is_level};
ghost use Rattle.mapchain_cli.specs.Asking.{AreRefused, IsAskedFor, IsLevelOf, LevelIsRefused, level_of};
ghost use Rattle.mapchain_cli.specs.declared.ending.Ending.TheVariants as ending;

use crate::ending::Ending;
use byte_ends::Memory;
use effective_area::{read_share, read_threshold};
use mapchain_engine::{Guards, Level, Options};
use std::alloc::Global;

/// The threshold of the area of this text, which is looked at here. An area that has none is refused in this way.
fn threshold_asked(alloc: Global, area: &str, refused: Ending) -> Result<u128, Ending>
    ensures asked { IfOk result (λ t. threshold_of area.now ≡ Some t) }
    ensures within { IfOk result (λ t. t ≤ threshold_limit) }
    // An area that has no threshold is refused, and no other.
    ensures refused { IfErr result (λ e. ((e ≡ refused) × (threshold_of area.now ≡ None)) ⊎ (e ≡ ending.Memory)) }
{
    match read_threshold(alloc, area) {
        Ok(Some(threshold)) => Ok(threshold),
        Ok(None) => Err(refused),
        Err(Memory) => Err(Ending::Memory),
    }
}

/// The thresholds of the area and of the ring area of these texts, which are looked at in this order.
fn thresholds_asked(alloc: Global, area: &str, ring_area: &str) -> Result<(u128, u128), Ending>
    ensures area { IfOk result (λ r. threshold_of area.now ≡ Some r.0) }
    ensures ring_area { IfOk result (λ r. threshold_of ring_area.now ≡ Some r.1) }
    ensures area_within { IfOk result (λ r. r.0 ≤ threshold_limit) }
    ensures ring_area_within { IfOk result (λ r. r.1 ≤ threshold_limit) }
    ensures refused { IfErr result (AreRefused area.now ring_area.now) }
{
    let threshold = threshold_asked(alloc, area, Ending::BadArea)?;
    let ring_limit = threshold_asked(alloc, ring_area, Ending::BadRingArea)?;
    Ok((threshold, ring_limit))
}

/// The level of this threshold, or of the share of this text in its place.
fn level_asked(threshold: u128, keep: Option<&str>) -> Result<Level, Ending>
    requires { threshold ≤ threshold_limit }
    ensures asked { IfOk result (λ level. level_of threshold keep.entry ≡ Some level) }
    ensures within { IfOk result (λ level. is_level level ≡ true) }
    // A text that is no share is refused, and nothing else.
    ensures refused { IfErr result (λ e. (e ≡ ending.BadShare) × (level_of threshold keep.entry ≡ None)) }
{
    let Some(keep) = keep else {
        return Ok(Level::Fixed(threshold));
    };
    match read_share(keep) {
        Some(share) => Ok(Level::Share {
            p: share.part,
            q: share.whole,
        }),
        None => Err(Ending::BadShare),
    }
}

/// The level and the ring limit of the areas and the share of these texts, which are looked at in this order.
pub(crate) fn level_and_limit(
    alloc: Global,
    area: &str,
    keep: Option<&str>,
    ring_area: &str,
) -> Result<(Level, u128), Ending>
    ensures level { IfOk result (λ r. IsLevelOf area.now keep.entry r.0) }
    ensures level_within { IfOk result (λ r. is_level r.0 ≡ true) }
    ensures ring_area { IfOk result (λ r. threshold_of ring_area.now ≡ Some r.1) }
    ensures ring_area_within { IfOk result (λ r. r.1 ≤ threshold_limit) }
    ensures refused { IfErr result (LevelIsRefused area.now keep.entry ring_area.now) }
{
    let (threshold, ring_limit) = thresholds_asked(alloc, area, ring_area)?;
    let level = level_asked(threshold, keep)?;
    Ok((level, ring_limit))
}

/// What is asked for with this grid, under these guards, with the areas and the share of these texts, which are looked at in this order.
pub(crate) fn options_of(
    alloc: Global,
    exact: bool,
    seed: u64,
    grid: Option<u32>,
    area: &str,
    keep: Option<&str>,
    ring_area: &str,
    guards: Guards,
) -> Result<Options, Ending>
    requires { IfSome grid IsCells }
    ensures asked { IfOk result (λ options. IsAskedFor exact grid area.now keep.entry ring_area.now guards options) }
    ensures refused { IfErr result (LevelIsRefused area.now keep.entry ring_area.now) }
{
    let (level, ring_limit) = level_and_limit(alloc, area, keep, ring_area)?;
    Ok(Options {
        grid,
        guards,
        level,
        ring_limit,
        exact,
        seed,
    })
}

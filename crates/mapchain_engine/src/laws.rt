// Laws of the contracts. A function here does nothing: its contract is the law.
ghost use Rattle.mapchain_engine.specs.Back.{ComesBack, GeoIsNeverRefused, SimplifyIsNeverRefused, StatIsNeverRefused};
ghost use Rattle.mapchain_engine.specs.Dropping.{DropsAreReported};
ghost use Rattle.mapchain_engine.specs.Laws.{
  BuildsOneText,
  DecodesBack,
  LosesNothing,
  SimplifiesByLevel,
  SimplifiesToBuilt,
  SimplifiesToBuiltOfSame,
  SummarisesBack,
};

use crate::build_laws::read_layers_are_taken;
use build_meaning::{snapped_are_on, zero_loses_nothing};
use inputs::{layers_have_one_outcome, read_layers_are_the_outcome};
use json_reading::one_value;
use layer_topology::{guarded_at_zero, written_left_law};
use topojson_meaning::topology_is_valid;

/// What `build` wrote, at any threshold, without guards, `to_geo` reads again: with the name of a layer, answering `Ok`, it writes the text of the
/// features that are expected of this layer, the same as in the contract of `build`.
pub fn built_text_decodes_back()
    ensures { DecodesBack }
{
    one_value();
}

/// What `build` wrote, if it is no more than `MAX_INPUT` bytes, gives what is expected: `to_geo` with the name of a layer, where no guard was
/// asked for, `stat` and `simplify` answer exactly that by their contracts, unless memory or a device fails.
pub fn built_text_comes_back()
    ensures { ComesBack }
{}

/// What `build` wrote is never refused: on no more than `MAX_INPUT` bytes of it, and where no device has failed, whatever `to_geo`,
/// `stat` and `simplify` answer by their contracts is `Ok`, with the features that are expected of a layer, the summary of the topology
/// that was built, or what is left of it by threshold and ring limit; or it is `Memory`.
pub fn built_text_is_never_refused()
    ensures geo { GeoIsNeverRefused }
    ensures stat { StatIsNeverRefused }
    ensures simplify { SimplifyIsNeverRefused }
{}

/// At a threshold and a ring limit of zero what is expected of each line of the layers is the line, with equal neighbours as one
/// position and a ring from its start; only what has too few positions is dropped.
#[tactic(auto, using(crate::proofs::BuiltAgain::taken))]
pub fn built_at_zero_loses_nothing()
    ensures { LosesNothing }
{
    snapped_are_on();
    zero_loses_nothing();
    topology_is_valid();
    read_layers_are_taken();
}

/// Of what `build` wrote, `stat` reports the summary of the topology that is built of the layers.
pub fn built_text_is_summarised()
    ensures { SummarisesBack }
{
    one_value();
}

/// What `build` wrote at a threshold and a ring limit of zero, simplified by both, is byte for byte what `build` writes of the same
/// layers, on the same grid, by both, be the threshold given or chosen for a share, and under the same guards: one full file is kept, and
/// smaller ones are made of it.
pub fn simplified_text_is_built()
    ensures { SimplifiesToBuilt }
{
    one_value();
    guarded_at_zero();
    written_left_law();
    topology_is_valid();
    read_layers_are_taken();
}

/// What `build` wrote at a threshold and a ring limit of zero, where each arc of the layers is in it, or a guard is asked for, simplified by
/// the level and the ring limit of another build of the same layers on the same grid, under its guards, is byte for byte what that one writes, and
/// both choose the same threshold. An arc of the layers isn't in it where only holes of dropped outer rings have it: without guards `build` counts
/// its positions for a share.
pub fn simplified_by_level_is_built()
    ensures { SimplifiesByLevel }
{
    one_value();
    guarded_at_zero();
    written_left_law();
    topology_is_valid();
    read_layers_are_taken();
}

/// Equal bytes under equal names, built with equal options, give one text and one report.
pub fn same_bytes_build_one_text()
    ensures { BuildsOneText }
{
    layers_have_one_outcome();
    read_layers_are_the_outcome();
}

/// As `simplified_text_is_built`, where the sources of both builds had the same bytes under the same names.
pub fn simplified_text_is_built_of_same_bytes()
    ensures { SimplifiesToBuiltOfSame }
{
    simplified_text_is_built();
    layers_have_one_outcome();
    read_layers_are_the_outcome();
}

/// What is expected of a layer and what is reported as dropped of it are two walks over the same features, and they agree: each line and ring,
/// in reading order, is either reported as dropped, by its place, or stands among the lines of what is left.
#[tactic(auto, using(crate::proofs::Dropping::leaves_out))]
pub fn dropped_lines_are_reported()
    ensures { DropsAreReported }
{}

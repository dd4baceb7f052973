// The commands that take the file of a topology, and their help.
ghost use Rattle.std.specs.Prelude.{IfOk};
ghost use Rattle.command_words.specs.CommandLine.{IsApp, IsRule, crossings_rule, file_rule, geo_app, keep_rule, most_rule, object_rule, simplify_app, stat_app};

use crate::commands::{Help, command, flag, option_with};
use crate::usage::{quiet, with_argument, with_common, with_reducing};
use clap::{Arg, Command};
use std::alloc::{AllocError, Global};

/// The command that simplifies.
pub(crate) const SIMPLIFY: &str = "simplify";

/// The command that decodes an object.
pub(crate) const GEO: &str = "geo";

/// The command that counts.
pub(crate) const STAT: &str = "stat";

/// The option of `geo` that names the object.
pub(crate) const OBJECT: &str = "object";

/// The option of `geo` that bounds the positions.
pub(crate) const MOST: &str = "max-positions";

/// The option of `stat` that counts crossings.
pub(crate) const CROSSINGS: &str = "crossings";

/// The file of the topology.
pub(crate) const FILE: &str = "file";

const SIMPLIFY_HELP: Help = Help {
    about: "Remove points from the lines of a topology",
    long_about: "Remove points from the lines of a topology.

Standard output takes the topology that is left (TopoJSON 1.0), with the same objects
and the same transform, as one text. Where something is refused it takes nothing, and
standard error says what. Else standard error takes a report, with a line each as that
of 'mapchain build'; 'removed' are positions that were removed from the arcs that are
written. An arc is reduced once, so that lines which share it go on sharing it. A line
or ring that is left with too few positions is dropped as 'small', and so is a ring
that encloses less than '--min-ring-area'. Any other hole whose outer ring is dropped
is dropped as 'outer'. With '--keep-shapes' the largest outer ring of a feature stays.

A topology that 'mapchain build' wrote without areas becomes, byte for byte, what
'mapchain build' writes of the same files with the areas that are given here, and with
'--no-crossings' and '--keep-shapes' where they are given; and so with '--keep', if one
of these two is given, or no arc ran only along holes that were dropped as 'outer':
'mapchain build' counts such arcs, and that topology has none of them.",
    after: "Example:
  mapchain simplify --min-area 0.0001 map.topojson > small.topojson",
    after_long: "Example:
  mapchain simplify --min-area 0.0001 map.topojson > small.topojson

'mapchain --help' lists the exit statuses, and says where faults are explained.",
};

const GEO_HELP: Help = Help {
    about: "Decode an object of a topology to GeoJSON",
    long_about: "Decode an object of a topology to GeoJSON.

Standard output takes the features of the object (RFC 7946) as one text: those of a
GeometryCollection as a FeatureCollection, any other object as a Feature. Where
something is refused it takes nothing, and standard error says what.",
    after: "Example:
  mapchain geo --object coast map.topojson > coast.json",
    after_long: "Example:
  mapchain geo --object coast map.topojson > coast.json

'mapchain --help' lists the exit statuses, and says where faults are explained.",
};

const OBJECT_HELP: &str = "The name of the object";

const MOST_HELP: &str = "Refuse an object whose features have more than N positions";

const MOST_LONG_HELP: &str =
    "Refuse an object whose features have more than N positions, before anything is written.
A line of a topology can name an arc as often as it likes, so that a small file may
stand for very large features: a bound is for files of unknown origin. N is a whole
number, at most 18446744073709551615. 'mapchain stat --explain' says of each object how
many positions its features have";

const STAT_HELP: Help = Help {
    about: "Count what is in a topology",
    long_about: "Count what is in a topology.

Standard output takes a line each:
  objects    objects, and below a line for each: its name and the number of its features
  arcs       arcs
  positions  positions in these arcs
  grid       whether positions are numbers of a grid: yes or no
  crossings  pairs of segments of arcs that cross, a million at most ('--crossings')
Where something is refused it takes nothing, and standard error says what.",
    after: "Example:
  mapchain stat map.topojson",
    after_long: "Example:
  mapchain stat map.topojson

'mapchain --help' lists the exit statuses, and says where faults are explained.",
};

const CROSSINGS_HELP: &str = "Count the pairs of segments of arcs that cross";

const CROSSINGS_LONG_HELP: &str =
    "Count the pairs of segments of arcs that meet badly: they cross, lie on one another, or
touch but at ends of both. Each pair of places in the arcs counts once, also where two
arcs run alike, and so do arcs that no line uses. It takes the positions of all arcs
and an index of them. '--explain' says of twenty of these pairs where they are, and of
which features";

const FILE_HELP: &str = "A topology (TopoJSON 1.0)";

/// The argument that names the file.
fn file<'a>(alloc: Global) -> Arg<'a>
    ensures { IsRule result file_rule }
{
    Arg::new(alloc, FILE)
        .value_name("FILE")
        .required(true)
        .help(FILE_HELP)
}

/// The command line of `simplify`, with this option that keeps a share.
pub(crate) fn simplify<'a>(alloc: Global, keep: Arg<'a>) -> Result<Command<'a>, AllocError>
    ensures { IsRule keep.entry keep_rule → IfOk result (λ c. IsApp c simplify_app) }
{
    let command = Ok(command(alloc, SIMPLIFY, SIMPLIFY_HELP));
    let command = with_common(alloc, with_reducing(alloc, command, keep));
    with_argument(with_argument(command, quiet(alloc)), file(alloc))
}

/// The option of `geo` that names the object.
fn object<'a>(alloc: Global) -> Arg<'a>
    ensures { IsRule result object_rule }
{
    Arg::new(alloc, OBJECT)
        .long("object")
        .value_name("NAME")
        .required(true)
        .help(OBJECT_HELP)
}

/// The option of `geo` that bounds the positions. It takes any text, as that of an area does.
pub(crate) fn most<'a>(alloc: Global) -> Arg<'a>
    ensures { IsRule result most_rule }
{
    option_with(alloc, MOST, "N", MOST_HELP, MOST_LONG_HELP)
}

/// The command line of `geo`, with this option that bounds the positions.
pub(crate) fn geo<'a>(alloc: Global, most: Arg<'a>) -> Result<Command<'a>, AllocError>
    ensures { IsRule most.entry most_rule → IfOk result (λ c. IsApp c geo_app) }
{
    let command = with_argument(Ok(command(alloc, GEO, GEO_HELP)), object(alloc));
    let command = with_common(alloc, with_argument(command, most));
    with_argument(command, file(alloc))
}

/// The option of `stat` that counts crossings.
fn crossings<'a>(alloc: Global) -> Arg<'a>
    ensures { IsRule result crossings_rule }
{
    flag(alloc, CROSSINGS, CROSSINGS_HELP, CROSSINGS_LONG_HELP)
}

/// The command line of `stat`.
pub(crate) fn stat<'a>(alloc: Global) -> Result<Command<'a>, AllocError>
    ensures { IfOk result (λ c. IsApp c stat_app) }
{
    let command = with_argument(Ok(command(alloc, STAT, STAT_HELP)), crossings(alloc));
    with_argument(with_common(alloc, command), file(alloc))
}

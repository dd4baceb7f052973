// The words that the program takes, and its help.
ghost use Rattle.std.specs.Prelude.{◌≡◌, IfOk, pos};
ghost use Rattle.clap.specs.declared.builder.value_parser.ValueParser.TheVariants.{Signed};
ghost use Rattle.clap.specs.Simple.{App, with_rule, with_subcommand};
ghost use Rattle.clap.specs.Walk.{Rule};
ghost use Rattle.command_words.specs.CommandLine as spec;
ghost use Rattle.command_words.specs.CommandLine.{IsApp, IsRule, area_rule, bare_app, build_app, exact_rule, grid_rule};
ghost use Rattle.command_words.specs.CommandLine.{explain_rule, keep_rule, keep_shapes_rule, layers_rule, most_rule, no_crossings_rule, output_rule, program_app, quiet_rule, report_rule, ring_area_rule};

use crate::commands::{Help, command, flag, option_with};
use crate::file_usage::{GEO, SIMPLIFY, STAT, geo, most, simplify, stat};
use clap::builder::ValueParser;
use clap::{Arg, Command, value_parser};
use std::alloc::{AllocError, Global};

/// The command that builds a topology.
pub(crate) const BUILD: &str = "build";

/// The layer words of `build`.
pub(crate) const LAYERS: &str = "layers";

/// The option of `build` that snaps positions to a grid.
pub(crate) const GRID: &str = "grid";

/// The option of `build` and `simplify` that removes points from lines.
pub(crate) const AREA: &str = "min-area";

/// The option of `build` and `simplify` that keeps a share of the points.
pub(crate) const KEEP: &str = "keep";

/// The option of `build` and `simplify` that leaves out small rings.
pub(crate) const RING_AREA: &str = "min-ring-area";

/// The option of `build` and `simplify` that keeps lines from crossing.
pub(crate) const NO_CROSSINGS: &str = "no-crossings";

/// The option of `build` and `simplify` that keeps shapes.
pub(crate) const KEEP_SHAPES: &str = "keep-shapes";

/// The option of `build` that refuses coordinates that would have to be rounded.
pub(crate) const EXACT: &str = "exact";

/// The option of each command that names the file for its output.
pub(crate) const OUTPUT: &str = "output";

/// The option of each command that names the file for a report of the run.
pub(crate) const REPORT: &str = "report";

/// The option of each command that explains the run in words.
pub(crate) const EXPLAIN: &str = "explain";

/// The option of `build` and `simplify` that leaves out the report.
pub(crate) const QUIET: &str = "quiet";

/// The version of the program.
const VERSION: &str = "1.8.0";

const PROGRAM_HELP: Help = Help {
    about: "Build TopoJSON topologies from GeoJSON files, simplify them, and decode them again",
    long_about: "Build TopoJSON topologies from GeoJSON files, simplify them, and decode them again.

A topology is a map in which a line that several shapes share, as a border, is
stored once, as a numbered arc, and each shape lists the arcs that it runs along.",
    after: "'mapchain build --help' and the like say what is read and written, with an example.",
    after_long: "Exit status:
  0  done
  1  the contents of a file are refused
  2  the words of the command line are refused
  3  a file can't be opened or read, the output can't be written, or memory ran out
Standard error says what is wrong, but may be silent where memory ran out. Its codes,
as 'G8 ShortRing', are explained in docs/FAULTS.md, with what to do; '--explain' says
what is wrong in words, and where.

'mapchain build --help' and the like say what is read and written, with an example.",
};

const BUILD_HELP: Help = Help {
    about: "Build a topology from GeoJSON files",
    long_about: "Build a topology from GeoJSON files.

Each file (RFC 7946) is a layer of the map. Standard output takes the topology
(TopoJSON 1.0) as one text, with its 'bbox', the bounds of all its positions. Where
something is refused it takes nothing, and standard error says what. Else standard
error takes a report, with a line each:
  rounded  coordinates that were rounded to nine decimal places
  extra    positions with more than x and y, as a height: the rest is left out
  empty    empty arrays in the place of coordinates
  dropped  lines that aren't written, each reported on a line of its own below
  arcs     arcs that are written
  kept     positions in these arcs
  removed  positions that '--min-area' or '--keep' removed from these arcs
  chosen   twice the area that '--keep' chose, in square units of 10^-9

A border that lines and rings share, be it between layers, is one arc. Positions that
are equal and follow each other count as one. A line that is left with one position,
or a ring with fewer than four, is dropped as 'collapsed', or as 'small' where that is
so only because points were removed. A ring that encloses less than '--min-ring-area'
is dropped as 'small', too. Any other hole whose outer ring is dropped is dropped as
'outer'. With '--keep-shapes' the largest outer ring of a feature stays.",
    after: "Example:
  mapchain build coast=coast.json rivers=rivers.json > map.topojson",
    after_long: "Example:
  mapchain build coast=coast.json rivers=rivers.json > map.topojson

'mapchain --help' lists the exit statuses, and says where faults are explained.",
};

const LAYERS_HELP: &str = "A layer: its name in the topology, '=' and its file";

const LAYERS_LONG_HELP: &str = "A layer: its name in the topology, '=' and its file.
The first '=' ends the name, so a path may have one. No two names may be equal";

const GRID_HELP: &str = "Snap positions to a grid with N cells along each axis";

const GRID_LONG_HELP: &str =
    "Snap positions to a grid with N cells along each axis, from 2 to 1000000000:
10000 suits a screen, 1000000 print. Positions are written as numbers of cells,
in arcs as differences from the position before, so the file gets smaller";

const AREA_HELP: &str = "Remove points whose triangle has less than the area A";

const AREA_LONG_HELP: &str =
    "Remove points from lines: each that forms a triangle of less than A with its two
neighbours, the least first. A is in square units of the coordinates, from 0 to
10^18, with at most 18 decimal places. Without this option it is 0, and no point
is removed. A shared border is reduced once, so it stays shared. Lines may
cross afterwards, unless '--no-crossings' is given";

const KEEP_HELP: &str = "Remove points, but keep at least the share P/Q of them";

const KEEP_LONG_HELP: &str =
    "Remove points from lines as '--min-area' does, with the greatest area that keeps at
least the share P/Q of the points between the ends of arcs: 1/10 keeps a tenth, or
more where points go at the same area. P and Q are whole numbers, Q from 1 to
1000000000 and P at most Q. The share is counted over all arcs, before small lines
are dropped. The report gives the area in a line 'chosen T': T is twice the area, in
square units of 10^-9; '--explain' says the area as '--min-area' takes it. This option
can't stand beside '--min-area'. Beside '--no-crossings' or '--keep-shapes' points that
are left at any area count as well, and more may stay than was asked";

const RING_AREA_HELP: &str = "Leave out rings that enclose less than the area B";

const RING_AREA_LONG_HELP: &str =
    "Leave out rings that enclose less than B once points were removed: small islands
and lakes. Beside '--no-crossings' or '--keep-shapes' they go before that as well, so
that they hold no point, and none of theirs counts for '--keep'. B is in square units
of the coordinates, from 0 to 10^18, with at most 18 decimal places. Without this
option it is 0, and no ring is left out for its area. Each ring counts by itself: the
area of a hole isn't taken off that of the ring around it. Lines that are no rings
stay, also those that close";

const NO_CROSSINGS_HELP: &str = "Remove no point where lines would then cross";

const NO_CROSSINGS_LONG_HELP: &str =
    "Of the points that '--min-area' removes leave those where lines would then cross, lie on
one another, or touch but at an end of both. A point that is left so goes later, once
what holds it is gone. Where no lines crossed before, a ring that encloses something
stays, as a triangle at least, and so do slivers between two borders: small islands go
by '--min-ring-area'. Lines that crossed before go on crossing: nothing is repaired";

const KEEP_SHAPES_HELP: &str = "Keep the largest outer ring of each feature";

const KEEP_SHAPES_LONG_HELP: &str =
    "Of the points that '--min-area' removes leave those without which the largest outer ring
of a feature would have fewer than four positions, and never drop this ring, even where
it encloses less than '--min-ring-area'. It is the largest before any point is removed,
of the outer rings that have four positions or more, and the first of equals. A feature
that has none may vanish. Without '--no-crossings' lines may come to cross: an island
stays where the coast beside it goes";

const OUTPUT_HELP: &str = "Write the output to a file in place of standard output";

const OUTPUT_LONG_HELP: &str =
    "Write the output to FILE in place of standard output, which is '-'. It goes to a new file
beside FILE, which takes its name when it is whole and on the disk. Until then FILE stays
as it was, whatever fails, so FILE may be an input, too. The new file has FILE's owner,
group and permissions, or its group may do nothing where it can't have the first two; other
hard links keep the old text, and access control lists are lost. But a device, as
/dev/null, and a pipe are written themselves, and so is the file that a standard stream
goes to, by a link as /dev/stdout: what these took stays there, whatever fails";

const REPORT_HELP: &str = "Write a report of the run to a file, as a JSON object";

const REPORT_LONG_HELP: &str =
    "Write a report of the run to FILE when the run ends, whether it is done or not, as a
JSON object: the exit status, the fault, the counts, how many features lost all of their
geometry, and all lines of '--explain'. docs/FORMATS.md describes it. FILE is replaced,
or written itself, as by '-o', and left as it is where it is an input or the FILE of '-o'";

const EXPLAIN_HELP: &str = "Explain in words what is wrong, or what was left out";

const EXPLAIN_LONG_HELP: &str =
    "Say in words, on standard error below the line of a fault, what is wrong and where, as
far as that can be found out. Where all is done, say below the report, if there is one,
how much was kept, which area was chosen for a share, which features lost all of their
geometry, and what was left out of the layers (ten lines of a kind, and how many more);
of 'mapchain stat', what is in the topology. This option may stand before the command's
name, too, and MAPCHAIN_EXPLAIN=1 in the environment asks for it in each run";

const QUIET_HELP: &str = "Leave out the report, where all is done";

const QUIET_LONG_HELP: &str =
    "Leave out the report on standard error, where all is done. What is wrong is said as
ever, and so is what '--explain' and '--report' ask for";

const EXACT_HELP: &str = "Refuse coordinates that would have to be rounded";

const EXACT_LONG_HELP: &str =
    "Refuse a file with a coordinate that isn't a whole multiple of 0.000000001.
Without this option such a coordinate is rounded to the nearest multiple,
halves away from zero, and counted in the report";

/// The program without its commands.
fn bare<'a>(alloc: Global) -> Result<Command<'a>, AllocError>
    ensures { IfOk result (λ c. IsApp c bare_app) }
{
    command(alloc, "mapchain", PROGRAM_HELP)
        .version(VERSION)
        .no_binary_name(true)
        .subcommand_required(true)
        .bin_name("mapchain")
}

/// A command with this one below it, if there was memory for both and is for that.
fn with_command<'a>(
    command: Result<Command<'a>, AllocError>,
    below: Result<Command<'a>, AllocError>,
) -> Result<Command<'a>, AllocError>
    ensures { (app sub : App) → IfOk command.entry (λ c. IsApp c app) → IfOk below.entry (λ c. IsApp c sub) → IfOk result (λ c. IsApp c (with_subcommand app sub.top)) }
{
    command?.subcommand(below?)
}

/// A command with this argument, if there was memory for the command and is for that.
pub(crate) fn with_argument<'a>(
    command: Result<Command<'a>, AllocError>,
    argument: Arg<'a>,
) -> Result<Command<'a>, AllocError>
    ensures { (app : App) (rule : Rule) → IfOk command.entry (λ c. IsApp c app) → IsRule argument.entry rule → IfOk result (λ c. IsApp c (with_rule app rule)) }
{
    command?.arg(argument)
}

/// The command line of the program, with these options of `build` and of `simplify` that keep a share, and of `geo` that bounds the positions.
fn program_with<'a>(
    alloc: Global,
    build_keep: Arg<'a>,
    simplify_keep: Arg<'a>,
    most: Arg<'a>,
) -> Result<Command<'a>, AllocError>
    ensures { IsRule build_keep.entry keep_rule → IsRule simplify_keep.entry keep_rule → IsRule most.entry most_rule → IfOk result (λ c. IsApp c program_app) }
{
    let program = with_command(bare(alloc), build(alloc, build_keep));
    let program = with_command(program, simplify(alloc, simplify_keep));
    let program = with_command(program, geo(alloc, most));
    with_command(program, stat(alloc))
}

/// The command of this name, as it is called, if there is one.
pub(crate) fn command_named<'a>(
    alloc: Global,
    name: &str,
) -> Result<Option<Command<'a>>, AllocError> {
    let command = match name {
        BUILD => build(alloc, keep(alloc))?.bin_name("mapchain build")?,
        SIMPLIFY => simplify(alloc, keep(alloc))?.bin_name("mapchain simplify")?,
        GEO => geo(alloc, most(alloc))?.bin_name("mapchain geo")?,
        STAT => stat(alloc)?.bin_name("mapchain stat")?,
        _ => return Ok(None),
    };
    Ok(Some(command))
}

/// The command line of the program. It takes a share beside an area, which `build_request` and `simplify_request` refuse, and any text for a
/// number of positions, which `geo_request` reads.
pub(crate) fn program<'a>(alloc: Global) -> Result<Command<'a>, AllocError>
    ensures { IfOk result (λ c. IsApp c program_app) }
{
    program_with(alloc, keep(alloc), keep(alloc), most(alloc))
}

/// The command line of the program, which refuses a share beside an area, and a number of positions that is none. What is said of refused words
/// is said by it.
pub(crate) fn telling_program<'a>(alloc: Global) -> Result<Command<'a>, AllocError> {
    let build_keep = keep(alloc).conflicts_with(AREA)?;
    let simplify_keep = keep(alloc).conflicts_with(AREA)?;
    let most = most(alloc).value_parser(value_parser!(u64));
    program_with(alloc, build_keep, simplify_keep, most)
}

/// The numbers of cells that a grid may have along each axis.
fn numbers_of_cells<'a>() -> ValueParser<'a>
    ensures { result ≡ Signed (pos 2) (pos 1000000000) }
{
    value_parser!(u32).range(2..=1_000_000_000)
}

/// The option of `build` that snaps positions to a grid.
fn grid<'a>(alloc: Global) -> Arg<'a>
    ensures { IsRule result grid_rule }
{
    option_with(alloc, GRID, "N", GRID_HELP, GRID_LONG_HELP).value_parser(numbers_of_cells())
}

/// The option that removes points from lines. It takes any text: which areas there are isn't judged here.
fn area<'a>(alloc: Global) -> Arg<'a>
    ensures { IsRule result area_rule }
{
    option_with(alloc, AREA, "A", AREA_HELP, AREA_LONG_HELP)
}

/// The option that keeps a share of the points. It takes any text, as that of the area does.
fn keep<'a>(alloc: Global) -> Arg<'a>
    ensures { IsRule result keep_rule }
{
    option_with(alloc, KEEP, "P/Q", KEEP_HELP, KEEP_LONG_HELP)
}

/// The option that leaves out small rings. It takes any text, as that of the area does.
fn ring_area<'a>(alloc: Global) -> Arg<'a>
    ensures { IsRule result ring_area_rule }
{
    option_with(alloc, RING_AREA, "B", RING_AREA_HELP, RING_AREA_LONG_HELP)
}

/// The option that keeps lines from crossing.
fn no_crossings<'a>(alloc: Global) -> Arg<'a>
    ensures { IsRule result no_crossings_rule }
{
    flag(
        alloc,
        NO_CROSSINGS,
        NO_CROSSINGS_HELP,
        NO_CROSSINGS_LONG_HELP,
    )
}

/// The option that keeps shapes.
fn keep_shapes<'a>(alloc: Global) -> Arg<'a>
    ensures { IsRule result keep_shapes_rule }
{
    flag(alloc, KEEP_SHAPES, KEEP_SHAPES_HELP, KEEP_SHAPES_LONG_HELP)
}

/// The option that names the file for the output.
fn output<'a>(alloc: Global) -> Arg<'a>
    ensures { IsRule result output_rule }
{
    option_with(alloc, OUTPUT, "FILE", OUTPUT_HELP, OUTPUT_LONG_HELP).short('o')
}

/// The option that names the file for a report of the run.
fn report<'a>(alloc: Global) -> Arg<'a>
    ensures { IsRule result report_rule }
{
    option_with(alloc, REPORT, "FILE", REPORT_HELP, REPORT_LONG_HELP)
}

/// The option that explains the run in words.
fn explain<'a>(alloc: Global) -> Arg<'a>
    ensures { IsRule result explain_rule }
{
    flag(alloc, EXPLAIN, EXPLAIN_HELP, EXPLAIN_LONG_HELP)
}

/// A command with the options that each command has.
pub(crate) fn with_common<'a>(
    alloc: Global,
    command: Result<Command<'a>, AllocError>,
) -> Result<Command<'a>, AllocError>
    ensures { (app : App) → IfOk command.entry (λ c. IsApp c app) → IfOk result (λ c. IsApp c (spec.with_common app)) }
{
    let command = with_argument(command, output(alloc));
    let command = with_argument(command, report(alloc));
    with_argument(command, explain(alloc))
}

/// A command with the options that say what is reduced, of which this one keeps a share.
pub(crate) fn with_reducing<'a>(
    alloc: Global,
    command: Result<Command<'a>, AllocError>,
    keep: Arg<'a>,
) -> Result<Command<'a>, AllocError>
    ensures { (app : App) → IfOk command.entry (λ c. IsApp c app) → IsRule keep.entry keep_rule → IfOk result (λ c. IsApp c (spec.with_reducing app)) }
{
    let command = with_argument(command, area(alloc));
    let command = with_argument(command, keep);
    let command = with_argument(command, ring_area(alloc));
    let command = with_argument(command, no_crossings(alloc));
    with_argument(command, keep_shapes(alloc))
}

/// The option of `build` and `simplify` that leaves out the report.
pub(crate) fn quiet<'a>(alloc: Global) -> Arg<'a>
    ensures { IsRule result quiet_rule }
{
    flag(alloc, QUIET, QUIET_HELP, QUIET_LONG_HELP).short('q')
}

/// The option of `build` that refuses coordinates that would have to be rounded.
fn exact<'a>(alloc: Global) -> Arg<'a>
    ensures { IsRule result exact_rule }
{
    flag(alloc, EXACT, EXACT_HELP, EXACT_LONG_HELP)
}

/// The layer words of `build`.
fn layers<'a>(alloc: Global) -> Arg<'a>
    ensures { IsRule result layers_rule }
{
    Arg::new(alloc, LAYERS)
        .value_name("NAME=PATH")
        .required(true)
        .num_args(1..)
        .help(LAYERS_HELP)
        .long_help(LAYERS_LONG_HELP)
}

/// The command line of `build`, with this option that keeps a share.
fn build<'a>(alloc: Global, keep: Arg<'a>) -> Result<Command<'a>, AllocError>
    ensures { IsRule keep.entry keep_rule → IfOk result (λ c. IsApp c build_app) }
{
    let command = with_argument(Ok(command(alloc, BUILD, BUILD_HELP)), grid(alloc));
    let command = with_reducing(alloc, command, keep);
    let command = with_common(alloc, with_argument(command, exact(alloc)));
    with_argument(with_argument(command, quiet(alloc)), layers(alloc))
}

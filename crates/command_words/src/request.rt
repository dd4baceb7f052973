// What words ask for.
ghost use Rattle.std.specs.Prelude.{◌≡◌, ◌⊎◌, IfErr, IfOk, List, MatchResult, None, Option, Some, [], map, option_map, true, unwrap_or};
ghost use Rattle.std.specs.String.{string_bytes};
ghost use Rattle.clap.specs.Kinds.{HasKind, Kinds};
ghost use Rattle.clap.specs.Simple.{subcommand_of, subcommand_rows_of};
ghost use Rattle.clap.specs.Values.{kind_of};
ghost use Rattle.clap.specs.Walk.{Row, Text, first_of};
ghost use Rattle.clap.specs.declared.error.kind.ErrorKind.TheVariants.{OutOfMemory};
ghost use Rattle.command_words.specs.declared.words_fault.WordsFault.TheVariants.{GridRange, Memory};
ghost use Rattle.command_words.specs.Asked as spec;
ghost use Rattle.command_words.specs.Asked.{Answers, Ordered, asked, asked_in, build_in, detail, detail_of, entries_of, geo_in, grid_in, kinds_of};
ghost use Rattle.command_words.specs.Asked.{most_in, order_of, ordered, simplify_in};
ghost use Rattle.command_words.specs.CommandLine.{IsApp, program_app};
ghost use Rattle.command_words.specs.Faults as faults;
ghost use Rattle.command_words.specs.Faults.{IsBuildFault, IsCommandFault, IsFaultBy, IsFaultOf};
ghost use Rattle.command_words.specs.Written.{IsWritable, written};

use crate::file_usage::{CROSSINGS, FILE, GEO, MOST, OBJECT, SIMPLIFY, STAT};
use crate::layer_words::names_and_paths;
use crate::refusing::refusal;
use crate::usage::{
    AREA, BUILD, EXACT, EXPLAIN, GRID, KEEP, KEEP_SHAPES, LAYERS, NO_CROSSINGS, OUTPUT, QUIET,
    REPORT, RING_AREA, program,
};
use crate::words_fault::WordsFault;
use clap::error::ErrorKind;
use clap::{ArgMatches, Command, Error};
use std::alloc::{AllocError, Global};

/// What the words of a command line ask for.
#[derive(Drop)]
pub enum Request<'a> {
    /// The topology of the layers with these names, each in the file of this path.
    Build {
        layers: Vec<(&'a str, &'a str)>,
        /// Coordinates that would have to be rounded are refused.
        exact: bool,
        /// The number of grid cells along each axis, from 2 to 10^9, that positions are snapped to, if any.
        grid: Option<u32>,
        /// Points are removed whose triangle is smaller than the area of this text, in square units of the coordinates.
        area: &'a str,
        /// The least share of the points between the ends of arcs that stay, a text `P/Q`, in place of an area, if any.
        keep: Option<&'a str>,
        /// Rings are left out that enclose less than the area of this text, in the same units.
        ring_area: &'a str,
        /// No point is removed where lines would then cross.
        no_crossings: bool,
        /// Each feature with an outer ring of four positions keeps the largest of these.
        keep_shapes: bool,
    },
    /// What is left of the topology in the file of this path where its lines are reduced.
    Simplify {
        /// Points are removed whose triangle is smaller than the area of this text, in square units of the coordinates.
        area: &'a str,
        /// The least share of the points between the ends of arcs that stay, a text `P/Q`, in place of an area, if any.
        keep: Option<&'a str>,
        /// Rings are left out that enclose less than the area of this text, in the same units.
        ring_area: &'a str,
        /// No point is removed where lines would then cross.
        no_crossings: bool,
        /// Each feature with an outer ring of four positions keeps the largest of these.
        keep_shapes: bool,
        path: &'a str,
    },
    /// The features of the object of this name, of the topology in the file of this path.
    Geo {
        name: &'a str,
        /// As many positions as they may have, if that is bounded.
        most: Option<u64>,
        path: &'a str,
    },
    /// What is in the topology in the file of this path.
    Stat {
        /// The pairs of segments of its arcs that meet badly are counted, too.
        crossings: bool,
        path: &'a str,
    },
}

/// What the words of a command line ask for, where its output goes, and what is to be said of the run.
#[derive(Drop)]
pub struct Order<'a> {
    pub request: Request<'a>,
    /// The file that takes the output in place of standard output, if any.
    pub output: Option<&'a str>,
    /// The file that takes a report of the run, if any.
    pub report: Option<&'a str>,
    /// Whether the run is explained in words.
    pub explains: bool,
    /// Whether the report is left out where all is done.
    pub quiet: bool,
}

/// The grid that is asked for, if any. `clap` refuses a number out of range, but none of its contracts says so of a command below the
/// program, so the range is looked at here once more.
fn grid_of(arguments: &ArgMatches<'_>) -> Result<Option<u32>, WordsFault>
    ensures grid { Answers (grid_in (entries_of arguments.now)) (λ grid. grid) result }
    ensures fault { IfErr result (λ e. e ≡ GridRange) }
{
    match arguments.try_get_one::<u32>(GRID) {
        Ok(None) => Ok(None),
        Ok(Some(cells)) => {
            if 2 <= cells && cells <= 1_000_000_000 {
                Ok(Some(cells))
            } else {
                Err(WordsFault::GridRange)
            }
        }
        Err(_) => Err(WordsFault::GridRange),
    }
}

/// The text of an argument, if it is given.
fn given<'a>(arguments: &ArgMatches<'a>, id: &str) -> Option<&'a str>
    ensures { option_map (λ t. t.now) result ≡ first_of id.now (entries_of arguments.now) }
{
    arguments.get_str(id)
}

/// The text of an argument, or another where it is not given.
fn text_or<'a>(arguments: &ArgMatches<'a>, id: &str, other: &'static str) -> &'a str
    ensures { result.now ≡ unwrap_or (first_of id.now (entries_of arguments.now)) other.now }
{
    given(arguments, id).unwrap_or(other)
}

/// Whether a flag is given.
fn is_set(arguments: &ArgMatches<'_>, id: &str) -> bool
    ensures { result ≡ spec.is_set id.now (entries_of arguments.now) }
{
    text_or(arguments, id, "") == "true"
}

/// The whole number that a text is, if it is one that is taken.
fn whole_number(text: &str) -> Option<u64>
    ensures { result ≡ spec.whole_number text.now }
{
    text.parse::<u64>().ok()
}

/// The most positions that are asked for, if any; none where they are no number.
fn most_of(arguments: &ArgMatches<'_>) -> Option<Option<u64>>
    ensures { result ≡ most_in (entries_of arguments.now) }
{
    match given(arguments, MOST) {
        None => Some(None),
        Some(text) => Some(Some(whole_number(text)?)),
    }
}

/// Whether an area and a share are given both.
fn has_both(arguments: &ArgMatches<'_>) -> bool
    ensures { result ≡ spec.has_both (entries_of arguments.now) }
{
    given(arguments, AREA).is_some() && given(arguments, KEEP).is_some()
}

/// What the command that builds a topology asks for, unless it is given an area and a share both.
fn build_request<'a>(
    alloc: Global,
    arguments: &ArgMatches<'a>,
) -> Result<Option<Request<'a>>, WordsFault>
    ensures asked { MatchResult result (λ found. build_in (entries_of arguments.now) ≡ option_map asked found)
        (λ e. (e ≡ Memory) ⊎ (build_in (entries_of arguments.now) ≡ None)) }
    ensures both { IfOk result (λ found. found ≡ None → spec.has_both (entries_of arguments.now) ≡ true) }
    ensures fault { IfErr result (IsBuildFault (entries_of arguments.now)) }
{
    if has_both(arguments) {
        return Ok(None);
    }
    let grid = grid_of(arguments)?;
    let words = arguments.get_strs(LAYERS).unwrap_or(&[]);
    let layers = names_and_paths(alloc, words, is_set(arguments, EXPLAIN))?;
    let exact = is_set(arguments, EXACT);
    let area = text_or(arguments, AREA, "0");
    let keep = given(arguments, KEEP);
    let ring_area = text_or(arguments, RING_AREA, "0");
    let no_crossings = is_set(arguments, NO_CROSSINGS);
    let keep_shapes = is_set(arguments, KEEP_SHAPES);
    Ok(Some(Request::Build {
        layers,
        exact,
        grid,
        area,
        keep,
        ring_area,
        no_crossings,
        keep_shapes,
    }))
}

/// What the command that simplifies a topology asks for, unless it is given an area and a share both.
fn simplify_request<'a>(arguments: &ArgMatches<'a>) -> Option<Request<'a>>
    ensures asked { simplify_in (entries_of arguments.now) ≡ option_map asked result }
    ensures both { result ≡ None → spec.has_both (entries_of arguments.now) ≡ true }
{
    if has_both(arguments) {
        return None;
    }
    Some(Request::Simplify {
        area: text_or(arguments, AREA, "0"),
        keep: given(arguments, KEEP),
        ring_area: text_or(arguments, RING_AREA, "0"),
        no_crossings: is_set(arguments, NO_CROSSINGS),
        keep_shapes: is_set(arguments, KEEP_SHAPES),
        path: text_or(arguments, FILE, ""),
    })
}

/// What the command that decodes an object asks for, unless the positions that it is given are no number.
fn geo_request<'a>(arguments: &ArgMatches<'a>) -> Option<Request<'a>>
    ensures asked { geo_in (entries_of arguments.now) ≡ option_map asked result }
    ensures unread { result ≡ None → most_in (entries_of arguments.now) ≡ None }
{
    let most = most_of(arguments)?;
    Some(Request::Geo {
        name: text_or(arguments, OBJECT, ""),
        most,
        path: text_or(arguments, FILE, ""),
    })
}

/// What a command of this name asks for, if there is one.
fn request_in<'a>(
    alloc: Global,
    name: &str,
    arguments: &ArgMatches<'a>,
) -> Result<Option<Request<'a>>, WordsFault>
    ensures asked { MatchResult result (λ found. asked_in (name.now, entries_of arguments.now) ≡ option_map asked found)
        (λ e. (e ≡ Memory) ⊎ (asked_in (name.now, entries_of arguments.now) ≡ None)) }
    ensures refused { IfOk result (λ found. found ≡ None → faults.is_refused (Some (name.now, entries_of arguments.now)) ≡ true) }
    ensures fault { IfErr result (IsCommandFault (Some (name.now, entries_of arguments.now))) }
{
    if name == BUILD {
        return build_request(alloc, arguments);
    }
    if name == SIMPLIFY {
        return Ok(simplify_request(arguments));
    }
    if name == GEO {
        return Ok(geo_request(arguments));
    }
    if name == STAT {
        let crossings = is_set(arguments, CROSSINGS);
        let path = text_or(arguments, FILE, "");
        return Ok(Some(Request::Stat { crossings, path }));
    }
    Ok(None)
}

/// Whether this kind of error prints help.
fn is_help(kind: ErrorKind) -> bool
    ensures { result ≡ faults.is_help kind }
{
    matches!(kind, ErrorKind::DisplayHelp | ErrorKind::DisplayVersion)
}

/// Whether this kind of error comes for want of memory.
fn is_memory(kind: ErrorKind) -> bool
    ensures { result ≡ faults.is_memory kind }
{
    matches!(kind, ErrorKind::OutOfMemory)
}

/// What is said of words by this error of theirs.
fn fault_by(alloc: Global, words: &[String], error: Error) -> Result<WordsFault, AllocError>
    ensures memory { kind_of error ≡ OutOfMemory → IfOk result (λ f. f ≡ Memory) }
    ensures fault { (kinds : Kinds) (found : Option (Text × List Row)) → HasKind kinds error → IfOk result (IsFaultBy kinds found) }
{
    let kind = error.kind();
    if is_memory(kind) {
        return Ok(WordsFault::Memory);
    }
    if is_help(kind) {
        return Ok(WordsFault::Help(error));
    }
    refusal(alloc, words)
}

/// What `clap` finds in the words.
fn matches_in<'a>(
    alloc: Global,
    program: &mut Command<'a>,
    words: &'a [String],
) -> Result<ArgMatches<'a>, WordsFault>
    requires { IsApp program.old program_app }
    ensures { MatchResult result
        (λ m. (kinds_of (map string_bytes words.now) ≡ []) × (subcommand_rows_of m ≡ subcommand_of program_app (map string_bytes words.now)))
        (λ e. ((e ≡ Memory) ⊎ (order_of (map string_bytes words.now) ≡ None)) × IsFaultOf (map string_bytes words.now) e) }
{
    match program.try_get_matches_from_mut(words) {
        Ok(matches) => Ok(matches),
        Err(error) => Err(fault_by(alloc, words, error)?),
    }
}

/// What the words ask for by this command line.
fn read_by<'a>(
    alloc: Global,
    program: &mut Command<'a>,
    words: &'a [String],
) -> Result<Order<'a>, WordsFault>
    requires { IsApp program.old program_app }
    ensures exact { Answers (order_of (map string_bytes words.now)) ordered result }
    ensures detail { IfOk result (λ order. detail_of (map string_bytes words.now) ≡ Some (detail order)) }
    ensures fault { IfErr result (IsFaultOf (map string_bytes words.now)) }
{
    let matches = matches_in(alloc, program, words)?;
    if let Some((name, arguments)) = matches.subcommand() {
        if let Some(request) = request_in(alloc, name, arguments)? {
            return Ok(Order {
                request,
                output: given(arguments, OUTPUT),
                report: given(arguments, REPORT),
                explains: is_set(arguments, EXPLAIN),
                quiet: is_set(arguments, QUIET),
            });
        }
    }
    Err(refusal(alloc, words)?)
}

/// What the words after the program's name ask for. An option whose value may begin with a hyphen, and that value, are one word, as
/// `joined_words` makes them.
pub fn read_words<'a>(alloc: Global, words: &'a [String]) -> Result<Order<'a>, WordsFault>
    // The order is what the words ask for by the command line, and where they ask for nothing, or memory runs out, there is none.
    ensures exact { Answers (order_of (map string_bytes words.now)) ordered result }
    // What is to be said of the run is what the words ask for.
    ensures detail { IfOk result (λ order. detail_of (map string_bytes words.now) ≡ Some (detail order)) }
    // Help is printed for words that ask for it. Else they are refused, or of the arguments of `build` it is said what is the first fault.
    ensures fault { IfErr result (IsFaultOf (map string_bytes words.now)) }
    // Words that are written for a request and the file of its output ask for both.
    ensures written { (o : Ordered) → IsWritable o.0 → map string_bytes words.now ≡ written o → Answers (Some o) ordered result }
{
    let mut program = program(alloc)?;
    read_by(alloc, &mut program, words)
}

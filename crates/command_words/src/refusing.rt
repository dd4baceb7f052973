// What is said of words that are refused.
ghost use Rattle.std.specs.Prelude.{◌≡◌, ◌⊎◌, IfOk};
ghost use Rattle.clap.specs.declared.error.Error.{Error as ClapError};
ghost use Rattle.command_words.specs.declared.words_fault.WordsFault.TheVariants.{Memory, Refused};

use crate::naming::is_shown;
use crate::usage::{command_named, telling_program};
use crate::words_fault::WordsFault;
use clap::error::ErrorKind;
use clap::{Command, Error};
use std::alloc::{AllocError, Global};

/// What to write in place of options that count points by area in other tools.
const AREA: &str = "'--min-area A' of 'build' or 'simplify' removes points by area";

/// What to write in place of options that count points by their share.
const SHARE: &str = "'--keep 1/10' of 'build' or 'simplify' keeps a tenth of the points";

/// What to write in place of options that measure areas on a sphere, and of `-simplify`.
const SPHERE: &str = "areas are planar: '--min-area A', or for a tenth of the points '--keep 1/10'";

/// What to write in place of options that leave out small rings.
const RINGS: &str = "'--min-ring-area B' leaves out small rings, also those with neighbours";

/// What to write in place of commands that merge shapes.
const MERGE: &str = "no command merges shapes; 'topomerge' takes topologies of 'mapchain build'";

/// What to do about lines that end so, if they don't say so: in the words of other tools, too, as of topojson's commands.
const TIPS: [(&str, &str); 27] = [
    (
        "for '--grid <N>': invalid digit found in string",
        "N is a number of cells, in digits alone, as 10000",
    ),
    (
        "argument '--grid' found",
        "only 'mapchain build' takes a grid: decode the objects by 'mapchain geo', and build those",
    ),
    (
        "'--quantization' found",
        "'--grid N' of 'mapchain build' is a grid of N cells, as 10000",
    ),
    ("'-p' found", AREA),
    ("'--planar-area' found", AREA),
    ("'-P' found", SHARE),
    ("'--planar-quantile' found", SHARE),
    ("'-s' found", SPHERE),
    ("'-S' found", SPHERE),
    ("'--simplify' found", SPHERE),
    ("'--spherical-area' found", SPHERE),
    ("'--spherical-quantile' found", SPHERE),
    ("'-f' found", RINGS),
    ("'-F' found", RINGS),
    ("'--filter-detached' found", RINGS),
    ("'--filter-all' found", RINGS),
    ("'-l' found", "'mapchain stat FILE' lists the objects"),
    (
        "'geo2topo'",
        "write 'mapchain build NAME=PATH', and '--grid N' for '-q'",
    ),
    (
        "'toposimplify'",
        "write 'mapchain simplify --min-area A FILE', or '--keep P/Q'",
    ),
    ("'topo2geo'", "write 'mapchain geo --object NAME FILE'"),
    (
        "'topoquantize'",
        "a grid is laid where layers are built: 'mapchain build --grid N NAME=PATH'",
    ),
    ("'topomerge'", MERGE),
    ("'merge'", MERGE),
    ("'info'", "write 'mapchain stat FILE'"),
    ("--object <NAME>", "'mapchain stat FILE' lists the objects"),
    ("  <FILE>", "what is piped in has the path /dev/stdin"),
    (
        "  <NAME=PATH>...",
        "name each file, as coast=coast.json; what is piped in has the path /dev/stdin",
    ),
];

/// What to do about words that are refused by this line, if the line doesn't say so.
fn tip_of(line: &str) -> Option<&'static str> {
    for (end, tip) in &TIPS {
        if line.ends_with(end) {
            return Some(*tip);
        }
    }
    None
}

/// The command of this name as it is called, or where there is none the program, if the line refuses the name.
fn command_of<'a>(
    alloc: Global,
    name: &str,
    kind: ErrorKind,
) -> Result<Option<Command<'a>>, AllocError> {
    if matches!(kind, ErrorKind::InvalidSubcommand) {
        return Ok(Some(telling_program(alloc)?));
    }
    command_named(alloc, name)
}

/// What is said of words of this command by this error of theirs: with what to do about them, where that is known.
fn told(alloc: Global, command: &str, error: Error) -> Result<Error, AllocError> {
    let text = error.to_string(alloc)?;
    let Some((line, _)) = text.as_str().split_once("\n\n") else {
        return Ok(error);
    };
    let line = line.strip_prefix("error: ").unwrap_or(line);
    let Some(tip) = tip_of(line) else {
        return Ok(error);
    };
    let Some(mut command) = command_of(alloc, command, error.kind())? else {
        return Ok(error);
    };
    let message = format!(in alloc; "{line}\n\n  tip: {tip}")?;
    command.error(error.kind(), message.as_str())
}

/// The word with an escape in the place of each letter that a terminal would obey.
fn shown(alloc: Global, word: &str) -> Result<String, AllocError> {
    let mut text = String::new(alloc);
    for letter in word.chars() {
        if is_shown(letter) {
            text.push(letter)?;
        } else {
            let code = u32::from(letter);
            write!(text, "\\u{code:04x}")?;
        }
    }
    Ok(text)
}

/// The words so: what `clap` says of them names them.
fn shown_words(alloc: Global, words: &[String]) -> Result<Vec<String>, AllocError> {
    let mut shown_words = Vec::new(alloc);
    for word in words {
        shown_words.push(shown(alloc, word.as_str())?)?;
    }
    Ok(shown_words)
}

/// What is said of refused words, by the command line in which a share can't stand beside an area.
pub(crate) fn refusal(alloc: Global, words: &[String]) -> Result<WordsFault, AllocError>
    ensures { IfOk result (λ f. (f ≡ Memory) ⊎ ((e : ClapError) × (f ≡ Refused e))) }
{
    let words = shown_words(alloc, words)?;
    let mut program = telling_program(alloc)?;
    let error = match program.try_get_matches_from_mut(words.as_slice()) {
        Ok(_) => program.error(ErrorKind::MissingSubcommand, "a command is missing")?,
        Err(error) => error,
    };
    let command = words.first().map_or("", String::as_str);
    Ok(WordsFault::refused(told(alloc, command, error)?))
}

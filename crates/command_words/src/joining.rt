// An option and its value as one word, and `--explain` after the command.
ghost use Rattle.std.specs.Prelude.{◌≡◌, ◌++◌, ◌∷◌, [], IfOk, List, OnOk, codes, map, true};
ghost use Rattle.std.specs.List.{list_any};
ghost use Rattle.std.specs.String.{string_bytes};
ghost use Rattle.clap.specs.Walk.{Text};
ghost use Rattle.command_words.specs.Joined as spec;
ghost use Rattle.command_words.specs.Joined.{ending, joined, place_of, word_joined};

use crate::file_usage::{GEO, SIMPLIFY, STAT};
use crate::usage::BUILD;
use std::alloc::{AllocError, Global};

/// What the next word is.
#[derive(Clone, Copy, Drop)]
pub(crate) enum Next<'a> {
    /// The first word, which names a command.
    Command,
    /// The word after `--explain`, which names a command.
    Explained,
    /// A word of its own.
    Alone,
    /// The value of this option.
    ValueOf(&'a str),
    /// A word that stays as it is, as those after it do: it stands after `--`, or the command has no option whose value may be any text.
    Following,
}

/// Whether this command has an option whose value may be any text.
fn has_text_option(word: &str) -> bool
    ensures { result ≡ spec.has_text_option word.now }
{
    word == BUILD || word == SIMPLIFY
}

/// Whether this is an option whose value may be any text.
fn takes_text(word: &str) -> bool
    ensures { result ≡ spec.takes_text word.now }
{
    word == "--min-area" || word == "--keep" || word == "--min-ring-area"
}

/// Whether this is a command that does something.
fn is_command(word: &str) -> bool
    ensures { result ≡ spec.is_command word.now }
{
    has_text_option(word) || word == GEO || word == STAT
}

/// Whether this is the option that asks for an explanation.
fn is_explain(word: &str) -> bool
    ensures { result ≡ spec.is_explain word.now }
{
    word == "--explain"
}

/// What the word after this command is.
fn after_command<'a>(word: &str) -> Next<'a>
    ensures { place_of result ≡ spec.after_command word.now }
{
    if has_text_option(word) {
        return Next::Alone;
    }
    Next::Following
}

/// The option and its value as one word.
fn with_value(alloc: Global, option: &str, value: &str) -> Result<String, AllocError>
    ensures { IfOk result (λ r. string_bytes r ≡ option.now ++ (codes "=" ++ value.now)) }
{
    let mut whole = String::from_str(alloc, option)?;
    whole.push_str("=")?;
    whole.push_str(value)?;
    Ok(whole)
}

/// Adds a word as it is.
fn push_word(alloc: Global, joined: &mut Vec<String>, word: &str) -> Result<(), AllocError>
    ensures { OnOk result (map string_bytes joined.new.items ≡ map string_bytes joined.old.items ++ (word.now ∷ [])) }
{
    joined.push(String::from_str(alloc, word)?)?;
    Ok(())
}

/// Adds the word after `--explain`, and that behind it if it is a command that does something.
fn push_explained(alloc: Global, joined: &mut Vec<String>, word: &str) -> Result<(), AllocError>
    ensures { OnOk result (map string_bytes joined.new.items ≡ map string_bytes joined.old.items ++ (word_joined spec.explained word.now).0) }
{
    push_word(alloc, joined, word)?;
    if is_command(word) {
        return push_word(alloc, joined, "--explain");
    }
    Ok(())
}

/// Takes one word more, and says what the next one is.
fn join_word<'a>(
    alloc: Global,
    joined: &mut Vec<String>,
    place: Next<'_>,
    word: &'a str,
) -> Result<Next<'a>, AllocError>
    ensures { IfOk result (λ next. (map string_bytes joined.new.items ≡ map string_bytes joined.old.items ++ (word_joined (place_of place.entry) word.now).0)
        × (place_of next ≡ (word_joined (place_of place.entry) word.now).1)) }
{
    match place {
        Next::Command => {
            if is_explain(word) {
                return Ok(Next::Explained);
            }
            push_word(alloc, joined, word)?;
            Ok(after_command(word))
        }
        Next::Explained => {
            push_explained(alloc, joined, word)?;
            Ok(after_command(word))
        }
        Next::Alone => {
            if takes_text(word) {
                return Ok(Next::ValueOf(word));
            }
            push_word(alloc, joined, word)?;
            if word == "--" {
                return Ok(Next::Following);
            }
            Ok(Next::Alone)
        }
        Next::ValueOf(option) => {
            joined.push(with_value(alloc, option, word)?)?;
            Ok(Next::Alone)
        }
        Next::Following => {
            push_word(alloc, joined, word)?;
            Ok(Next::Following)
        }
    }
}

/// The words, where an option whose value may be any text and the word after it are one, so that the value may begin with a hyphen.
/// Such options are `--min-area`, `--keep` and `--min-ring-area` of `build` and `simplify`. `--explain` may
/// stand before a command that does something, too; before another word it is left out.
pub fn joined_words(alloc: Global, words: &[String]) -> Result<Vec<String>, AllocError>
    ensures joined { IfOk result (λ r. map string_bytes r.items ≡ joined (map string_bytes words.now)) }
    // Before a command `--explain` asks for the same as after it.
    ensures explained { IfOk result (λ r. (command : Text) (rest : List Text) → spec.is_command command ≡ true
        → map string_bytes words.now ≡ codes "--explain" ∷ command ∷ rest → map string_bytes r.items ≡ joined (command ∷ codes "--explain" ∷ rest)) }
{
    let mut joined = Vec::new(alloc);
    let mut place = Next::Command;
    for word in words {
        place = join_word(alloc, &mut joined, place, word.as_str())?;
    }
    match place {
        Next::ValueOf(option) => push_word(alloc, &mut joined, option)?,
        Next::Explained => push_word(alloc, &mut joined, "--explain")?,
        _ => {}
    }
    Ok(joined)
}

/// Whether `--explain` is among the words.
fn has_explain(words: &[String]) -> bool
    ensures { result ≡ list_any spec.is_explain (map string_bytes words.now) }
{
    words.iter().any(|word| is_explain(word.as_str()))
}

/// Whether a command stands first, and `--explain` isn't among the words after it.
fn lacks_explain(words: &[String]) -> bool
    ensures { result ≡ spec.lacks_explain (map string_bytes words.now) }
{
    match words {
        [command, words @ ..] => is_command(command.as_str()) && !has_explain(words),
        [] => false,
    }
}

/// The words with `--explain` before them, where a command stands first and it isn't among those after it.
pub fn with_explain(alloc: Global, mut words: Vec<String>) -> Result<Vec<String>, AllocError>
    ensures { IfOk result (λ r. map string_bytes r.items ≡ spec.with_explain (map string_bytes words.items)) }
{
    if lacks_explain(words.as_slice()) {
        words.insert(0, String::from_str(alloc, "--explain")?)?;
    }
    Ok(words)
}

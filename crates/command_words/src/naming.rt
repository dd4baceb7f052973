// How a layer is written whose word has no `=`.
ghost use Rattle.std.specs.Prelude.{IfOk};
ghost use Rattle.std.specs.String.{string_bytes};
ghost use Rattle.command_words.specs.Faults.{IsAdvice};

use std::alloc::{AllocError, Global};

/// Whether a terminal shows the letter as it is: it is no control character, no mark of the bidirectional algorithm, and ends no line.
pub(crate) fn is_shown(letter: char) -> bool {
    !matches!(
        letter,
        '\u{0}'..='\u{1f}'
            | '\u{7f}'..='\u{9f}'
            | '\u{61c}'
            | '\u{200e}'..='\u{200f}'
            | '\u{2028}'..='\u{202e}'
            | '\u{2066}'..='\u{2069}'
    )
}

/// What stands after the last `/`.
fn last_part(path: &str) -> &str {
    let mut last = path;
    for part in path.split('/') {
        last = part;
    }
    last
}

/// The name that a path suggests: its last part, up to the first point in it, without dashes before it, with which it would be an option.
fn suggested_name(path: &str) -> &str {
    let last = last_part(path).trim_start_matches('-');
    match last.split_once('.') {
        Some((name, _)) => name,
        None => last,
    }
}

/// Whether shells take the letter as it is.
fn is_bare(letter: char) -> bool {
    letter.is_ascii_alphanumeric() || "_-./=+,:@%".contains(letter)
}

/// Whether the word is a number, as other programs take one after an option of theirs.
fn is_number(word: &str) -> bool {
    matches!(word.as_bytes(), [b'0'..=b'9', ..])
        && word.chars().all(|letter| letter.is_ascii_digit() || ".eE+-".contains(letter))
}

/// The word as it is given to a shell: as it is, or between single quotes, in which no letter but such a quote is special: it closes them, stands
/// behind a backslash, and opens them anew.
fn for_shell(alloc: Global, word: &str) -> Result<String, AllocError> {
    if word.chars().all(is_bare) {
        return String::from_str(alloc, word);
    }
    let mut written = String::from_str(alloc, "'")?;
    for letter in word.chars() {
        if letter == '\'' {
            written.push_str("'\\''")?;
        } else {
            written.push(letter)?;
        }
    }
    written.push('\'')?;
    Ok(written)
}

/// A line with this word for a shell, where a terminal shows all of it.
fn line(alloc: Global, lead: &str, word: &str) -> Result<String, AllocError> {
    if !word.chars().all(is_shown) {
        return Ok(String::new(alloc));
    }
    let word = for_shell(alloc, word)?;
    format!(in alloc; "  {lead}: {word}\n")
}

/// How the layer of this path is named, as a line, where the path suggests a name. A number is taken for that of a grid.
fn naming(alloc: Global, path: &str) -> Result<String, AllocError> {
    if is_number(path) {
        return String::from_str(
            alloc,
            "  a grid of N cells is '--grid N', with N in digits alone\n",
        );
    }
    let name = suggested_name(path);
    if name.is_empty() {
        return Ok(String::new(alloc));
    }
    let word = format!(in alloc; "{name}={path}")?;
    line(alloc, "name it", word.as_str())
}

/// The word that was meant, if blanks beside an `=` have cut it. This word, which has no `=`, stands between those before and after it.
fn uncut(
    alloc: Global,
    before: &[&str],
    word: &str,
    after: &[&str],
) -> Result<Option<String>, AllocError> {
    let whole = match (before, after) {
        (_, [sign, path, ..]) if *sign == "=" => format!(in alloc; "{word}={path}")?,
        (_, [path, ..]) if path.starts_with("=") => format!(in alloc; "{word}{path}")?,
        ([.., name], _) if name.ends_with("=") => format!(in alloc; "{name}{word}")?,
        _ => return Ok(None),
    };
    Ok(Some(whole))
}

/// What to write in the place of the word of this number, which has no `=`, as a line, where that is asked and the words suggest it.
pub(crate) fn advice(
    alloc: Global,
    words: &[&str],
    layer: usize,
    is_asked: bool,
) -> Result<String, AllocError>
    ensures { IfOk result (λ t. IsAdvice is_asked (string_bytes t)) }
{
    if !is_asked {
        return Ok(String::new(alloc));
    }
    let Some((before, [word, after @ ..])) = words.split_at_checked(layer) else {
        return Ok(String::new(alloc));
    };
    match uncut(alloc, before, word, after)? {
        Some(whole) => line(alloc, "write it as one word", whole.as_str()),
        None => naming(alloc, word),
    }
}

// Texts of contents as a terminal can show them.
use std::alloc::{AllocError, Global};

/// Whether a terminal would obey the character, or show what follows it elsewhere: a control character, a mark of the bidirectional algorithm
/// (Unicode Standard Annex 9, section 2), or the end of a line or a paragraph.
fn is_obeyed(letter: char) -> bool {
    matches!(
        letter,
        '\u{0}'..='\u{1f}'
            | '\u{7f}'..='\u{9f}'
            | '\u{61c}'
            | '\u{200e}'..='\u{200f}'
            | '\u{2028}'..='\u{202e}'
            | '\u{2066}'..='\u{2069}'
    )
}

/// Adds a character, or `\u` and the digits of its number where a terminal would obey it.
fn add_shown(text: &mut String, letter: char) -> Result<(), AllocError> {
    if is_obeyed(letter) {
        let code = u32::from(letter);
        return write!(text, "\\u{code:04x}");
    }
    text.push(letter)
}

/// Whether the text has none of these characters, and none that JSON escapes, by a look at bytes alone.
fn is_plain(text: &str) -> bool {
    text.bytes().all(|byte| byte >= 0x20 && byte < 0x7f && byte != b'"' && byte != b'\\')
}

/// Adds a text with an escape in the place of each character that a terminal would obey.
pub(crate) fn add_text(shown: &mut String, text: &str) -> Result<(), AllocError> {
    if is_plain(text) {
        return shown.push_str(text);
    }
    for letter in text.chars() {
        add_shown(shown, letter)?;
    }
    Ok(())
}

/// The text with an escape in the place of each character that a terminal would obey.
pub fn shown(alloc: Global, text: &str) -> Result<String, AllocError> {
    let mut shown = String::new(alloc);
    add_text(&mut shown, text)?;
    Ok(shown)
}

/// Adds a text as a JSON text (RFC 8259, section 7), in which the characters that a terminal would obey are escaped too.
pub(crate) fn add_quoted(quoted: &mut String, text: &str) -> Result<(), AllocError> {
    quoted.push('"')?;
    if is_plain(text) {
        quoted.push_str(text)?;
        return quoted.push('"');
    }
    for letter in text.chars() {
        if letter == '"' || letter == '\\' {
            quoted.push('\\')?;
        }
        add_shown(quoted, letter)?;
    }
    quoted.push('"')
}

/// The same by itself.
pub fn quoted(alloc: Global, text: &str) -> Result<String, AllocError> {
    let mut quoted = String::new(alloc);
    add_quoted(&mut quoted, text)?;
    Ok(quoted)
}

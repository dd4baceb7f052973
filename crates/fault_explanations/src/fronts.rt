// What a text begins as that is no JSON, where its first bytes show it.
use crate::place::{prefix, suffix};
use crate::sight::without_blanks;
use crate::slips::{self, Slip};
use json_reading::after_word;

/// What stands between columns.
const SEPARATORS: [u8; 3] = [b',', b';', b'\t'];

/// Whether this byte may stand in a script before its first bracket or brace.
fn leads_in(byte: u8) -> bool {
    matches!(byte, b'a'..=b'z' | b'A'..=b'Z' | b'0'..=b'9' | b'_' | b'$' | b'.' | b'=' | b'(' | b' ' | b'\t' | b'\n' | b'\r')
}

/// What stands before the first bracket or brace, if it is no more than names, and what joins them.
fn lead_in(text: &[u8]) -> &[u8] {
    for (length, byte) in text.iter().enumerate() {
        if matches!(byte, b'{' | b'[') {
            return prefix(text, length);
        }
        if !leads_in(*byte) {
            return &[];
        }
    }
    &[]
}

/// Whether the text is a script that puts a value into a variable, calls a function with it or exports it.
fn is_script(text: &[u8]) -> bool {
    let lead = without_blanks(lead_in(text));
    matches!(lead, [b'a'..=b'z' | b'A'..=b'Z' | b'_' | b'$', .., b'=' | b'('])
        || lead == "export default".as_bytes()
}

/// The first line, and what follows it.
fn first_line(text: &[u8]) -> (&[u8], &[u8]) {
    for (length, byte) in text.iter().enumerate() {
        if *byte == b'\n' {
            return (prefix(text, length), suffix(text, length.saturating_add(1)));
        }
    }
    (text, &[])
}

/// How often this byte stands in a line.
fn count(wanted: u8, line: &[u8]) -> usize {
    let mut times: usize = 0;
    for byte in line {
        if *byte == wanted {
            times = times.saturating_add(1);
        }
    }
    times
}

/// Whether an array or an object opens in a line.
fn has_bracket(line: &[u8]) -> bool {
    line.iter().any(|byte| *byte == b'{' || *byte == b'[')
}

/// Whether the first two lines have as many columns, two or more, and no array or object opens in them.
fn has_columns(text: &[u8]) -> bool {
    let (first, more) = first_line(text);
    let (second, _) = first_line(more);
    if has_bracket(first) || has_bracket(second) {
        return false;
    }
    for separator in SEPARATORS {
        let times = count(separator, first);
        if times > 0 && times == count(separator, second) {
            return true;
        }
    }
    false
}

/// What the text is, which begins with no array or object, or has more after it.
pub(crate) fn front_slip(text: &[u8]) -> Option<Slip> {
    if is_script(text) {
        return Some(slips::SCRIPT);
    }
    if has_columns(text) {
        return Some(slips::COLUMNS);
    }
    None
}

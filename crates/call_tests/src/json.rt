// Each text stands beside the byte at which reading stops. The sections are those of RFC 8259.
use decimal_json::{JsonFault, Why, parse};
use std::alloc::Global;

// ---- sections 2 to 5 and 8.1, then 6, then 7
const SYNTAX: &[(&str, usize)] = &[
    ("nulL", 3),
    ("True", 0),
    ("falsy", 4),
    ("[1,]", 3),
    ("[,1]", 1),
    ("[1;2]", 2),
    ("[1 2]", 3),
    ("[1}", 2),
    ("{\"a\":1,}", 7),
    ("{,}", 1),
    ("{\"a\":1]", 6),
    ("{\"a\" 1}", 5),
    ("{\"a\",1}", 4),
    ("{a:1}", 1),
    ("{1:2}", 1),
    ("{\"a\":}", 5),
    ("1 2", 2),
    ("[]]", 2),
    ("null null", 5),
    ("\u{b}1", 0),
    ("\u{c}1", 0),
    ("[1\u{c}]", 2),
    ("\u{a0}1", 0),
    ("1\u{a0}", 1),
    ("1\u{0}", 1),
    ("1//", 1),
    ("\u{feff}\u{feff}5", 3),
    ("5\u{feff}", 1),
    (" \u{feff}5", 1),
    ("01", 1),
    ("-01", 2),
    ("00", 1),
    ("-a", 1),
    (".5", 0),
    ("+1", 0),
    ("1.e5", 2),
    ("1e.5", 2),
    ("1e+-5", 3),
    ("1.5.5", 3),
    ("0x10", 1),
    ("- 1", 1),
    ("NaN", 0),
    ("[1 .5]", 3),
    ("\"\\ud83d\\uzzzz\"", 9),
    ("\"\\u00g9\"", 5),
    ("\"\\x\"", 2),
    ("\"\\U0041\"", 2),
    ("\"a\u{0}\"", 2),
    ("\"a\u{1f}\"", 2),
    ("\"a\tb\"", 2),
    ("\"a\nb\"", 2),
    ("'a'", 0),
    ("{\"a\tb\":1}", 3),
];

const END: &[(&str, usize)] = &[
    ("", 0),
    (" \n", 2),
    ("[", 1),
    ("[1", 2),
    ("[1,", 3),
    ("{", 1),
    ("{\"a\"", 4),
    ("{\"a\":", 5),
    ("{\"a\":1", 6),
    ("{\"a\":1,", 7),
    ("nul", 3),
    ("\u{feff}", 3),
    ("-", 1),
    ("1.", 2),
    ("1e", 2),
    ("1e-", 3),
    ("\"\\ud83d", 7),
    ("\"\\ud83d\\", 8),
    ("\"\\ud83d\\u", 9),
    ("\"\\u00e", 6),
    ("\"\\", 2),
    ("\"ab", 3),
];

// Section 8.2.
const SURROGATE: &[(&str, usize)] = &[
    ("\"\\ud83d\"", 7),
    ("\"\\ude00\"", 3),
    ("\"\\ude00\\ud83d\"", 3),
    ("\"\\ud83dx\"", 7),
    ("\"\\ud83d\\n\"", 7),
    ("\"\\ud83d\\u0041\"", 9),
    ("\"\\ud83d\\ud83d\"", 9),
];

// Section 9: arrays and objects nest two deep at most in these tests.
const DEEP: &[(&str, usize)] = &[("[[[]]]", 2), ("[[],[[]]]", 5), ("{\"a\":{\"b\":{}}}", 10)];

/// Whether the text is refused for this reason at this byte.
fn is_refused(alloc: Global, text: &str, why: Why, at: usize) -> bool {
    matches!(parse(alloc, text.as_bytes(), 2), Err(JsonFault::Malformed { at: place, why: reason }) if place == at && reason == why)
}

#[test]
fn faults_say_where_and_why(rt: HostRuntime) {
    for (why, rows) in [
        (Why::Syntax, SYNTAX),
        (Why::End, END),
        (Why::Surrogate, SURROGATE),
        (Why::Deep, DEEP),
    ] {
        for (text, at) in rows {
            assert!(rt; is_refused(rt.alloc(), text, why, *at), "{text}");
        }
    }
}

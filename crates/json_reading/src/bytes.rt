// Single bytes, white space and words at the front of bytes.
ghost use Rattle.std.specs.Prelude.{◌≡◌, [], ◌∷◌, MatchOption};
ghost use Rattle.std.specs.Option.{option_copied};
ghost use Rattle.json_reading.specs.Gives.{IsMalformed};
ghost use Rattle.json_value.specs.Reading as spec;

use crate::fault::{Fault, stopped};

/// What follows white space (RFC 8259, section 2).
#[inline(always)]
#[tactic(auto, unfolding(json_value::specs::Reading::skip))]
pub fn skip(bytes: &[u8]) -> &[u8]
    ensures { result.now ≡ spec.skip bytes.now }
{
    if let [first, ..] = bytes {
        if *first > b' ' {
            return bytes;
        }
    }
    let mut rest = bytes;
    while let [b' ' | b'\t' | b'\n' | b'\r', more @ ..] = rest {
        rest = more;
    }
    rest
}

/// The first byte, and the bytes after it.
pub fn next(bytes: &[u8]) -> Option<(u8, &[u8])>
    ensures { MatchOption result (bytes.now ≡ []) (λ p. bytes.now ≡ p.0 ∷ p.1.now) }
{
    match bytes {
        [] => None,
        [first, rest @ ..] => Some((*first, rest)),
    }
}

/// What follows the word, where it stands at the front.
#[inline(always)]
pub fn after_word<'a>(word: &[u8], bytes: &'a [u8]) -> Option<&'a [u8]>
    ensures { option_copied result ≡ spec.after_word word.now bytes.now }
{
    bytes.strip_prefix(word)
}

/// The fault of bytes that do not begin with the word: they stop where they part from it.
pub fn unlike(word: &[u8], bytes: &[u8]) -> Fault
    ensures { IsMalformed result }
{
    let mut rest = bytes;
    for expected in word {
        match rest {
            [first, more @ ..] if first == expected => rest = more,
            _ => break,
        }
    }
    stopped(rest)
}

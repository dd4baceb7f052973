// What opens an array, and what stands after its elements.
ghost use Rattle.std.specs.Prelude.{◌≡◌, [], ◌∷◌, MatchOption};
ghost use Rattle.std.specs.Option.{option_copied};
ghost use Rattle.json_value.specs.Reading.{after_word};
ghost use Rattle.json_cursor.specs.Arrays.{Marks, Opens};

use json_reading::skip;

/// What stands after an element.
#[derive(Clone, Copy, Debug, PartialEq, Eq)]
pub enum Mark {
    Comma,
    Close,
    Neither,
}

/// The first byte, and the bytes after it.
#[inline(always)]
pub(crate) fn first_at(bytes: &[u8]) -> Option<(u8, &[u8])>
    ensures { MatchOption result (bytes.now ≡ []) (λ p. bytes.now ≡ p.0 ∷ p.1.now) }
{
    match bytes {
        [] => None,
        [first, rest @ ..] => Some((*first, rest)),
    }
}

/// The mark after white space, and what follows it. A comma with no white space before it is looked for first.
#[inline(always)]
#[tactic(auto, using(crate::proofs::Lists::comma_first, crate::proofs::Lists::nothing_after, crate::proofs::Lists::other_after, crate::proofs::Openings::first_byte))]
pub fn mark_at(bytes: &[u8]) -> (Mark, &[u8])
    ensures { Marks bytes.now result.0 result.1.now }
{
    if let Some(rest) = after_byte(b',', bytes) {
        return (Mark::Comma, rest);
    }
    let following = skip(bytes);
    let Some((first, rest)) = first_at(following) else {
        return (Mark::Neither, following);
    };
    if first == b',' {
        return (Mark::Comma, rest);
    }
    if first == b']' {
        return (Mark::Close, rest);
    }
    (Mark::Neither, following)
}

/// What stands at the front of bytes.
#[derive(Clone, Copy, Debug, PartialEq, Eq)]
pub enum Opening {
    /// Whatever value stands there, it is no array.
    NoArray,
    /// An array past the depth: no value.
    TooDeep,
    Empty,
    /// An array with elements, in which arrays and objects may nest so deep.
    Filled(u32),
}

/// What follows the byte, where it is first.
#[inline(always)]
#[tactic(auto, unfolding(json_value::specs::Reading::after_word))]
pub fn after_byte(byte: u8, bytes: &[u8]) -> Option<&[u8]>
    ensures { option_copied result ≡ after_word (byte ∷ []) bytes.now }
{
    match bytes {
        [] => None,
        [first, rest @ ..] => { if *first == byte { Some(rest) } else { None } }
    }
}

/// What stands at the front, and what follows it, or its bracket where it has elements.
#[inline(always)]
pub fn opening_at(depth_left: u32, bytes: &[u8]) -> (Opening, &[u8])
    ensures { Opens depth_left bytes.now result.0 result.1.now }
{
    let Some(inside) = after_byte(b'[', bytes) else {
        return (Opening::NoArray, bytes);
    };
    if depth_left == 0 {
        return (Opening::TooDeep, bytes);
    }
    if let Some(rest) = after_byte(b']', skip(inside)) {
        return (Opening::Empty, rest);
    }
    (Opening::Filled(depth_left - 1), inside)
}

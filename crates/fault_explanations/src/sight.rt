// What stands where reading stops, as far as the bytes show.
use crate::fronts::front_slip;
use crate::place::{prefix, suffix};
use crate::scalars::{known_scalar, scalar_slip};
use crate::slips::{self, Slip};
use crate::spot::{Awaited, Part, Spot};
use json_reading::{after_word, skip};
use topojson_decoder::after_mark;

/// Where a slip begins with these characters outside of texts, whatever must follow.
const FRONTS: [(&str, Slip); 11] = [
    ("'", slips::SINGLE_QUOTE),
    ("\u{2018}", slips::CURVED_QUOTE),
    ("\u{2019}", slips::CURVED_QUOTE),
    ("\u{201c}", slips::CURVED_QUOTE),
    ("\u{201d}", slips::CURVED_QUOTE),
    ("\u{201e}", slips::CURVED_QUOTE),
    ("//", slips::COMMENT),
    ("/*", slips::COMMENT),
    ("#", slips::COMMENT),
    ("\u{a0}", slips::NO_BREAK),
    ("\u{feff}", slips::ORDER_MARK),
];

/// The slip that begins with the first of these bytes, outside of texts.
fn known_front(rest: &[u8]) -> Option<Slip> {
    for (front, slip) in FRONTS.iter() {
        if after_word(front.as_bytes(), rest).is_some() {
            return Some(*slip);
        }
    }
    None
}

/// The first of these bytes, or zero.
fn first_of(bytes: &[u8]) -> u8 {
    match bytes {
        [first, ..] => *first,
        [] => 0,
    }
}

/// The last of these bytes, or zero.
fn last_of(bytes: &[u8]) -> u8 {
    match bytes {
        [.., last] => *last,
        [] => 0,
    }
}

/// The bytes without white space at their end.
pub(crate) fn without_blanks(bytes: &[u8]) -> &[u8] {
    let mut rest = bytes;
    while let [more @ .., b' ' | b'\t' | b'\n' | b'\r'] = rest {
        rest = more;
    }
    rest
}

/// Whether a word may begin with this byte, a digit among them.
fn is_of_word(byte: u8) -> bool {
    matches!(byte, b'a'..=b'z' | b'A'..=b'Z' | b'0'..=b'9' | b'_' | b'$' | 0x80..=0xff)
}

/// Whether a value begins with this byte, as far as it alone shows.
fn begins_value(byte: u8) -> bool {
    matches!(byte, b'"' | b'[' | b'{' | b'-' | b'0'..=b'9')
}

/// What this byte is in a text.
fn text_slip(byte: u8) -> Slip {
    match byte {
        b'\n' | b'\r' => slips::LINE_BREAK,
        b'\t' => slips::TAB,
        0..=0x1f => slips::CONTROL,
        _ => slips::SHORT_ESCAPE,
    }
}

/// What a mark is where a value or a name must begin, after this last byte before white space.
fn mark_slip(last: u8, mark: u8) -> Option<Slip> {
    match (last, mark) {
        (b',', b']' | b'}') => Some(slips::LAST_COMMA),
        (b',', b',') => Some(slips::SECOND_COMMA),
        (b'[' | b'{', b',') => Some(slips::FRONT_COMMA),
        (b'[', b'}') => Some(slips::OPEN_ARRAY),
        (b'{', b']') => Some(slips::OPEN_OBJECT),
        (b':', b',' | b']' | b'}') => Some(slips::NO_VALUE),
        _ => None,
    }
}

/// What stands where a value must begin.
fn value_slip(before: &[u8], rest: &[u8]) -> Slip {
    match mark_slip(last_of(without_blanks(before)), first_of(rest)) {
        Some(slip) => slip,
        None => slips::VALUE,
    }
}

/// What stands where a name must begin.
fn name_slip(before: &[u8], rest: &[u8]) -> Slip {
    match mark_slip(last_of(without_blanks(before)), first_of(rest)) {
        Some(slip) => slip,
        None if is_of_word(first_of(rest)) => slips::BARE_NAME,
        None => slips::NAME,
    }
}

/// What stands after an element of an array in the place of its end or a comma.
fn element_slip(rest: &[u8]) -> Slip {
    match first_of(rest) {
        b'}' => slips::OPEN_ARRAY,
        b':' => slips::ARRAY_COLON,
        first if begins_value(first) || known_scalar(rest) => slips::NO_COMMA,
        _ => slips::NEXT_ELEMENT,
    }
}

/// What stands after a member of an object in the place of its end or a comma.
fn member_slip(rest: &[u8]) -> Slip {
    match first_of(rest) {
        b']' => slips::OPEN_OBJECT,
        b'"' => slips::NO_MEMBER_COMMA,
        _ => slips::NEXT_MEMBER,
    }
}

/// What stands after a whole value, in the place of what may follow it.
fn next_slip(spot: &Spot, rest: &[u8]) -> Slip {
    match spot.innermost() {
        Some(opened) if opened.is_object => member_slip(rest),
        Some(_) => element_slip(rest),
        None => match first_of(rest) {
            b']' | b'}' => slips::EXTRA_BRACKET,
            _ => slips::MORE_TEXT,
        },
    }
}

/// What stands outside of texts, where it is no known front.
fn mark_or_word(spot: &Spot, before: &[u8], rest: &[u8]) -> Slip {
    let follows_text = last_of(before) == b'"' && is_of_word(first_of(rest));
    match spot.awaited {
        Awaited::Value => value_slip(before, rest),
        Awaited::Name => name_slip(before, rest),
        Awaited::Colon | Awaited::Next if follows_text => slips::QUOTATION,
        Awaited::Colon => slips::NO_COLON,
        Awaited::Next => next_slip(spot, rest),
    }
}

/// The scalar that the byte of this number is part of, or begins where a value must.
fn broken_scalar(spot: &Spot, bytes: &[u8], at: usize) -> Option<Slip> {
    match spot.part {
        Part::Scalar => scalar_slip(suffix(bytes, spot.start), prefix(bytes, at)),
        _ if spot.awaited == Awaited::Value => scalar_slip(suffix(bytes, at), prefix(bytes, at)),
        _ => None,
    }
}

/// What stands at the byte of this number outside of texts, where it is no known front.
fn slip_inside(spot: &Spot, bytes: &[u8], at: usize) -> Slip {
    let is_outermost = spot.innermost().is_none();
    if is_outermost {
        if let Some(slip) = front_slip(skip(after_mark(bytes))) {
            return slip;
        }
    }
    match broken_scalar(spot, bytes, at) {
        Some(slip) if is_outermost && slip == slips::BARE_WORD => slips::FRONT_WORD,
        Some(slip) => slip,
        None => mark_or_word(spot, prefix(bytes, at), suffix(bytes, at)),
    }
}

/// What stands at the byte of this number outside of texts. After a point a number goes on, whatever stands there.
fn slip_outside(spot: &Spot, bytes: &[u8], at: usize) -> Slip {
    match known_front(suffix(bytes, at)) {
        Some(slip) if last_of(prefix(bytes, at)) != b'.' => slip,
        _ => slip_inside(spot, bytes, at),
    }
}

/// What stands at the byte of this number, which is at this place, and at which reading stops.
pub(crate) fn slip_at(spot: &Spot, bytes: &[u8], at: usize) -> Slip {
    match spot.part {
        Part::Escape => slips::ESCAPE,
        Part::Text => text_slip(first_of(suffix(bytes, at))),
        Part::Nothing | Part::Scalar => slip_outside(spot, bytes, at),
    }
}

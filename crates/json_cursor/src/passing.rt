// Elements that are passed over.
ghost use Rattle.std.specs.Prelude.{◌≡◌, ◌<◌, ℕ, List, Some};
ghost use Rattle.std.specs.Str.{is_utf8};
ghost use Rattle.json_value.specs.declared.json.Json.{Json as Value};
ghost use Rattle.json_value.specs.Reading as reading;
ghost use Rattle.json_reading.specs.Passes.{Passes};

use crate::marks::{Mark, mark_at};
use json_reading::{Fault, Why, after_value, skip};
use std::alloc::Global;

/// What follows the elements of an array, one or more, in at most so many turns.
pub fn after_elements<'a>(
    alloc: Global,
    depth_left: u32,
    turns: usize,
    bytes: &'a [u8],
) -> Result<&'a [u8], Fault>
    ensures { Passes result (reading.elements_at is_utf8 depth_left turns bytes.now) }
{
    let mut rest = bytes;
    'elements: for _ in 0..turns {
        let after = after_value(alloc, depth_left, skip(rest))?;
        let (mark, more) = mark_at(after);
        match mark {
            Mark::Close => return Ok(more),
            Mark::Neither => {
                return Err(Fault::Malformed {
                    why: Why::Syntax,
                    left: more.len(),
                });
            }
            Mark::Comma => {}
        }
        rest = more;
    }
    Err(Fault::Malformed {
        why: Why::Syntax,
        left: rest.len(),
    })
}

/// What follows the elements of an array where this follows the first of them, in at most so many turns.
pub fn after_others<'a>(
    alloc: Global,
    depth_left: u32,
    turns: usize,
    following: &'a [u8],
) -> Result<&'a [u8], Fault>
    requires { 0 < turns }
    ensures { (first : Value) (bytes : List ℕ) → reading.value_at is_utf8 depth_left (reading.skip bytes) ≡ Some (first, following.now) → Passes result (reading.elements_at is_utf8 depth_left turns bytes) }
{
    let (mark, more) = mark_at(following);
    match mark {
        Mark::Close => Ok(more),
        Mark::Comma => after_elements(alloc, depth_left, turns - 1, more),
        Mark::Neither => Err(Fault::Malformed {
            why: Why::Syntax,
            left: more.len(),
        }),
    }
}

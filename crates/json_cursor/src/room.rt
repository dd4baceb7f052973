// How many elements an array seems to have, so that the list of few elements takes memory once.
ghost use Rattle.std.specs.Prelude.{◌≤◌};

use crate::marks::after_byte;
use json_reading::{rest_after_first, skip};

/// How many arrays are looked for in an array.
const MOST_ARRAYS: usize = 16;

/// How many bytes of an array of numbers are looked at.
const FEW_BYTES: usize = 64;

/// How many elements the array at the front seems to have, up to `MOST_ARRAYS`, where they are arrays of numbers; none of any other array. A
/// list is given room for so many, and nothing else rests on it.
#[inline(never)]
pub fn arrays_ahead(bytes: &[u8]) -> usize
    ensures { result ≤ 16 }
{
    let Some(inside) = after_byte(b'[', bytes) else {
        return 0;
    };
    let Some(first) = after_byte(b'[', skip(inside)) else {
        return 0;
    };
    if after_byte(b'[', skip(first)).is_some() {
        return 0;
    }
    let mut rest = first;
    'arrays: for before in 0..MOST_ARRAYS {
        let Some(following) = rest_after_first(b']', rest) else {
            return before;
        };
        if after_byte(b']', skip(following)).is_some() {
            return before + 1;
        }
        rest = following;
    }
    MOST_ARRAYS
}

/// How many elements the array at the front seems to have, where they are numbers, if it is short. A list is given room for so many, and
/// nothing else rests on it.
#[inline(never)]
pub fn numbers_ahead(bytes: &[u8]) -> usize
    ensures { result ≤ 64 }
{
    let mut commas = 0;
    'bytes: for at in 0..bytes.len().min(FEW_BYTES) {
        if bytes[at] == b']' {
            return commas + 1;
        }
        if bytes[at] == b',' {
            commas += 1;
        }
    }
    0
}

// Faults that are held, since others may come first.
ghost use Rattle.json_value.specs.declared.json.Json.{Json as Value};
ghost use Rattle.geojson_types.specs.declared.counts.Counts.{Counts};
ghost use Rattle.json_cursor.specs.Answers.{Answers, Stops};
ghost use Rattle.json_cursor.specs.Arrays.{prefix_value};
ghost use Rattle.json_cursor.specs.Held.{FindsValue, IsHeld};
ghost use Rattle.topojson_meaning.specs.Reader.{Reader};

use json_cursor::Stop;
use json_reading::{Fault, Why, after_value};
use std::alloc::Global;
use topojson_meaning::TopoFault;

/// The fault that a reader stopped for of the value at the front, and what follows the value, which is passed over.
#[cold]
#[inline(never)]
pub(crate) fn held_stop<'a, T: Drop>(
    alloc: Global,
    depth_left: u32,
    bytes: &'a [u8],
    stop: Stop<TopoFault>,
) -> Result<(Result<T, TopoFault>, &'a [u8]), Fault>
    ensures { (read : Value → Reader T) (old new : Counts) → Stops read (prefix_value depth_left bytes.now) old stop → FindsValue (IsHeld read old new) depth_left bytes.now result }
{
    match stop {
        Stop::Fault(fault) => {
            let rest = after_value(alloc, depth_left, bytes)?;
            Ok((Err(fault), rest))
        }
        Stop::NoValue => Err(Fault::Malformed {
            why: Why::Syntax,
            left: bytes.len(),
        }),
        Stop::Memory => Err(Fault::Memory),
    }
}

/// What a reader answers of the value at the front, or its fault, and what follows the value. It is passed over where it has a fault.
#[inline(always)]
pub(crate) fn held<'a, T: Drop>(
    alloc: Global,
    depth_left: u32,
    bytes: &'a [u8],
    answer: Result<(T, &'a [u8]), Stop<TopoFault>>,
) -> Result<(Result<T, TopoFault>, &'a [u8]), Fault>
    ensures { (read : Value → Reader T) (old new : Counts) → Answers (λ x. x) read (prefix_value depth_left bytes.now) old new answer.entry → FindsValue (IsHeld read old new) depth_left bytes.now result }
{
    match answer {
        Ok((read, rest)) => Ok((Ok(read), rest)),
        Err(stop) => held_stop::<T>(alloc, depth_left, bytes, stop),
    }
}

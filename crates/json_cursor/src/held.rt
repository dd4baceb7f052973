// Arrays whose first fault is held until they are passed.
ghost use Rattle.json_cursor.specs.Arrays.{array_by};
ghost use Rattle.json_cursor.specs.Folds.{fold};
ghost use Rattle.json_cursor.specs.Held.{IsHeld, FindsValue};

use crate::folds::{Elements, folded_at};
use crate::marks::{Opening, opening_at};
use crate::members::broken;
use crate::passing::after_elements;
use crate::stop::Stop;
use geojson_types::Counts;
use json_reading::{Fault, after_value};
use std::alloc::Global;

/// What is made of the elements of the array at the front, none or more, or the first fault, and what follows the array: the elements
/// after a faulty one are passed over. What is no array has the fault `wrong`.
pub fn held_array_at<'a, T: Elements<'a> + Drop>(
    alloc: Global,
    depth_left: u32,
    start: T,
    bytes: &'a [u8],
    wrong: T::Fault,
    with: T::With,
    counts: &mut Counts,
) -> Result<(Result<T, T::Fault>, &'a [u8]), Fault>
    ensures { FindsValue (IsHeld (array_by wrong (fold (T.takes with) start)) counts.old counts.new) depth_left bytes.now result }
{
    let (opening, inside) = opening_at(depth_left, bytes);
    match opening {
        Opening::NoArray => {
            let rest = after_value(alloc, depth_left, bytes)?;
            Ok((Err(wrong), rest))
        }
        Opening::TooDeep => Err(broken(bytes)),
        Opening::Empty => Ok((Ok(start), inside)),
        Opening::Filled(below) => {
            let turns = inside.len();
            match folded_at::<T>(alloc, below, turns, start, inside, with, counts) {
                Ok((made, rest)) => Ok((Ok(made), rest)),
                Err(stopped) => match stopped.stop {
                    Stop::Fault(fault) => {
                        let rest = after_elements(alloc, below, stopped.turns, stopped.left)?;
                        Ok((Err(fault), rest))
                    }
                    Stop::NoValue => Err(broken(bytes)),
                    Stop::Memory => Err(Fault::Memory),
                },
            }
        }
    }
}

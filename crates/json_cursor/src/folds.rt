// The one loop over the elements of an array, whatever is made of them and however they fail.
ghost use Rattle.std.specs.Prelude.{◌≡◌, IfErr};
ghost use Rattle.json_value.specs.declared.json.Json.{Json};
ghost use Rattle.json_value.specs.Readers.{Counting};
ghost use Rattle.geojson_types.specs.declared.counts.Counts.{Counts as Counted};
ghost use Rattle.json_cursor.specs.Answers.{Answers};
ghost use Rattle.json_cursor.specs.Arrays.{AreLast, always, array_by, prefix_elements, prefix_value, some_array_by};
ghost use Rattle.json_cursor.specs.Folds.{Folds, Goes, fold};

use crate::marks::{Mark, Opening, mark_at, opening_at};
use crate::stop::Stop;
use geojson_types::Counts;
use json_reading::skip;
use std::alloc::Global;

/// What is made of the elements of an array, one after another.
pub trait Elements<'a> {
    /// What a value of the grammar may be refused for.
    type Fault: Copy;

    /// By what the elements are read.
    type With: Copy;

    /// What is made of one more value.
    ghost takes: { Self.With → Self → Json → Counting Counted Self.Fault Self };

    /// Goes on with the element at the front, and gives what follows it; or why reading stops.
    fn element(
        &mut self,
        alloc: Global,
        depth_left: u32,
        bytes: &'a [u8],
        with: Self::With,
        counts: &mut Counts,
    ) -> Result<&'a [u8], Stop<Self::Fault>>
        ensures { Goes (takes with self.old) (prefix_value depth_left bytes.now) counts.old self.new counts.new result };
}

/// Why reading stops at an element, and where that element and those after it stand, in so many turns.
#[derive(Clone, Copy)]
pub struct Stopped<'a, E> {
    pub stop: Stop<E>,
    pub turns: usize,
    pub left: &'a [u8],
}

/// What is made of the elements of an array after its bracket or after an element's comma, one or more in so many turns, and what
/// follows it; or why reading stops: at the first fault, without reading on.
pub fn folded_at<'a, T: Elements<'a> + Drop>(
    alloc: Global,
    depth_left: u32,
    turns: usize,
    start: T,
    inside: &'a [u8],
    with: T::With,
    counts: &mut Counts,
) -> Result<(T, &'a [u8]), Stopped<'a, T::Fault>>
    ensures answers { Folds (fold (T.takes with) start) (prefix_elements depth_left turns inside.now) counts.old counts.new result }
    ensures last { IfErr result (λ s. AreLast depth_left turns inside.now s.turns s.left.now) }
{
    let mut made = start;
    let mut rest = inside;
    'elements: for turn in 0..turns {
        match made.element(alloc, depth_left, skip(rest), with, counts) {
            Err(stop) => return Err(Stopped {
                stop,
                turns: turns - turn,
                left: rest,
            }),
            Ok(following) => {
                let (mark, more) = mark_at(following);
                match mark {
                    Mark::Neither => {
                        return Err(Stopped {
                            stop: Stop::NoValue,
                            turns: turns - turn,
                            left: rest,
                        });
                    }
                    Mark::Close => return Ok((made, more)),
                    Mark::Comma => {}
                }
                rest = more;
            }
        }
    }
    Err(Stopped {
        stop: Stop::NoValue,
        turns: 0,
        left: rest,
    })
}

/// What is made of the elements of the array at the front, none or more, and what follows it. What is no array has the fault `wrong`.
pub fn folded_array_at<'a, T: Elements<'a> + Drop>(
    alloc: Global,
    depth_left: u32,
    start: T,
    bytes: &'a [u8],
    wrong: T::Fault,
    with: T::With,
    counts: &mut Counts,
) -> Result<(T, &'a [u8]), Stop<T::Fault>>
    ensures { Answers (λ x. x) (array_by wrong (fold (T.takes with) start)) (prefix_value depth_left bytes.now) counts.old counts.new result }
{
    let (opening, inside) = opening_at(depth_left, bytes);
    match opening {
        Opening::NoArray => Err(Stop::Fault(wrong)),
        Opening::TooDeep => Err(Stop::NoValue),
        Opening::Empty => Ok((start, inside)),
        Opening::Filled(below) => match folded_at::<T>(
            alloc,
            below,
            inside.len(),
            start,
            inside,
            with,
            counts,
        ) {
            Err(stopped) => Err(stopped.stop),
            Ok(read) => Ok(read),
        },
    }
}

/// What is made of the elements of the array at the front, which is to have some, and what follows it: an empty one is counted, and nothing
/// is made of it.
pub fn folded_some_at<'a, T: Elements<'a> + Drop>(
    alloc: Global,
    depth_left: u32,
    start: T,
    bytes: &'a [u8],
    wrong: T::Fault,
    with: T::With,
    counts: &mut Counts,
) -> Result<(Option<T>, &'a [u8]), Stop<T::Fault>>
    ensures { Answers (λ x. x) (some_array_by wrong (always (fold (T.takes with) start))) (prefix_value depth_left bytes.now) counts.old counts.new result }
{
    let (opening, inside) = opening_at(depth_left, bytes);
    match opening {
        Opening::NoArray => Err(Stop::Fault(wrong)),
        Opening::TooDeep => Err(Stop::NoValue),
        Opening::Empty => {
            counts.count_empty();
            Ok((None, inside))
        }
        Opening::Filled(below) => match folded_at::<T>(
            alloc,
            below,
            inside.len(),
            start,
            inside,
            with,
            counts,
        ) {
            Err(stopped) => Err(stopped.stop),
            Ok((made, rest)) => Ok((Some(made), rest)),
        },
    }
}

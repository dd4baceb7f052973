// Arrays read as lists.
ghost use Rattle.std.specs.Prelude.{◌≡◌, ◌++◌, [], if◌then◌else◌, List, IfOk, OnOk, Some, None, length, option_to_list};
ghost use Rattle.json_value.specs.declared.json.Json.{Json};
ghost use Rattle.json_value.specs.Readers.{Counting, gather};
ghost use Rattle.geojson_types.specs.declared.counts.Counts.{Counts as Counted};
ghost use Rattle.json_cursor.specs.Answers.{Answers};
ghost use Rattle.json_cursor.specs.Arrays.{always, array_by, prefix_elements, prefix_value, led_by, some_array_by};
ghost use Rattle.json_cursor.specs.Folds.{with_read};

use crate::folds::{Elements, folded_array_at, folded_at, folded_some_at};
use crate::marks::{Mark, Opening, mark_at, opening_at};
use crate::room::arrays_ahead;
use crate::stop::Stop;
use geojson_types::Counts;
use json_reading::skip;
use owned_values::Items;
use std::alloc::{AllocFailed, Global};
use std::marker::Model;

/// How the elements of an array are read, where it is read as a list.
pub trait Element: Copy {
    /// What an element is read as.
    type Read: Drop;

    /// What a value of the grammar may be refused for.
    type Fault: Copy;

    /// What a value is read as: one, or none where it is left out.
    ghost reads: { Self → Json → Counting Counted Self.Fault (List Self.Read) };

    /// The one at the front, if it isn't left out, and what follows it; or why reading stops.
    fn read<'a>(
        self,
        alloc: Global,
        depth_left: u32,
        bytes: &'a [u8],
        counts: &mut Counts,
    ) -> Result<(Option<Self::Read>, &'a [u8]), Stop<Self::Fault>>
        ensures { Answers (λ x. option_to_list x) (reads self) (prefix_value depth_left bytes.now) counts.old counts.new result };
}

/// The elements that were read so far.
#[derive(Drop)]
struct Listed<E: Element> {
    list: Vec<E::Read>,
}

impl<E: Element> Model for Listed<E> {
    ghost Value = { List E.Read };

    ghost view = { λ s. s.list.items };
}

/// Puts one after the others, if there is one.
#[inline(always)]
fn push_some<T: Drop>(read: &mut Vec<T>, one: Option<T>) -> Result<(), AllocFailed<T>>
    ensures { OnOk result (read.new.items ≡ read.old.items ++ option_to_list one) }
{
    match one {
        None => Ok(()),
        Some(one) => {
            read.push(one)?;
            Ok(())
        }
    }
}

impl<'a, E: Element> Elements<'a> for Listed<E> {
    type Fault = E::Fault;

    type With = E;

    ghost takes = { λ with. with_read (E.reads with) };

    #[inline(always)]
    fn element(
        &mut self,
        alloc: Global,
        depth_left: u32,
        bytes: &'a [u8],
        with: E,
        counts: &mut Counts,
    ) -> Result<&'a [u8], Stop<E::Fault>> {
        match with.read(alloc, depth_left, bytes, counts) {
            Err(stop) => Err(stop),
            Ok((one, rest)) => {
                push_some(&mut self.list, one)?;
                Ok(rest)
            }
        }
    }
}

/// The elements alone, without room for more.
fn items_of<E: Element>(listed: Listed<E>) -> Items<E::Read>
    ensures { result ≡ listed }
{
    let mut list = listed.list;
    list.shrink_to_fit();
    Items::of(list)
}

/// The elements of the array at the front, none or more, and what follows it. What is no array has the fault `wrong`.
pub fn array_at<'a, E: Element>(
    alloc: Global,
    depth_left: u32,
    bytes: &'a [u8],
    wrong: E::Fault,
    reader: E,
    counts: &mut Counts,
) -> Result<(Items<E::Read>, &'a [u8]), Stop<E::Fault>>
    ensures { Answers (λ x. x) (array_by wrong (gather (E.reads reader))) (prefix_value depth_left bytes.now) counts.old counts.new result }
{
    let list = Vec::with_capacity(alloc, arrays_ahead(bytes))?;
    let start = Listed::<E> { list };
    match folded_array_at::<Listed<E>>(alloc, depth_left, start, bytes, wrong, reader, counts) {
        Err(stop) => Err(stop),
        Ok((listed, rest)) => Ok((items_of(listed), rest)),
    }
}

/// The elements of the array at the front, which is to have some, and what follows it: an empty one is counted, and gives nothing. What is
/// no array has the fault `wrong`.
pub fn some_array_at<'a, E: Element>(
    alloc: Global,
    depth_left: u32,
    bytes: &'a [u8],
    wrong: E::Fault,
    reader: E,
    counts: &mut Counts,
) -> Result<(Option<Items<E::Read>>, &'a [u8]), Stop<E::Fault>>
    ensures { Answers (λ x. x) (some_array_by wrong (always (gather (E.reads reader)))) (prefix_value depth_left bytes.now) counts.old counts.new result }
{
    let list = Vec::with_capacity(alloc, arrays_ahead(bytes))?;
    let start = Listed::<E> { list };
    match folded_some_at::<Listed<E>>(alloc, depth_left, start, bytes, wrong, reader, counts) {
        Err(stop) => Err(stop),
        Ok((read, rest)) => {
            let Some(listed) = read else {
                return Ok((None, rest));
            };
            Ok((Some(items_of(listed)), rest))
        }
    }
}

/// No one, or one, in a list that was empty.
#[inline(always)]
fn begun<E: Element>(
    empty: Vec<E::Read>,
    one: Option<E::Read>,
) -> Result<Listed<E>, AllocFailed<E::Read>>
    requires { empty.items ≡ [] }
    ensures { IfOk result (λ x. x ≡ option_to_list one) }
{
    let mut list = empty;
    push_some(&mut list, one)?;
    Ok(Listed { list })
}

/// The elements, where the first isn't left out.
fn led<E: Element>(leads: bool, all: Listed<E>) -> Option<Items<E::Read>>
    ensures { result ≡ (if leads then Some all else None) }
{
    if !leads {
        return None;
    }
    Some(items_of(all))
}

/// The elements of an array after its bracket, one or more, where the first leads the others: where it is left out, nothing is left.
fn led_at<'a, E: Element>(
    alloc: Global,
    depth_left: u32,
    inside: &'a [u8],
    reader: E,
    counts: &mut Counts,
) -> Result<(Option<Items<E::Read>>, &'a [u8]), Stop<E::Fault>>
    ensures { Answers (λ x. x) (led_by (E.reads reader)) (prefix_elements depth_left (length inside.now) inside.now) counts.old counts.new result }
{
    let turns = inside.len();
    if turns == 0 {
        return Err(Stop::NoValue);
    }
    match reader.read(alloc, depth_left, skip(inside), counts) {
        Err(stop) => Err(stop),
        Ok((first, following)) => {
            let leads = first.is_some();
            let (mark, more) = mark_at(following);
            match mark {
                Mark::Neither => Err(Stop::NoValue),
                Mark::Close => {
                    let alone = begun::<E>(Vec::with_capacity(alloc, 1)?, first)?;
                    Ok((led(leads, alone), more))
                }
                Mark::Comma => {
                    let before = begun::<E>(Vec::new(alloc), first)?;
                    match folded_at::<Listed<E>>(
                        alloc,
                        depth_left,
                        turns - 1,
                        before,
                        more,
                        reader,
                        counts,
                    ) {
                        Err(stopped) => Err(stopped.stop),
                        Ok((all, rest)) => Ok((led(leads, all), rest)),
                    }
                }
            }
        }
    }
}

/// The elements of the array at the front, of which the first leads the others: where it is left out, or where there are no elements,
/// which is counted, nothing is left; the others are read even so.
pub fn led_array_at<'a, E: Element>(
    alloc: Global,
    depth_left: u32,
    bytes: &'a [u8],
    wrong: E::Fault,
    reader: E,
    counts: &mut Counts,
) -> Result<(Option<Items<E::Read>>, &'a [u8]), Stop<E::Fault>>
    ensures { Answers (λ x. x) (some_array_by wrong (led_by (E.reads reader))) (prefix_value depth_left bytes.now) counts.old counts.new result }
{
    let (opening, inside) = opening_at(depth_left, bytes);
    match opening {
        Opening::NoArray => Err(Stop::Fault(wrong)),
        Opening::TooDeep => Err(Stop::NoValue),
        Opening::Empty => {
            counts.count_empty();
            Ok((None, inside))
        }
        Opening::Filled(below) => led_at::<E>(alloc, below, inside, reader, counts),
    }
}

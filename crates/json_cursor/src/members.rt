// The one loop over the members of an object, whatever is made of them.
ghost use Rattle.std.specs.Prelude.{◌≡◌, ℕ, length};
ghost use Rattle.json_reading.specs.Gives.{IsMalformed};
ghost use Rattle.json_cursor.specs.Members.{GoesOn, GoesThrough, Made, ReadsObject, TakesAll, prefix_members};

use crate::marks::after_byte;
use json_reading::{Fault, Why, skip};
use std::alloc::Global;

/// The fault of bytes that go on as no object does.
#[inline(always)]
pub fn broken(left: &[u8]) -> Fault
    ensures { IsMalformed result }
{
    Fault::Malformed {
        why: Why::Syntax,
        left: left.len(),
    }
}

/// What is made of the members of an object, one after another.
pub trait Members<'a> {
    /// By what the members are read.
    type With: Copy;

    /// This was made of these members, in whose values arrays and objects may nest so deep.
    ghost holds: { Self.With → ℕ → Made Self };

    /// Goes on with the member at the front, and gives what follows it.
    fn member(
        &mut self,
        alloc: Global,
        depth_left: u32,
        bytes: &'a [u8],
        with: Self::With,
    ) -> Result<&'a [u8], Fault>
        ensures { GoesOn (holds with depth_left) depth_left self.old self.new bytes.now result };
}

/// Goes on with the members of an object after its brace, one or more, and gives what follows them.
fn members_into<'a, T: Members<'a>>(
    alloc: Global,
    depth_left: u32,
    made: &mut T,
    inside: &'a [u8],
    with: T::With,
) -> Result<&'a [u8], Fault>
    ensures { TakesAll (T.holds with depth_left) (prefix_members depth_left (length inside.now) inside.now) made.old made.new result }
{
    let mut rest = inside;
    'members: for _ in 0..inside.len() {
        let following = made.member(alloc, depth_left, skip(rest), with)?;
        let mark = skip(following);
        if let Some(end) = after_byte(b'}', mark) {
            return Ok(end);
        }
        let Some(more) = after_byte(b',', mark) else {
            return Err(broken(mark));
        };
        rest = more;
    }
    Err(broken(rest))
}

/// Goes on with the members of the object at the front, and gives what follows it; none of what is no object, of which nothing is read.
pub fn object_into<'a, T: Members<'a>>(
    alloc: Global,
    depth_left: u32,
    made: &mut T,
    bytes: &'a [u8],
    with: T::With,
) -> Result<Option<&'a [u8]>, Fault>
    ensures { GoesThrough (T.holds with) depth_left bytes.now made.old made.new result }
{
    let Some(inside) = after_byte(b'{', bytes) else {
        return Ok(None);
    };
    if depth_left == 0 {
        return Err(broken(inside));
    }
    if let Some(end) = after_byte(b'}', skip(inside)) {
        return Ok(Some(end));
    }
    let rest = members_into::<T>(alloc, depth_left - 1, made, inside, with)?;
    Ok(Some(rest))
}

/// What is made of the members of the object at the front, and what follows it; none of what is no object, of which nothing is read.
pub fn object_at<'a, T: Members<'a> + Drop>(
    alloc: Global,
    depth_left: u32,
    start: T,
    bytes: &'a [u8],
    with: T::With,
) -> Result<(Option<T>, &'a [u8]), Fault>
    ensures { ReadsObject (T.holds with) depth_left bytes.now start result }
{
    let mut made = start;
    match object_into::<T>(alloc, depth_left, &mut made, bytes, with) {
        Err(fault) => Err(fault),
        Ok(None) => Ok((None, bytes)),
        Ok(Some(rest)) => Ok((Some(made), rest)),
    }
}

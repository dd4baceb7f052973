// The properties of a feature (RFC 7946, section 3.2), of whatever kind the value is.
ghost use Rattle.std.specs.Prelude.{◌≡◌, ◌≤◌, [], IfOk, IfSome, MatchResult};
ghost use Rattle.json_value.specs.declared.json.Json.TheVariants as j;
ghost use Rattle.json_value.specs.PropertyMembers.{members_in};
ghost use Rattle.json_value.specs.Limits.{properties_depth};
ghost use Rattle.json_value.specs.Reading as reading;
ghost use Rattle.json_value.specs.Text.{json_text};
ghost use Rattle.json_reading.specs.Gives.{Fails, Gives};
ghost use Rattle.json_cursor.specs.Kinds.{IsKind};
ghost use Rattle.json_cursor.specs.declared.kinds.Kind.TheVariants.{Object};
ghost use Rattle.json_cursor.specs.Copying.{Copies, any};
ghost use Rattle.json_cursor.specs.Prefixes.{ReadsProperties};

use crate::copied_values::copy_value;
use crate::kinds::{Kind, kind_at};
use crate::spans::rest_after_value;
use json_reading::{Fault, TOPOLOGY_DEPTH, after_value, value_at};
use json_value::{Json, Properties};
use std::alloc::{AllocError, Global};

/// How deep the text of properties may nest.
const TEXT_DEPTH: u32 = TOPOLOGY_DEPTH - 1;

/// The room that a text is given first, in bytes.
const ROOM: usize = 64;

/// The object at the front as properties with their members, and what follows it.
fn members_at<'a>(
    alloc: Global,
    depth_left: u32,
    bytes: &'a [u8],
) -> Result<(Properties, &'a [u8]), Fault>
    requires { IsKind bytes.now Object }
    ensures { Gives (λ x. (j.Object x.0, x.1.now)) result (reading.value_at any depth_left bytes.now) }
{
    let (value, rest) = value_at(alloc, depth_left, bytes)?;
    match value {
        Json::Object(members) => Ok((Properties::of(members), rest)),
        _ => unreachable!(),
    }
}

/// The text of the object at the front where it stands as it is written, and what follows it.
#[inline(always)]
fn spelled_at(depth_left: u32, bytes: &[u8]) -> Option<(&[u8], &[u8])>
    ensures { IfSome result (λ x. Copies (reading.value_at any depth_left) json_text bytes.now x.1.now [] x.0.now) }
{
    let rest = rest_after_value(depth_left, bytes)?;
    let (text, _) = bytes.split_at(bytes.len() - rest.len());
    Some((text, rest))
}

/// The same bytes in a text that stays, if they stand in it so many bytes before its end.
#[inline(always)]
fn lent_at(text: &[u8], after: usize, lasting: Option<&'static [u8]>) -> Option<&'static [u8]>
    ensures { IfSome result (λ lent. lent.now ≡ text.now) }
{
    let lasting = lasting?;
    let end = lasting.len().checked_sub(after)?;
    let start = end.checked_sub(text.len())?;
    let lent = lasting.get(start..end)?;
    if lent == text { Some(lent) } else { None }
}

/// The properties with this text, which is lent from a text that stays if it stands there so many bytes before the end, and else copied.
#[inline(always)]
fn properties_of(
    alloc: Global,
    text: &[u8],
    after: usize,
    lasting: Option<&'static [u8]>,
) -> Result<Properties, AllocError>
    requires { json_text (j.Object (members_in text.now)) ≡ text.now }
    ensures { IfOk result (λ p. p ≡ members_in text.now) }
{
    if let Some(lent) = lent_at(text, after, lasting) {
        return Ok(Properties::lent(lent));
    }
    let mut copied = Vec::with_capacity(alloc, text.len())?;
    copied.extend_from_slice(text)?;
    Ok(Properties::of_text(copied))
}

/// The text of the object at the front, copied part by part, and what follows it.
fn copied_at<'a>(
    alloc: Global,
    depth_left: u32,
    bytes: &'a [u8],
) -> Result<(Vec<u8>, &'a [u8]), Fault>
    ensures { MatchResult result (λ x. Copies (reading.value_at any depth_left) json_text bytes.now x.1.now [] x.0.items) (λ fault. Fails fault (reading.value_at any depth_left bytes.now)) }
{
    let mut text = Vec::with_capacity(alloc, ROOM)?;
    let rest = copy_value(alloc, depth_left, bytes, &mut text)?;
    text.shrink_to_fit();
    Ok((text, rest))
}

/// The object at the front as properties with their text, and what follows it: at once where it stands as it is written, and else part by
/// part.
#[tactic(auto, using(crate::proofs::CopiedTexts::is_object, crate::proofs::CopiedTexts::text_of_object))]
fn text_at<'a>(
    alloc: Global,
    depth_left: u32,
    bytes: &'a [u8],
    lasting: Option<&'static [u8]>,
) -> Result<(Properties, &'a [u8]), Fault>
    requires kind { IsKind bytes.now Object }
    requires depth_left { depth_left ≤ properties_depth }
    ensures { Gives (λ x. (j.Object x.0, x.1.now)) result (reading.value_at any depth_left bytes.now) }
{
    let Some((text, rest)) = spelled_at(depth_left, bytes) else {
        let (text, rest) = copied_at(alloc, depth_left, bytes)?;
        return Ok((Properties::of_text(text), rest));
    };
    let properties = properties_of(alloc, text, rest.len(), lasting)?;
    Ok((properties, rest))
}

/// The properties that the value at the front gives, and what follows it: null gives none, and an object those with its members. Nothing is
/// read of any other value, which is passed over. They are kept as their text, unless it may nest deeper than such a text may. Where a text is
/// given that stays to the end of the process, of which `bytes` are the end, theirs is left there if it stands as it is written.
pub fn read_properties<'a>(
    alloc: Global,
    depth_left: u32,
    bytes: &'a [u8],
    lasting: Option<&'static [u8]>,
) -> Result<(Option<Option<Properties>>, &'a [u8]), Fault>
    ensures { ReadsProperties depth_left bytes.now result }
{
    match kind_at(bytes) {
        Kind::Null => {
            let rest = after_value(alloc, depth_left, bytes)?;
            Ok((Some(None), rest))
        }
        Kind::Object => {
            if depth_left > TEXT_DEPTH {
                let (properties, rest) = members_at(alloc, depth_left, bytes)?;
                return Ok((Some(Some(properties)), rest));
            }
            let (properties, rest) = text_at(alloc, depth_left, bytes, lasting)?;
            Ok((Some(Some(properties)), rest))
        }
        _ => {
            let rest = after_value(alloc, depth_left, bytes)?;
            Ok((None, rest))
        }
    }
}

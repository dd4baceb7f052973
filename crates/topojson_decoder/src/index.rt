// What is seen of the members of a topology (TopoJSON 1.0, section 2.1).
ghost use Rattle.std.specs.Prelude.{◌≡◌, [], ℕ, Option, Some, bytes_eq, length};
ghost use Rattle.std.specs.Option.{option_copied};
ghost use Rattle.json_reading.specs.Gives.{IsMalformed};
ghost use Rattle.json_cursor.specs.Members.{prefix_members};
ghost use Rattle.topojson_types.specs.declared.transform.Transform.{Transform as Scaling};
ghost use Rattle.topojson_decoder.specs.declared.index.By.{By as Begun};
ghost use Rattle.topojson_decoder.specs.Index.{EndsAt, FindsArcs, GoesOnOrLoses, Indexes, IsIndex, TakesAllOrLoses, TakesOrLoses, transform_by, unread};

use crate::arc_ends::KeptArcs;
use crate::arcs::kept_arcs_at;
use crate::held::held;
use crate::keeping::Keeping;
use crate::leaping::leap;
use crate::transforms::transform_at;
use geojson_types::Counts;
use json_cursor::{Occurrence, after_byte, name_at};
use json_reading::{Fault, Why, after_value, skip};
use std::alloc::Global;
use topojson_meaning::TopoFault;
use topojson_types::Transform;

/// By what the members of a topology are read: what is kept of its arcs, whether beside their texts, and what was counted before them.
#[derive(Clone, Copy)]
pub struct By {
    pub keeping: Keeping,
    pub texts: bool,
    pub counts: Counts,
}

/// What arcs were read as, or their fault, and what was counted then.
#[derive(Drop)]
pub struct ReadArcs<'a> {
    pub arcs: Result<KeptArcs<'a>, TopoFault>,
    pub counts: Counts,
}

/// Where the value of `arcs` begins, and what it was read as by the transform that was seen by then, or by none, if it was.
#[derive(Drop)]
pub struct FoundArcs<'a> {
    pub prefix: &'a [u8],
    pub read: Option<ReadArcs<'a>>,
}

/// What was seen of the members of a topology.
#[derive(Drop)]
pub struct Index<'a> {
    pub kind: Occurrence<&'a [u8]>,
    pub transform: Occurrence<Result<Option<Transform>, TopoFault>>,
    pub arcs: Occurrence<FoundArcs<'a>>,
    pub objects: Occurrence<&'a [u8]>,
}

/// Whether the name is this word.
#[inline(always)]
pub(crate) fn is_name(name: &str, word: &str) -> bool
    ensures { result ≡ bytes_eq name.now word.now }
{
    name == word
}

/// The arcs at the front, which are read by this transform, and what follows them.
fn read_at<'a>(
    alloc: Global,
    depth_left: u32,
    transform: Option<&Transform>,
    bytes: &'a [u8],
    start: By,
) -> Result<(FoundArcs<'a>, &'a [u8]), Fault>
    ensures { FindsArcs start (Some (option_copied transform.entry)) depth_left bytes.now result }
{
    let mut counts = start.counts;
    let answer = kept_arcs_at(
        alloc,
        depth_left,
        start.keeping,
        start.texts,
        transform,
        bytes,
        &mut counts,
    );
    let (arcs, rest) = held(alloc, depth_left, bytes, answer)?;
    let read = ReadArcs { arcs, counts };
    Ok((
        FoundArcs {
            prefix: bytes,
            read: Some(read),
        },
        rest,
    ))
}

/// What follows the value at the front. An array or an object is leaped over, and whether one stands there isn't known before it is read.
fn end_at<'a>(alloc: Global, depth_left: u32, bytes: &'a [u8]) -> Result<&'a [u8], Fault>
    ensures { EndsAt depth_left bytes.now result }
{
    if let Some(rest) = leap(bytes) {
        return Ok(rest);
    }
    after_value(alloc, depth_left, bytes)
}

/// The arcs at the front, which are leaped over, and what follows them.
fn passed_at<'a>(
    alloc: Global,
    depth_left: u32,
    bytes: &'a [u8],
) -> Result<(FoundArcs<'a>, &'a [u8]), Fault>
    ensures { (start : Begun) (t : Option (Option Scaling)) → FindsArcs start t depth_left bytes.now result }
{
    let rest = end_at(alloc, depth_left, bytes)?;
    Ok((
        FoundArcs {
            prefix: bytes,
            read: None,
        },
        rest,
    ))
}

/// How many bytes of arcs are looked at for a number that isn't whole.
const FEW: usize = 1000;

/// Whether the first numbers of the arcs at the front are whole, so that a transform may still come.
fn begin_whole(bytes: &[u8]) -> bool {
    'bytes: for byte in bytes.iter().take(FEW) {
        if *byte == b'.' || *byte == b'e' || *byte == b'E' {
            return false;
        }
    }
    true
}

/// The arcs at the front, which are read by the transform that was seen, and what follows them. They are leaped over where it has a fault, where
/// it may still come, and where arcs were seen before, as these are refused whatever they hold.
fn arcs_member<'a>(
    alloc: Global,
    depth_left: u32,
    transform: &Occurrence<Result<Option<Transform>, TopoFault>>,
    seen: &Occurrence<FoundArcs<'a>>,
    bytes: &'a [u8],
    start: By,
) -> Result<(FoundArcs<'a>, &'a [u8]), Fault>
    ensures { FindsArcs start (transform_by transform.now) depth_left bytes.now result }
{
    let Occurrence::Never = seen else {
        return passed_at(alloc, depth_left, bytes);
    };
    match transform {
        Occurrence::Again => passed_at(alloc, depth_left, bytes),
        Occurrence::Never => {
            if begin_whole(bytes) {
                return passed_at(alloc, depth_left, bytes);
            }
            read_at(alloc, depth_left, None, bytes, start)
        }
        Occurrence::Once(occurrence) => match occurrence {
            Err(_) => passed_at(alloc, depth_left, bytes),
            Ok(transform) => read_at(alloc, depth_left, transform.as_ref(), bytes, start),
        },
    }
}

/// Forgets what arcs were read as, which another transform makes other ones.
fn forget_read(arcs: &mut Occurrence<FoundArcs<'_>>)
    ensures { arcs.new ≡ unread arcs.old }
{
    match arcs {
        Occurrence::Once(found) => found.read = None,
        _ => {}
    }
}

impl<'a> Index<'a> {
    /// Of no members.
    pub(crate) fn none() -> Index<'a>
        ensures { (start : Begun) (depth_left : ℕ) → IsIndex start depth_left [] result }
    {
        Index {
            kind: Occurrence::Never,
            transform: Occurrence::Never,
            arcs: Occurrence::Never,
            objects: Occurrence::Never,
        }
    }

    /// Goes on with the value at the front of a member of this name, and gives what follows it.
    fn value(
        &mut self,
        alloc: Global,
        depth_left: u32,
        name: &str,
        bytes: &'a [u8],
        start: By,
    ) -> Result<&'a [u8], Fault>
        ensures { GoesOnOrLoses start depth_left name.now self.old self.new bytes.now result }
    {
        if is_name(name, "transform") {
            let (transform, rest) = transform_at(alloc, depth_left, bytes)?;
            self.transform.see(transform);
            forget_read(&mut self.arcs);
            return Ok(rest);
        }
        if is_name(name, "arcs") {
            let (arcs, rest) = arcs_member(
                alloc,
                depth_left,
                &self.transform,
                &self.arcs,
                bytes,
                start,
            )?;
            self.arcs.see(arcs);
            return Ok(rest);
        }
        if is_name(name, "objects") {
            let rest = end_at(alloc, depth_left, bytes)?;
            self.objects.see(bytes);
            return Ok(rest);
        }
        let rest = after_value(alloc, depth_left, bytes)?;
        if is_name(name, "type") {
            self.kind.see(bytes);
        }
        Ok(rest)
    }

    /// Goes on with the member at the front, and gives what follows it.
    fn member(
        &mut self,
        alloc: Global,
        depth_left: u32,
        bytes: &'a [u8],
        start: By,
    ) -> Result<&'a [u8], Fault>
        ensures { TakesOrLoses start depth_left self.old self.new bytes.now result }
    {
        let (name, value) = name_at(alloc, bytes)?;
        self.value(alloc, depth_left, name.as_str(), value, start)
    }
}

/// The fault of bytes that go on as no object does.
fn broken(left: &[u8]) -> Fault
    ensures { IsMalformed result }
{
    Fault::Malformed {
        why: Why::Syntax,
        left: left.len(),
    }
}

/// Goes on with the members after the brace of a topology, one or more, and gives what follows them.
fn members_into<'a>(
    alloc: Global,
    depth_left: u32,
    index: &mut Index<'a>,
    inside: &'a [u8],
    start: By,
) -> Result<&'a [u8], Fault>
    ensures { TakesAllOrLoses start depth_left (prefix_members depth_left (length inside.now) inside.now) index.old index.new result }
{
    let mut rest = inside;
    'members: for _ in 0..inside.len() {
        let following = index.member(alloc, depth_left, skip(rest), start)?;
        let mark = skip(following);
        if let Some(end) = after_byte(b'}', mark) {
            return Ok(end);
        }
        let Some(more) = after_byte(b',', mark) else {
            return Err(broken(mark));
        };
        rest = more;
    }
    Err(broken(rest))
}

/// What was seen of the members of the topology at the front, and what follows it; none of what is no object. Arcs and objects may be leaped
/// over: whether they stand there, so that this follows, is known once they are read.
pub(crate) fn members_seen_at<'a>(
    alloc: Global,
    depth_left: u32,
    bytes: &'a [u8],
    start: By,
) -> Result<Option<(Index<'a>, &'a [u8])>, Fault>
    ensures { Indexes start depth_left bytes.now result }
{
    let Some(inside) = after_byte(b'{', bytes) else {
        return Ok(None);
    };
    if depth_left == 0 {
        return Err(broken(inside));
    }
    let mut index = Index::none();
    if let Some(end) = after_byte(b'}', skip(inside)) {
        return Ok(Some((index, end)));
    }
    let rest = members_into(alloc, depth_left - 1, &mut index, inside, start)?;
    Ok(Some((index, rest)))
}

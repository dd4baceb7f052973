// The transform of a topology (TopoJSON 1.0, section 2.1.2).
ghost use Rattle.std.specs.Prelude.{◌≡◌, []};
ghost use Rattle.json_value.specs.Members.{Members as Listed};
ghost use Rattle.geojson_types.specs.declared.counts.Counts.{Counts as Counted};
ghost use Rattle.json_cursor.specs.Held.{FindsValue};
ghost use Rattle.topojson_meaning.specs.Reader.{pure};
ghost use Rattle.topojson_meaning.specs.Transforms.{transform_members, transform_number, transform_pair};
ghost use Rattle.topojson_decoder.specs.Transforms.{IsTexts, IsTransform, IsTransformOf};
ghost use Rattle.topojson_decoder.specs.Transforms as spec;

use crate::arrays::elements_at;
use crate::held::held;
use decimal_text::NumText;
use geojson_types::Counts;
use json_cursor::{
    Elements, Kind, Members, Occurrence, Stop, kind_at, name_at, object_at as members_at,
};
use json_reading::{Fault, after_value, value_at};
use std::alloc::Global;
use topojson_meaning::TopoFault;
use topojson_types::{Transform, TransformNumber};

/// The first two number texts of an array, as far as they were read.
#[derive(Drop)]
pub struct NumberTexts {
    pub x: Option<NumText>,
    pub y: Option<NumText>,
}

impl NumberTexts {
    /// Goes on with one more: the first, or else the second.
    fn put(&mut self, text: NumText)
        ensures { self.new ≡ spec.put self.old text }
    {
        match self.x {
            None => self.x = Some(text),
            Some(_) => self.y = Some(text),
        }
    }
}

impl<'a> Elements<'a> for NumberTexts {
    type Fault = TopoFault;

    type With = ();

    ghost takes = { λ _. spec.take };

    fn element(
        &mut self,
        alloc: Global,
        depth_left: u32,
        bytes: &'a [u8],
        _with: (),
        _counts: &mut Counts,
    ) -> Result<&'a [u8], Stop<TopoFault>> {
        if self.y.is_some() {
            let rest = after_value(alloc, depth_left, bytes)?;
            return Ok(rest);
        }
        match kind_at(bytes) {
            Kind::Number => {}
            _ => return Err(Stop::Fault(TopoFault::WrongKind)),
        }
        let (value, rest) = value_at(alloc, depth_left, bytes)?;
        let Some(text) = value.into_number() else {
            return Err(Stop::Fault(TopoFault::WrongKind));
        };
        self.put(text);
        Ok(rest)
    }
}

/// Both number texts, or the fault of an array that has fewer.
fn both_of(read: Result<NumberTexts, TopoFault>) -> Result<(NumText, NumText), TopoFault>
    ensures { result ≡ spec.both_of read }
{
    let NumberTexts { x, y } = read?;
    let x = x.ok_or(TopoFault::WrongKind)?;
    let y = y.ok_or(TopoFault::WrongKind)?;
    Ok((x, y))
}

/// The two number texts of the array at the front, or its fault, and what follows it. Elements after them are passed over.
fn texts_at<'a>(
    alloc: Global,
    depth_left: u32,
    bytes: &'a [u8],
) -> Result<(Result<(NumText, NumText), TopoFault>, &'a [u8]), Fault>
    ensures { FindsValue IsTexts depth_left bytes.now result }
{
    let mut counts = Counts::none();
    let none = NumberTexts { x: None, y: None };
    let answer = elements_at::<NumberTexts>(alloc, depth_left, none, bytes, &mut counts);
    let (read, rest) = held(alloc, depth_left, bytes, answer)?;
    Ok((both_of(read), rest))
}

/// What was seen of the members of a transform: their number texts, or their faults.
#[derive(Drop)]
pub struct TransformParts {
    pub scale: Occurrence<Result<(NumText, NumText), TopoFault>>,
    pub translate: Occurrence<Result<(NumText, NumText), TopoFault>>,
}

impl TransformParts {
    /// Of no members.
    #[tactic(auto, using(crate::proofs::TransformParts::no_parts))]
    fn none() -> TransformParts
        ensures { IsTransform [] result }
    {
        TransformParts {
            scale: Occurrence::Never,
            translate: Occurrence::Never,
        }
    }
}

impl<'a> Members<'a> for TransformParts {
    type With = ();

    ghost holds = { λ _ _. IsTransform };

    fn member(
        &mut self,
        alloc: Global,
        depth_left: u32,
        bytes: &'a [u8],
        _with: (),
    ) -> Result<&'a [u8], Fault> {
        let (name, value) = name_at(alloc, bytes)?;
        if name.is("scale") {
            let (texts, rest) = texts_at(alloc, depth_left, value)?;
            self.scale.see(texts);
            return Ok(rest);
        }
        if name.is("translate") {
            let (texts, rest) = texts_at(alloc, depth_left, value)?;
            self.translate.see(texts);
            return Ok(rest);
        }
        after_value(alloc, depth_left, value)
    }
}

/// What a member is read as that must be there once.
fn needed_texts(
    occurrence: Occurrence<Result<(NumText, NumText), TopoFault>>,
) -> Result<(NumText, NumText), TopoFault>
    ensures { result ≡ spec.needed occurrence }
{
    match occurrence {
        Occurrence::Never => Err(TopoFault::Missing),
        Occurrence::Again => Err(TopoFault::Duplicate),
        Occurrence::Once(texts) => texts,
    }
}

/// The number with this text, unless it is out of range.
#[tactic(auto, unfolding(topojson_meaning::specs::Transforms::transform_number))]
fn number_of(text: NumText) -> Result<TransformNumber, TopoFault>
    ensures { result ≡ transform_number text }
{
    TransformNumber::of(text).ok_or(TopoFault::Range)
}

/// Two numbers of a transform.
fn numbers_of(texts: (NumText, NumText)) -> Result<(TransformNumber, TransformNumber), TopoFault>
    ensures { (counts : Counted) → transform_pair texts counts ≡ pure result counts }
{
    let (x, y) = texts;
    match number_of(x) {
        Err(fault) => Err(fault),
        Ok(x) => match number_of(y) {
            Err(fault) => Err(fault),
            Ok(y) => Ok((x, y)),
        },
    }
}

/// The transform whose members were seen so: the texts of both are looked at before their ranges.
fn transform_of(parts: TransformParts) -> Result<Transform, TopoFault>
    ensures { (ms : Listed) (counts : Counted) → IsTransform ms parts → transform_members ms counts ≡ pure result counts }
{
    let TransformParts { scale, translate } = parts;
    let scale_texts = match needed_texts(scale) {
        Err(fault) => {
            drop(translate);
            return Err(fault);
        }
        Ok(texts) => texts,
    };
    let translate_texts = match needed_texts(translate) {
        Err(fault) => {
            drop(scale_texts);
            return Err(fault);
        }
        Ok(texts) => texts,
    };
    let scale = match numbers_of(scale_texts) {
        Err(fault) => {
            drop(translate_texts);
            return Err(fault);
        }
        Ok(numbers) => numbers,
    };
    match numbers_of(translate_texts) {
        Err(fault) => {
            drop(scale);
            Err(fault)
        }
        Ok(translate) => Ok(Transform { scale, translate }),
    }
}

/// The transform that a value of this kind is, which is no object, or its fault.
fn other_transform(kind: Kind) -> Result<Option<Transform>, TopoFault>
    ensures { result ≡ spec.other_transform kind }
{
    match kind {
        Kind::Null => Ok(None),
        _ => Err(TopoFault::WrongKind),
    }
}

/// The transform that the value at the front is, which is none where it is null, or its fault, and what follows it.
pub fn transform_at<'a>(
    alloc: Global,
    depth_left: u32,
    bytes: &'a [u8],
) -> Result<(Result<Option<Transform>, TopoFault>, &'a [u8]), Fault>
    ensures { FindsValue IsTransformOf depth_left bytes.now result }
{
    let none = TransformParts::none();
    let (found, rest) = members_at::<TransformParts>(alloc, depth_left, none, bytes, ())?;
    let Some(parts) = found else {
        let rest = after_value(alloc, depth_left, bytes)?;
        return Ok((other_transform(kind_at(bytes)), rest));
    };
    match transform_of(parts) {
        Err(fault) => Ok((Err(fault), rest)),
        Ok(transform) => Ok((Ok(Some(transform)), rest)),
    }
}

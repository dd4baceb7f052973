// The names of members.
ghost use Rattle.std.specs.Prelude.{◌≡◌, IfSome, Ok, Some, bytes_eq, true};
ghost use Rattle.std.specs.Str.{is_utf8};
ghost use Rattle.json_value.specs.Reading as reading;
ghost use Rattle.json_reading.specs.Gives.{Gives};
ghost use Rattle.json_cursor.specs.Members.{Names, ReadsString};
ghost use Rattle.json_cursor.specs.Names.{name_of};
ghost use Rattle.json_reading.specs.Strings.{simple};

use crate::marks::after_byte;
use crate::members::broken;
use json_reading::{Fault, after_word, plain_at, skip};
use json_value::OwnText;
use std::alloc::Global;

/// A string, as the name of a member is one.
#[derive(Drop)]
pub enum Name<'a> {
    /// It stands in the text as it is.
    Plain(&'a str),
    /// It was made of what stands there.
    Made(OwnText),
}

impl<'a> Name<'a> {
    /// Its text.
    #[inline(always)]
    pub fn as_str(&self) -> &str
        ensures { result.now ≡ name_of self.now }
    {
        match self {
            Name::Plain(name) => name,
            Name::Made(name) => name.as_str(),
        }
    }

    /// Whether it is this word.
    #[inline(always)]
    pub fn is(&self, word: &str) -> bool
        ensures { result ≡ bytes_eq (name_of self.now) word.now }
    {
        self.as_str() == word
    }
}

/// The name after its first quotation mark, and what follows its last one.
#[inline(always)]
#[tactic(auto, using(json_reading::proofs::PlainStrings::plain_string))]
fn text_at<'a>(alloc: Global, inside: &'a [u8]) -> Result<(Name<'a>, &'a [u8]), Fault>
    ensures { Gives (λ x. (name_of x.0, x.1.now)) result (reading.string_at is_utf8 inside.now) }
{
    if let Some((bytes, rest)) = plain_at(inside) {
        if let Ok(name) = str::from_utf8(bytes) {
            return Ok((Name::Plain(name), rest));
        }
    }
    let (name, rest) = json_reading::string_at(alloc, inside)?;
    Ok((Name::Made(name), rest))
}

/// The string at the front, and what follows it; none of a value that is no string, of which nothing is read.
#[tactic(auto, using(crate::proofs::Openings::is_no_text, crate::proofs::Openings::is_text, crate::proofs::Openings::no_text))]
pub fn string_at<'a>(alloc: Global, bytes: &'a [u8]) -> Result<Option<(Name<'a>, &'a [u8])>, Fault>
    ensures { ReadsString bytes.now result }
{
    let Some(inside) = after_byte(b'"', bytes) else {
        return Ok(None);
    };
    let found = text_at(alloc, inside)?;
    Ok(Some(found))
}

/// The name of the member at the front, whose escapes are the characters that they stand for, and where its value begins.
pub fn name_at<'a>(alloc: Global, bytes: &'a [u8]) -> Result<(Name<'a>, &'a [u8]), Fault>
    ensures { Names bytes.now result }
{
    let Some(inside) = after_byte(b'"', bytes) else {
        return Err(broken(bytes));
    };
    let (name, name_end) = text_at(alloc, inside)?;
    let Some(following) = after_byte(b':', skip(name_end)) else {
        return Err(broken(name_end));
    };
    Ok((name, skip(following)))
}

/// What follows this word and the quotation mark after it, where a string's front stands so in the text: without a look for its end.
#[inline(always)]
fn quoted_at<'a>(word: &str, inside: &'a [u8]) -> Option<&'a [u8]>
    requires { simple word.now ≡ true }
    ensures { IfSome result (λ rest. reading.string_at is_utf8 inside.now ≡ Some (word.now, rest.now)) }
{
    let Some(quoted) = after_word(word.as_bytes(), inside) else {
        return None;
    };
    let Some(name_end) = after_byte(b'"', quoted) else {
        return None;
    };
    Some(name_end)
}

/// This word as the string at the front, and what follows it, if it stands there as it is.
#[inline(always)]
#[tactic(auto, using(crate::proofs::Openings::is_text))]
pub fn word_at<'a>(word: &'static str, bytes: &'a [u8]) -> Option<(Name<'a>, &'a [u8])>
    requires { simple word.now ≡ true }
    ensures string { IfSome result (λ x. ReadsString bytes.now (Ok (Some x))) }
    ensures word { IfSome result (λ x. name_of x.0 ≡ word.now) }
{
    let Some(inside) = after_byte(b'"', bytes) else {
        return None;
    };
    let Some(rest) = quoted_at(word, inside) else {
        return None;
    };
    Some((Name::Plain(word), rest))
}

/// This word as the name of the member at the front, and where its value begins, if it stands there as it is.
#[inline(always)]
pub fn named_at<'a>(word: &'static str, bytes: &'a [u8]) -> Option<(Name<'a>, &'a [u8])>
    requires { simple word.now ≡ true }
    ensures member { IfSome result (λ x. Names bytes.now (Ok x)) }
    ensures word { IfSome result (λ x. name_of x.0 ≡ word.now) }
{
    let Some(inside) = after_byte(b'"', bytes) else {
        return None;
    };
    let Some(name_end) = quoted_at(word, inside) else {
        return None;
    };
    let Some(following) = after_byte(b':', skip(name_end)) else {
        return None;
    };
    Some((Name::Plain(word), skip(following)))
}

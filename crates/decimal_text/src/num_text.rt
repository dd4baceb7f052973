// Number texts.
ghost use Rattle.std.specs.Prelude.{◌≡◌, ◌≤◌, ◌^◌, pos, ◌≤ℤ◌, unsigned_abs, length, length as size, take, IsOk, IfOk, IfSome, IfNone};
ghost use Rattle.decimal_text.specs.Grammar.{IsNumber};
ghost use Rattle.decimal_text.specs.Scaling.{scaled_of};

use crate::few_bytes::FewBytes;
use crate::number_parts::split_number;
use crate::scaling::scaled_number;
use owned_values::Memory;
use std::alloc::Global;
use std::marker::Model;
use std::str;
use thiserror::Error;

/// A number at some decimal places: so many units of `10^-places`.
#[derive(Clone, Copy, Debug, PartialEq, Eq)]
pub struct Scaled {
    pub value: i128,
    /// Nothing was rounded.
    pub exact: bool,
}

/// The rounded magnitude passes the limit.
#[derive(Clone, Copy, Debug, PartialEq, Eq, Error)]
#[error("the number passes the limit")]
pub struct Range;

/// A text that is a number by RFC 8259, section 6. One of at most 22 bytes lies in the value itself.
#[derive(Debug, Drop)]
pub struct NumText {
    text: FewBytes,
}

impl Model for NumText {
    ghost use Rattle.std.specs.Prelude.{List, ℕ};
    ghost use Rattle.decimal_text.specs.Grammar.{IsNumber};

    ghost Value = { List ℕ };

    ghost view = { λ n. n.text };

    ghost invariant = { λ n. IsNumber n.text };
}

impl NumText {
    /// The number with this text.
    pub fn of(alloc: Global, text: &[u8]) -> Result<NumText, Memory>
        requires { IsNumber text.now }
        ensures same { IfOk result (λ n. n ≡ text.now) }
        ensures few { length text.now ≤ 22 → IsOk result }
    {
        NumText::prefix(alloc, text, text.len())
    }

    /// The number whose text the first `length` of the bytes are.
    pub fn prefix(alloc: Global, bytes: &[u8], length: usize) -> Result<NumText, Memory>
        requires within { length ≤ size bytes.now }
        requires number { IsNumber (take length bytes.now) }
        ensures same { IfOk result (λ n. n ≡ take length bytes.now) }
        ensures few { length ≤ 22 → IsOk result }
    {
        Ok(NumText {
            text: FewBytes::prefix(alloc, bytes, length)?,
        })
    }

    /// The number with this text, if the text is a number.
    pub fn read(alloc: Global, text: &str) -> Result<Option<NumText>, Memory>
        ensures some { IfOk result (λ o. IfSome o (λ _. IsNumber text.now)) }
        ensures none { IfOk result (λ o. IfNone o (¬ IsNumber text.now)) }
        ensures same { IfOk result (λ o. IfSome o (λ n. n ≡ text.now)) }
        ensures few { length text.now ≤ 22 → IsOk result }
    {
        match split_number(text.as_bytes()) {
            Some(_) => Ok(Some(NumText::of(alloc, text.as_bytes())?)),
            None => Ok(None),
        }
    }

    /// A copy of the number text, in memory of its own.
    pub fn copy(&self, alloc: Global) -> Result<NumText, Memory>
        ensures same { IfOk result (λ n. n ≡ self.now) }
        ensures few { length self.now ≤ 22 → IsOk result }
    {
        NumText::of(alloc, self.as_bytes())
    }

    /// The bytes of the number's text as it was read.
    pub fn as_bytes(&self) -> &[u8]
        ensures text { result.now ≡ self.now }
        ensures number { IsNumber self.now }
    {
        self.text.as_slice()
    }

    /// The number's text as it was read.
    #[tactic(auto, using(crate::proofs::NumberBytes::same_utf8))]
    pub fn text(&self) -> &str
        ensures text { result.now ≡ self.now }
        ensures number { IsNumber self.now }
    {
        let Ok(text) = str::from_utf8(self.as_bytes()) else {
            unreachable!();
        };
        text
    }

    /// The number of units of `10^-places` that is nearest to the number, halves away from zero.
    /// `Range` where that is more than `limit` units in magnitude.
    pub fn scaled(&self, places: u32, limit: i128) -> Result<Scaled, Range>
        requires places { places ≤ 20 }
        requires low { pos 0 ≤ℤ limit }
        requires high { limit ≤ℤ pos (10 ^ 37) }
        ensures value { result ≡ scaled_of places (unsigned_abs limit) self.now }
        ensures within { IfOk result (λ s. unsigned_abs s.value ≤ unsigned_abs limit) }
    {
        match split_number(self.as_bytes()) {
            Some(parts) => scaled_number(parts, places, limit),
            None => unreachable!(),
        }
    }
}

// Single bytes and words that have to stand at the front of bytes.
ghost use Rattle.std.specs.Prelude.{◌≡◌, ◌∷◌, [], length};
ghost use Rattle.json_reading.specs.Gives.{Gives, StopsBefore};
ghost use Rattle.json_value.specs.Reading as spec;

use crate::bytes::after_word;
use crate::fault::{Fault, Why};

/// Reading stops before the rest: it ends too early, or its first byte does not belong there.
pub fn stopped(rest: &[u8]) -> Fault
    ensures { StopsBefore (length rest.now) result }
{
    let why = if rest.is_empty() {
        Why::End
    } else {
        Why::Syntax
    };
    Fault::Malformed {
        why,
        left: rest.len(),
    }
}

/// What follows the byte, which has to be first.
pub fn expected(byte: u8, bytes: &[u8]) -> Result<&[u8], Fault>
    ensures { Gives (λ x. x.now) result (spec.after_word (byte ∷ []) bytes.now) }
{
    match after_word(&[byte], bytes) {
        Some(rest) => Ok(rest),
        None => Err(stopped(bytes)),
    }
}

/// What follows the word, of which each byte has to be there.
#[tactic(auto, using(crate::proofs::CheckedWords::fails, crate::proofs::CheckedWords::goes_on, crate::proofs::CheckedWords::ends))]
pub fn expected_word<'a>(word: &[u8], bytes: &'a [u8]) -> Result<&'a [u8], Fault>
    ensures { Gives (λ x. x.now) result (spec.after_word word.now bytes.now) }
{
    let mut rest = bytes;
    for byte in word {
        rest = expected(*byte, rest)?;
    }
    Ok(rest)
}

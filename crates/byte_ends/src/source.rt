// A source of bytes, and all that it has left.
ghost use Rattle.std.specs.Prelude.{◌≡◌, ◌≢◌, ◌+◌, ◌<◌, ◌≤◌, IfOk, IfSome, OnOk, length, true, vec_len};
ghost use Rattle.std.specs.Io.{ReadsAtMost};
ghost use Rattle.std.specs.Io.KnownBytes.{IsAtEnd, ReadConsumes};
ghost use Rattle.byte_ends.specs.Ends.{CountsEmpty, CountsEnd, CountsFailure, CountsGiving, GaveAtMost, IsPast, saturated};

use crate::feed::{Failed, Feed};
use std::alloc::{AllocError, Global};
use std::marker::Model;
use thiserror::Error;

/// The most bytes that a program should take from one source: a limit for `read_all`.
pub const MAX_INPUT: usize = 1_000_000_000;

// How many bytes `read_all` asks of the device at a time: `block_size` of the specs.
const BLOCK: usize = 65_536;

/// Bytes to be read, from a device that had not failed when the source was made.
#[derive(Drop)]
pub struct Source<R: Feed> {
    feed: R,
}

impl<R: Feed> Model for Source<R> {
    ghost use Rattle.byte_ends.specs.Ends.{Fed};

    ghost Value = { Fed };

    ghost view = { λ s. record {
      left = R.left s.feed;
      failures = R.failures s.feed;
      giving_reads = R.giving_reads s.feed;
      empty_reads = R.empty_reads s.feed;
    } };
}

impl<R: Feed> Source<R> {
    /// A source over a device that has not failed.
    pub fn new(feed: R) -> Source<R>
        requires { R.failures feed ≡ 0 }
        ensures left { result.left ≡ R.left feed }
        ensures failures { result.failures ≡ 0 }
        ensures giving { result.giving_reads ≡ R.giving_reads feed }
        ensures empty { result.empty_reads ≡ R.empty_reads feed }
    {
        Source { feed }
    }

    /// How many reads of the device failed: a count that stays at `u64::MAX` once it is there.
    pub fn failures(&self) -> u64
        ensures { result ≡ self.now.failures }
    {
        self.feed.failures()
    }

    fn has_more_than(&self, limit: usize) -> bool
        ensures { result ≡ true → IfSome self.now.left (λ bytes. limit < length bytes) }
    {
        self.feed.has_more_than(limit)
    }

    fn read(&mut self, buf: &mut [u8]) -> Result<usize, Failed>
        ensures bound { ReadsAtMost result buf.new }
        ensures bytes { ReadConsumes self.old.left self.new.left result buf.new }
        ensures failures { CountsFailure self.old.failures result self.new.failures }
        ensures giving { CountsGiving self.old.giving_reads result self.new.giving_reads }
        ensures empty { CountsEmpty self.old.empty_reads result self.new.empty_reads }
    {
        self.feed.read(buf)
    }
}

/// Why a source was not read to its end.
#[derive(Clone, Copy, Debug, PartialEq, Eq, Error)]
pub enum ReadFault {
    /// The device failed.
    #[error("the source could not be read")]
    Read,
    /// The source had more bytes left than the limit.
    #[error("the source has more bytes than its limit")]
    TooLong,
    /// An allocation was refused.
    #[error("out of memory")]
    Memory,
}

impl From<AllocError> for ReadFault {
    ghost use Rattle.byte_ends.specs.declared.source.ReadFault.TheVariants.{Memory};

    ghost from_gives = { λ _ e. e ≡ Memory };

    fn from(_error: AllocError) -> ReadFault {
        ReadFault::Memory
    }
}

/// All bytes that the source has left, if they are no more than `limit`. Where more are known to be left, nothing is read. The first failed read ends
/// it, and so does the first read that passes the limit, which gives 65,536 bytes at most; what was read until then is lost. At most `limit` + 1
/// reads give bytes, and one at most gives none or fails: the last.
pub fn read_all<R: Feed>(
    alloc: Global,
    source: &mut Source<R>,
    limit: usize,
) -> Result<Vec<u8>, ReadFault>
    ensures all { IfOk result (λ v. IfSome source.old.left (λ left. v.items ≡ left)) }
    ensures end { OnOk result (IsAtEnd source.new.left) }
    ensures short { IfOk result (λ v. vec_len v ≤ limit) }
    ensures long { result ≡ Err ReadFault.TooLong
        → IfSome source.old.left (λ left. limit < length left) }
    ensures read { result ≡ Err ReadFault.Read
        → source.new.failures ≡ saturated (source.old.failures + 1) }
    // No call of the device follows the first one that fails or passes the limit.
    ensures within { result ≢ Err ReadFault.TooLong → GaveAtMost limit source.old source.new }
    ensures past { result ≡ Err ReadFault.TooLong → IsPast limit source.old source.new }
    ensures ends { CountsEnd source.old.empty_reads result source.new.empty_reads }
    ensures sound { result ≢ Err ReadFault.Read → source.new.failures ≡ source.old.failures }
{
    if source.has_more_than(limit) {
        return Err(ReadFault::TooLong);
    }
    let mut room = zeros(alloc, BLOCK)?;
    let block = room.as_mut_slice();
    let mut bytes = Vec::new(alloc);
    loop {
        match source.read(block) {
            Ok(0) => {
                // The room that was made ahead is given back.
                bytes.shrink_to_fit();
                return Ok(bytes);
            }
            Ok(n) if n > limit - bytes.len() => return Err(ReadFault::TooLong),
            Ok(n) => bytes.extend_from_slice(&block[..n])?,
            Err(Failed) => return Err(ReadFault::Read),
        }
    }
}

// Apart from `read_all`, whose proof would spell out a list of so many zeros.
fn zeros(alloc: Global, len: usize) -> Result<Vec<u8>, AllocError>
    ensures { IfOk result (λ v. vec_len v ≡ len) }
{
    vec![in alloc; 0u8; len]
}

// Texts that are written part by part.
ghost use Rattle.std.specs.Prelude.{ℕ, List};
ghost use Rattle.byte_ends.specs.Continues.{Continues};
ghost use Rattle.byte_ends.specs.Ends.{Drained};
ghost use Rattle.byte_ends.specs.Writes.{Sends, Writes};

use crate::drain::Drain;
use crate::sink::{Broken, Sink, WriteFault};

/// How far a text is written: the count of its bytes so far, or the fault that cut it short. After a fault no part is
/// written, and the fault stays.
pub type Progress = Result<u64, WriteFault>;

/// Writes a part of a text as `Sink::put` does, unless an earlier part failed.
pub fn put_part<W: Drain>(bytes: &[u8], so_far: Progress, sink: &mut Sink<W>) -> Progress
    ensures { Continues sink.old sink.new so_far bytes.now result }
{
    match so_far {
        Ok(count) => sink.put(count, bytes),
        Err(fault) => Err(fault),
    }
}

/// Flushes the sink after a text that was written to it with this answer, unless that is a fault. Where the device fails in
/// flushing, the fault counts the whole text as sent.
pub fn flush_after<W: Drain>(written: Progress, sink: &mut Sink<W>) -> Progress
    // What was written stays written, and an `Ok` says that no call of the device failed and that all is passed on.
    ensures { (start : Drained) (count : ℕ) (text : List ℕ) → Writes start sink.old count text written → Sends start sink.new count text result }
{
    let sent = written?;
    match sink.finish() {
        Ok(()) => Ok(sent),
        Err(Broken) => Err(WriteFault::Write { sent }),
    }
}

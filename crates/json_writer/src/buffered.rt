// The text that goes to a sink.
ghost use Rattle.std.specs.Prelude.{◌≡◌, ◌+◌, ◌++◌, ◌≤◌, [], Ok, length};
ghost use Rattle.byte_ends.specs.Writes.{Writes};
ghost use Rattle.json_writer.specs.Standing.{Stands, Start};

use crate::out::Out;
use crate::room_writer::ROOM;
use crate::short_text::ShortText;
use crate::trace::Trace;
use byte_ends::{Drain, Progress, Sink, put_part};

// So many bytes have room for two numbers in brackets.
const ROOM_OF_PAIR: usize = 96;

/// A text that goes to a sink, short parts of it at once. Where the device fails no more of it is taken, which its end tells.
#[derive(Drop)]
pub struct Buffered<'s, W: Drain> {
    sink: &'s mut Sink<W>,
    so_far: Progress,
    held: ShortText,
    trace: Trace,
}

impl<'s, W: Drain> Buffered<'s, W> {
    /// Nothing yet, over this sink.
    pub fn over(sink: &'s mut Sink<W>) -> Buffered<'s, W>
        ensures text { result.trace.text ≡ [] }
        ensures begins { Stands (record { name = sink.entry.ghost_name; sink = sink.old }) result.sink.ghost_name result.sink.now result.so_far result.held result.trace.text }
    {
        let so_far = put_part(b"", Ok(0), sink);
        Buffered {
            sink,
            so_far,
            held: ShortText::new(),
            trace: Trace::none(),
        }
    }

    /// Writes what is held.
    #[tactic(auto, using(crate::proofs::Standings::standings))]
    fn write_held(&mut self)
        ensures text { self.new.trace.text ≡ self.old.trace.text }
        ensures none { self.new.held ≡ [] }
        ensures kept { (start : Start) → Stands start self.old.sink.ghost_name self.old.sink.now self.old.so_far self.old.held self.old.trace.text
            → Stands start self.new.sink.ghost_name self.new.sink.now self.new.so_far self.new.held self.new.trace.text }
    {
        self.so_far = put_part(self.held.as_slice(), self.so_far, self.sink);
        self.held.clear();
    }

    /// Makes room for so many bytes more.
    fn make_room(&mut self, more: usize)
        requires { more ≤ 512 }
        ensures text { self.new.trace.text ≡ self.old.trace.text }
        ensures room { length self.new.held + more ≤ 512 }
        ensures kept { (start : Start) → Stands start self.old.sink.ghost_name self.old.sink.now self.old.so_far self.old.held self.old.trace.text
            → Stands start self.new.sink.ghost_name self.new.sink.now self.new.so_far self.new.held self.new.trace.text }
    {
        if self.held.len() > ROOM - more {
            self.write_held();
        }
    }

    /// These bytes more, which are not held.
    #[tactic(auto, using(crate::proofs::Standings::standings))]
    fn put_long(&mut self, bytes: &[u8])
        ensures text { self.new.trace.text ≡ self.old.trace.text ++ bytes.now }
        ensures kept { (start : Start) → Stands start self.old.sink.ghost_name self.old.sink.now self.old.so_far self.old.held self.old.trace.text
            → Stands start self.new.sink.ghost_name self.new.sink.now self.new.so_far self.new.held self.new.trace.text }
    {
        self.write_held();
        self.so_far = put_part(bytes, self.so_far, self.sink);
        self.trace = self.trace.with(bytes);
    }

    /// The answer of the whole text: how many bytes it has, or why it isn't written whole.
    #[tactic(auto, using(crate::proofs::Standings::standings))]
    pub fn end(self) -> Progress
        ensures { (start : Start) → Stands start self.entry.sink.ghost_name self.entry.sink.now self.entry.so_far self.entry.held self.entry.trace.text
            → Writes start.sink self.exit.0.now 0 self.entry.trace.text result }
    {
        let Buffered {
            sink,
            so_far,
            held,
            trace: _trace,
        } = self;
        put_part(held.as_slice(), so_far, sink)
    }
}

impl<W: Drain> Out for Buffered<'_, W> {
    ghost text = { λ o. o.trace.text };

    ghost good = { λ o start. Stands start o.sink.ghost_name o.sink.now o.so_far o.held o.trace.text };

    #[tactic(auto, using(crate::proofs::Standings::standings))]
    fn put(&mut self, bytes: &[u8]) {
        if bytes.len() > ROOM {
            self.put_long(bytes);
            return;
        }
        self.make_room(bytes.len());
        self.held.push(bytes);
        self.trace = self.trace.with(bytes);
    }

    #[tactic(auto, using(crate::proofs::Standings::standings))]
    fn put_units(&mut self, units: i64, places: u32) {
        self.make_room(ROOM_OF_PAIR);
        let before = self.held.len();
        self.held.push_units(units, places);
        self.trace = self.trace.with(self.held.after(before));
    }

    #[tactic(auto, using(crate::proofs::Standings::standings))]
    fn put_units_pair(&mut self, x: i64, y: i64, places: u32) {
        self.make_room(ROOM_OF_PAIR);
        let before = self.held.len();
        self.held.push_pair(x, y, places);
        self.trace = self.trace.with(self.held.after(before));
    }
}

// An explanation in brief.
ghost use Rattle.std.specs.Prelude.{◌≡◌, ◌++◌};
ghost use Rattle.byte_ends.specs.Writes.{Writes};
ghost use Rattle.json_writer.specs.Standing.{Start};
ghost use Rattle.explanations.specs.Brief as spec;
ghost use Rattle.reports.specs.Lines.{one_line};

use byte_ends::{Drain, Sink, WriteFault};
use itoa::Buffer;
use json_reading::after_word;
use json_writer::{Buffered, Out};

/// How a line ends that tells of a feature that is lost.
pub(crate) const LOSS_ENDING: &str = ": nothing of its geometry is left";

/// How a line ends that tells of a layer with features that have no geometry.
pub(crate) const BARE_ENDING: &str = " no geometry";

/// How a line ends that tells of members of an input that aren't read.
pub(crate) const UNREAD_ENDING: &str = " left out";

/// How a line ends that tells of a layer whose coordinates may not be degrees.
pub(crate) const SYSTEM_ENDING: &str = ", which may not be degrees";

/// How a line ends that tells of a layer which seems to have its latitudes first.
pub(crate) const SWAPPED_ENDING: &str = ", as GeoJSON has the longitude first";

/// How a line begins that tells of an object of a topology.
pub(crate) const OBJECT_BEGINNING: &str = "  object ";

/// So many of a kind stand beside each other at most.
const MOST: u64 = 10;

/// What a line tells of, where there may be many such lines.
#[derive(Clone, Copy)]
pub enum LineKind {
    /// A feature that is lost.
    Loss,
    /// A layer with features that have no geometry.
    Bare,
    /// Members of an input that aren't read.
    Unread,
    /// A layer whose coordinates may not be degrees.
    System,
    /// A layer that seems to have its latitudes first.
    Swapped,
    /// An object of a topology.
    Object,
}

/// Lines that stand beside each other: their kind, if they have one, and how many they are.
#[derive(Clone, Copy)]
pub struct Run {
    pub kind: Option<LineKind>,
    pub count: u64,
}

/// What a line tells of by its beginning.
fn other_kind(line: &[u8]) -> Option<LineKind>
    ensures { result ≡ spec.other_kind line.now }
{
    if after_word(OBJECT_BEGINNING.as_bytes(), line).is_some() {
        return Some(LineKind::Object);
    }
    None
}

/// What a line tells of, where there may be many such lines.
fn kind_of(line: &[u8]) -> Option<LineKind>
    ensures { result ≡ spec.kind_of line.now }
{
    if line.ends_with(LOSS_ENDING.as_bytes()) {
        Some(LineKind::Loss)
    } else if line.ends_with(BARE_ENDING.as_bytes()) {
        Some(LineKind::Bare)
    } else if line.ends_with(UNREAD_ENDING.as_bytes()) {
        Some(LineKind::Unread)
    } else if line.ends_with(SYSTEM_ENDING.as_bytes()) {
        Some(LineKind::System)
    } else if line.ends_with(SWAPPED_ENDING.as_bytes()) {
        Some(LineKind::Swapped)
    } else {
        other_kind(line)
    }
}

/// Whether both are of one kind.
fn are_same(one: Option<LineKind>, other: Option<LineKind>) -> bool
    ensures { result ≡ spec.are_same one other }
{
    let (Some(one), Some(other)) = (one, other) else {
        return false;
    };
    match (one, other) {
        (LineKind::Loss, LineKind::Loss) => true,
        (LineKind::Bare, LineKind::Bare) => true,
        (LineKind::Unread, LineKind::Unread) => true,
        (LineKind::System, LineKind::System) => true,
        (LineKind::Swapped, LineKind::Swapped) => true,
        (LineKind::Object, LineKind::Object) => true,
        _ => false,
    }
}

impl Run {
    /// No line.
    fn none() -> Run
        ensures { result ≡ spec.start }
    {
        Run {
            kind: None,
            count: 0,
        }
    }

    /// With a line of this kind after them.
    fn with(self, kind: Option<LineKind>) -> Run
        ensures { result ≡ spec.run_of_kind self kind }
    {
        if are_same(self.kind, kind) {
            Run {
                kind: self.kind,
                count: self.count.saturating_add(1),
            }
        } else {
            Run { kind, count: 1 }
        }
    }
}

/// Puts after so many lines of a kind how many don't stand.
fn put_more<O: Out>(count: u64, out: &mut O)
    ensures text { O.text out.new ≡ O.text out.old ++ spec.more_text count }
    ensures kept { (start : Start) → O.good out.old start → O.good out.new start }
{
    if count <= MOST {
        return;
    }
    let mut buffer = Buffer::new();
    out.put(b"  and ");
    out.put(buffer.format(count - MOST).as_bytes());
    out.put(b" more\n");
}

/// Puts a line.
#[tactic(auto, using(std::proofs::Common::append_assoc))]
fn put_line<O: Out>(line: &str, out: &mut O)
    ensures text { O.text out.new ≡ O.text out.old ++ spec.line_text line.now }
    ensures kept { (start : Start) → O.good out.old start → O.good out.new start }
{
    out.put(line.as_bytes());
    out.put(b"\n");
}

/// Puts a line of this kind after these.
#[tactic(auto, using(std::proofs::Common::append_assoc))]
fn put_after<O: Out>(run: Run, kind: Option<LineKind>, line: &str, out: &mut O)
    ensures text { O.text out.new ≡ O.text out.old ++ spec.text_of_kind run kind line.now }
    ensures kept { (start : Start) → O.good out.old start → O.good out.new start }
{
    if !are_same(run.kind, kind) {
        put_more(run.count, out);
        return put_line(line, out);
    }
    if run.count < MOST {
        put_line(line, out);
    }
}

/// Puts what stands after the last line feed, if there is anything, after these lines.
fn put_rest<O: Out>(run: Run, rest: &str, out: &mut O)
    ensures text { O.text out.new ≡ O.text out.old ++ spec.brief_after run (one_line rest.now) }
    ensures kept { (start : Start) → O.good out.old start → O.good out.new start }
{
    if rest.is_empty() {
        return put_more(run.count, out);
    }
    let kind = kind_of(rest.as_bytes());
    put_after(run, kind, rest, out);
    put_more(run.with(kind).count, out);
}

/// Puts an explanation in brief, as `put_brief` writes it.
fn put_lines<O: Out>(text: &str, out: &mut O)
    ensures text { O.text out.new ≡ O.text out.old ++ spec.brief text.now }
    ensures kept { (start : Start) → O.good out.old start → O.good out.new start }
{
    let mut run = Run::none();
    let mut rest = text;
    'lines: while let Some((line, following)) = rest.split_once('\n') {
        let kind = kind_of(line.as_bytes());
        put_after(run, kind, line, out);
        run = run.with(kind);
        rest = following;
    }
    put_rest(run, rest, out);
}

/// Writes an explanation in brief: of lines of one kind beside each other ten, and how many more there are. This takes no memory.
pub fn put_brief<W: Drain>(text: &str, sink: &mut Sink<W>) -> Result<u64, WriteFault>
    ensures { Writes sink.old sink.new 0 (spec.brief text.now) result }
{
    let mut out = Buffered::over(sink);
    put_lines(text, &mut out);
    out.end()
}

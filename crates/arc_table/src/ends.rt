// Arcs, found by the lesser of their two ends.
ghost use Rattle.std.specs.Prelude.{◌≡◌, ◌<◌, ◌≤◌, ◌^◌, IfOk, OnOk, List, Some, length, reverse};
ghost use Rattle.std.specs.Ordering.{is_lt};
ghost use Rattle.geometry.specs.Points.{Point};
ghost use Rattle.arc_table.specs.Ends.{end_of, is_turned, no_ends, same_way, segment_cmp, start_of, AreEnds, EndIdentifies};
ghost use Rattle.arc_table.specs.Growth as spec;
ghost use Rattle.arc_table.specs.Growth.{found, grown};

use geometry::{ArcRef, Position};
use junctions::{Key, Numbering};
use owned_values::Memory;
use std::alloc::Global;
use std::marker::Model;

/// Two positions in a row. Segments compare by the first and then by the second.
#[derive(Clone, Copy, Debug, PartialEq, Eq, PartialOrd, Ord, Hash)]
pub struct Segment {
    from: Position,
    to: Position,
}

impl Model for Segment {
    ghost use Rattle.cutter.specs.Segments.{Segment as Pair};

    ghost Value = { Pair };

    ghost view = { λ s. record { from = s.from; to = s.to } };

    ghost inverse = { λ s. record { from = s.from; to = s.to } };
}

impl Key for Segment {
    ghost use Rattle.arc_table.specs.Keys.{equal_same_segment, equal_segments};
    ghost use Rattle.arc_table.specs.Ends.{equal as equal_to};

    ghost same = { equal_to };

    ghost equal_same = { equal_same_segment };

    ghost same_is = { equal_segments };
}

/// The ends of arcs: of each the lesser of its first segment and of its last one, backwards, so that an arc and its reverse have one. By it an
/// arc has its number.
#[derive(Debug, Drop)]
pub struct Ends {
    segments: Numbering<Segment>,
    /// For each arc whether its end is its last segment, backwards.
    turned: Vec<bool>,
}

impl Model for Ends {
    ghost use Rattle.arc_table.specs.Ends.{EndsAndWays};

    ghost Value = { EndsAndWays };

    ghost view = { λ e. record { segments = e.segments; turned = e.turned.items } };
}

impl Ends {
    /// No ends yet, with room for those of so many arcs, which are found by hashes that begin with the seed.
    pub fn with_room(alloc: Global, arcs: usize, seed: u64) -> Result<Ends, Memory>
        ensures { IfOk result (λ ends. ends ≡ no_ends) }
    {
        let segments = Numbering::with_room(alloc, arcs, seed)?;
        let turned = Vec::with_capacity(alloc, arcs)?;
        Ok(Ends { segments, turned })
    }

    /// The index of the first arc that is alike the piece. If there is none, the piece's end is that of the next arc.
    pub fn find_or_add(&mut self, piece: &[Position]) -> Result<Option<ArcRef>, Memory>
        requires long { 2 ≤ length piece.now }
        ensures found { IfOk result
            (λ o. (arcs : List (List Point)) → AreEnds arcs self.old → EndIdentifies arcs piece.now → o ≡ found 0 arcs piece.now) }
        ensures known { OnOk result
            ((arcs : List (List Point)) → AreEnds arcs self.old → EndIdentifies arcs piece.now → AreEnds (grown arcs piece.now) self.new) }
    {
        let (end, turned) = lesser_end(piece);
        let number = self.segments.number(end)?;
        let known = self.turned.as_slice();
        if number < known.len() {
            let forward = is_same_way(turned, known[number]);
            return Ok(Some(directed(number, forward)));
        }
        self.turned.push(turned)?;
        Ok(None)
    }
}

// Whether two lines with the same end both begin with it, or both end.
fn is_same_way(turned: bool, other_turned: bool) -> bool
    ensures { result ≡ same_way turned other_turned }
{
    if turned { other_turned } else { !other_turned }
}

// The arc of this number, as it stands or reversed.
pub fn directed(number: usize, forward: bool) -> ArcRef
    requires { number < 2 ^ 63 }
    ensures { result ≡ spec.directed forward number }
{
    if forward {
        return ArcRef::forward(number);
    }
    let written = number as i64;
    ArcRef::of(-1 - written)
}

// The lesser of the first segment of the line and of its last one, backwards, and whether that is the last one.
fn lesser_end(line: &[Position]) -> (Segment, bool)
    requires { 2 ≤ length line.now }
    ensures end { end_of line.now ≡ Some result.0 }
    ensures turned { is_turned line.now ≡ result.1 }
{
    let first = first_segment(line);
    let last = last_segment_backwards(line);
    if goes_before(last, first) {
        (last, true)
    } else {
        (first, false)
    }
}

// Whether the first goes before the second.
fn goes_before(segment: Segment, other: Segment) -> bool
    ensures { result ≡ is_lt (segment_cmp segment other) }
{
    segment < other
}

// The first segment of the line.
fn first_segment(line: &[Position]) -> Segment
    requires { 2 ≤ length line.now }
    ensures { start_of line.now ≡ Some result }
{
    Segment {
        from: line[0],
        to: line[1],
    }
}

// The last segment of the line, backwards.
fn last_segment_backwards(line: &[Position]) -> Segment
    requires { 2 ≤ length line.now }
    ensures { start_of (reverse line.now) ≡ Some result }
{
    let last = line.len() - 1;
    Segment {
        from: line[last],
        to: line[last - 1],
    }
}

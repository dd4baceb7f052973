// Where lines meet badly, in words.
use crate::building::decimal_of_units;
use crate::owners::{Owner, owners_of};
use crate::samples::front_of;
use geojson_types::Position;
use json_value::Items;
use reports::features_in;
use segment_crossings::Crossing;
use std::alloc::{AllocError, Global};
use topojson_decoder::add_label;
use topojson_types::Topology;

/// So many pairs of segments are named at most.
const MOST_NAMED: usize = 20;

/// So many pairs are asked for: one more, which tells that there are others.
pub(crate) const MOST_ASKED: usize = MOST_NAMED + 1;

/// A segment, by its ends.
type Ends = (Position, Position);

/// A position, as GeoJSON has it.
fn position_text(alloc: Global, at: Position) -> Result<String, AllocError> {
    let x = decimal_of_units(alloc, at.x())?;
    let y = decimal_of_units(alloc, at.y())?;
    format!(in alloc; "[{x}, {y}]")
}

/// Where a segment of arcs stands: the number of its arc, and that of its second end among the arc's positions.
#[derive(Clone, Copy, PartialEq, Eq)]
struct Place {
    arc: usize,
    end: usize,
}

impl Place {
    /// That of the segment that comes next, if the arc has one more.
    fn next(self) -> Place {
        Place {
            arc: self.arc,
            end: self.end.saturating_add(1),
        }
    }
}

/// The number of the second end of the first segment with these ends, from the segment on whose second end has this number.
fn end_in(positions: &[Position], from: usize, ends: &Ends) -> Option<usize> {
    for end in from.max(1)..positions.len() {
        if positions[end - 1] == ends.0 && positions[end] == ends.1 {
            return Some(end);
        }
    }
    None
}

/// The first segment with these ends, from this place on.
fn segment_from(arcs: &[Items<Position>], from: Place, ends: &Ends) -> Option<Place> {
    for arc in from.arc..arcs.len() {
        let first = if arc == from.arc { from.end } else { 1 };
        if let Some(end) = end_in(arcs[arc].as_slice(), first, ends) {
            return Some(Place { arc, end });
        }
    }
    None
}

/// Where both segments of a pair stand.
#[derive(Clone, Copy)]
struct Pair {
    first: Place,
    second: Place,
}

/// Where the pair with these ends stands, which is the next after this one. Pairs come in the order of their first segments, and those of one
/// first segment in the order of their second. So of segments with the same ends that one is meant that comes first after the pair before.
fn pair_after(arcs: &[Items<Position>], before: Pair, crossing: &Crossing) -> Option<Pair> {
    let mut first = segment_from(arcs, before.first, &crossing.first)?;
    let mut from = if first == before.first {
        before.second.next()
    } else {
        first.next()
    };
    // (a first segment that has no such second one any more is that of a pair before)
    for _turn in 0..MOST_ASKED {
        if let Some(second) = segment_from(arcs, from, &crossing.second) {
            return Some(Pair { first, second });
        }
        first = segment_from(arcs, first.next(), &crossing.first)?;
        from = first.next();
    }
    None
}

/// The front of the object's name and the feature with this number over all objects, and what it is called.
fn feature_text(alloc: Global, topology: &Topology, number: u64) -> Result<String, AllocError> {
    let mut left = number;
    for object in topology.objects() {
        let features = features_in(&object.1);
        let count = features.len() as u64;
        if left < count {
            let name = front_of(alloc, object.0.as_str())?;
            let mut text = format!(in alloc; "object {name}, feature {left}")?;
            if let Some(feature) = features.get(left as usize) {
                add_label(alloc, &mut text, feature)?;
            }
            return Ok(text);
        }
        left -= count;
    }
    Ok(String::new(alloc))
}

/// A segment of the arc with this number, and the first feature that uses the arc.
fn segment_text(
    alloc: Global,
    topology: &Topology,
    owners: &[Owner],
    arc: usize,
    ends: &Ends,
) -> Result<String, AllocError> {
    let from = position_text(alloc, ends.0)?;
    let to = position_text(alloc, ends.1)?;
    match owners.get(arc) {
        Some(Owner::One(number) | Owner::Several(number)) => {
            let feature = feature_text(alloc, topology, *number)?;
            format!(in alloc; "{from} to {to} of {feature}")
        }
        _ => format!(in alloc; "{from} to {to} of no feature"),
    }
}

/// A line for each of these pairs of segments that meet badly, of the topology's arcs of these positions, and one where there are others.
pub(crate) fn crossing_lines(
    alloc: Global,
    topology: &Topology,
    arcs: &[Items<Position>],
    crossings: &[Crossing],
) -> Result<String, AllocError> {
    let mut lines = String::new(alloc);
    let owners = owners_of(alloc, topology)?;
    let mut at = Pair {
        first: Place { arc: 0, end: 1 },
        second: Place { arc: 0, end: 1 },
    };
    for (number, crossing) in crossings.iter().enumerate() {
        if number == MOST_NAMED {
            lines.push_str("  and others, which aren't named\n")?;
            break;
        }
        let Some(pair) = pair_after(arcs, at, crossing) else {
            break;
        };
        at = pair;
        let first = segment_text(
            alloc,
            topology,
            owners.as_slice(),
            pair.first.arc,
            &crossing.first,
        )?;
        let second = segment_text(
            alloc,
            topology,
            owners.as_slice(),
            pair.second.arc,
            &crossing.second,
        )?;
        write!(lines, "  the segment {first} meets {second}\n")?;
    }
    Ok(lines)
}

// Cells, lines and rings of a topology, written as positions (RFC 7946, section 3.1).
ghost use Rattle.std.specs.Prelude.{◌≡◌, ◌++◌, ◌∷◌, [], ℤ, false, true, length, map};
ghost use Rattle.std.specs.List.{AllByRecursion};
ghost use Rattle.std.specs.Option.{option_copied};
ghost use Rattle.json_value.specs.Text.{json_text};
ghost use Rattle.json_writer.specs.Standing.{Start};
ghost use Rattle.topojson_writer.specs.FeatureValues.{positions_value, lines_value, polygons_value};
ghost use Rattle.topojson_writer.specs.Decoded.{arc_in, line_in};
ghost use Rattle.topojson_writer.specs.LineTexts.{Begins, added, positions_text};
ghost use Rattle.topojson_types.specs.Transforms.{place};
ghost use Rattle.topojson_types.specs.Validity.{AreInRange, IsPlace};
ghost use Rattle.topojson_types.specs.LinesAndRings.{IsLineOrRing};

use crate::line_source::LineSource;
use crate::position_writer::put_position;
use json_value::Items;
use json_writer::{Out, put_comma};
use topojson_types::{ArcRef, Cell, LineWalk, Transform, position_at};

/// Puts where cells lie.
#[tactic(auto, using(json_writer::proofs::Appending::begins, json_writer::proofs::Lists::text_by))]
pub fn put_cells<O: Out>(transform: Option<&Transform>, cells: &[Cell], out: &mut O)
    requires { AllByRecursion (IsPlace (option_copied transform)) cells.now }
    ensures text { O.text out.new ≡ O.text out.old ++ json_text (positions_value (map (place (option_copied transform.entry)) cells.now)) }
    ensures kept { (start : Start) → O.good out.old start → O.good out.new start }
{
    out.put(b"[");
    let mut is_first = true;
    'cells: for cell in cells {
        put_comma(is_first, out);
        is_first = false;
        let position = position_at(transform, *cell);
        put_position(position, out);
    }
    out.put(b"]");
}

/// Puts the positions of a walk, each behind a comma, but the first of a line.
#[inline(always)]
#[tactic(auto, using(json_writer::proofs::Appending::done, json_writer::proofs::Appending::goes))]
fn put_walk<O: Out>(walk: LineWalk<'_>, is_first: bool, out: &mut O)
    ensures text { O.text out.new ≡ O.text out.old ++ positions_text is_first walk.entry }
    ensures kept { (start : Start) → O.good out.old start → O.good out.new start }
{
    let mut is_first = is_first;
    'positions: for position in walk {
        put_comma(is_first, out);
        is_first = false;
        put_position(position, out);
    }
}

/// Puts the positions of a line, or of a ring, if it is closed, one by one.
fn put_positions<O: Out>(topology: &LineSource<'_>, refs: &[ArcRef], is_closed: bool, out: &mut O)
    requires { AreInRange (length topology.now.arcs) refs.now }
    ensures text { O.text out.new ≡ O.text out.old ++ json_text (positions_value (line_in topology.now is_closed refs.now)) }
    ensures kept { (start : Start) → O.good out.old start → O.good out.new start }
{
    out.put(b"[");
    put_walk(topology.walk(refs, is_closed), true, out);
    out.put(b"]");
}

/// Puts what the arc of this only index adds to a line. Where its text is known, that is copied.
fn put_arc<O: Out>(topology: &LineSource<'_>, arc: &[ArcRef], is_first: bool, out: &mut O)
    requires { AreInRange (length topology.now.arcs) arc.now }
    ensures text { (r : ℤ) → arc.now ≡ r ∷ [] → O.text out.new ≡ O.text out.old ++ added is_first (arc_in topology.now r) }
    ensures kept { (start : Start) → O.good out.old start → O.good out.new start }
{
    if let Some(text) = topology.added_text(arc, is_first) {
        out.put(text);
        return;
    }
    let mut walk = topology.walk(arc, false);
    if is_first {
        out.put(b"[");
    } else {
        walk.next();
    }
    put_walk(walk, is_first, out);
}

/// Puts the positions of a line by its arcs.
fn put_arcs<O: Out>(topology: &LineSource<'_>, refs: &[ArcRef], out: &mut O)
    requires range { AreInRange (length topology.now.arcs) refs.now }
    requires begins { Begins topology.now refs.now }
    ensures text { O.text out.new ≡ O.text out.old ++ json_text (positions_value (line_in topology.now false refs.now)) }
    ensures kept { (start : Start) → O.good out.old start → O.good out.new start }
{
    'arcs: for at in 0..refs.len() {
        put_arc(topology, &refs[at..at + 1], at == 0, out);
    }
    out.put(b"]");
}

/// Puts the positions of a line, or of a ring, if it is closed. Where texts of arcs are known they are copied.
pub fn put_line<O: Out>(topology: &LineSource<'_>, refs: &[ArcRef], is_closed: bool, out: &mut O)
    requires { AreInRange (length topology.now.arcs) refs.now }
    ensures text { O.text out.new ≡ O.text out.old ++ json_text (positions_value (line_in topology.now is_closed refs.now)) }
    ensures kept { (start : Start) → O.good out.old start → O.good out.new start }
{
    if topology.is_of_arcs(refs, is_closed) {
        put_arcs(topology, refs, out);
    } else {
        put_positions(topology, refs, is_closed, out);
    }
}

/// Puts lines, or the rings of a polygon.
#[tactic(auto, using(json_writer::proofs::Appending::begins, json_writer::proofs::Lists::text_by))]
pub fn put_lines<O: Out>(
    topology: &LineSource<'_>,
    lines: &[Items<ArcRef>],
    is_closed: bool,
    out: &mut O,
)
    requires { AllByRecursion (λ l. IsLineOrRing topology.now (is_closed, l)) lines.now }
    ensures text { O.text out.new ≡ O.text out.old ++ json_text (lines_value (map (line_in topology.now is_closed) lines.now)) }
    ensures kept { (start : Start) → O.good out.old start → O.good out.new start }
{
    out.put(b"[");
    let mut is_first = true;
    'lines: for refs in lines {
        put_comma(is_first, out);
        is_first = false;
        put_line(topology, refs.as_slice(), is_closed, out);
    }
    out.put(b"]");
}

/// Puts polygons.
pub fn put_areas<O: Out>(topology: &LineSource<'_>, areas: &[Items<Items<ArcRef>>], out: &mut O)
    requires { AllByRecursion (λ rs. AllByRecursion (λ l. IsLineOrRing topology.now (true, l)) rs) areas.now }
    ensures text { O.text out.new ≡ O.text out.old ++ json_text (polygons_value (map (map (line_in topology.now true)) areas.now)) }
    ensures kept { (start : Start) → O.good out.old start → O.good out.new start }
{
    out.put(b"[");
    let mut is_first = true;
    'areas: for rings in areas {
        put_comma(is_first, out);
        is_first = false;
        put_lines(topology, rings.as_slice(), true, out);
    }
    out.put(b"]");
}

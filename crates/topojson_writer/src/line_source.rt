// Topologies whose arcs stand as texts, from which lines are copied.
ghost use Rattle.std.specs.Prelude.{◌≡◌, ◌≤◌, ◌∷◌, [], ℤ, IfSome, List, false, length, map, true};
ghost use Rattle.std.specs.Option.{option_copied};
ghost use Rattle.json_value.specs.Text.{json_text};
ghost use Rattle.geometry.specs.Joins.{arc_at, stitched};
ghost use Rattle.geometry.specs.Points.{Point};
ghost use Rattle.topojson_meaning.specs.ArcTexts.{AreArcTexts};
ghost use Rattle.topojson_types.specs.Validity.{AreInRange, IsTopology};
ghost use Rattle.topojson_writer.specs.Decoded.{arc_in, line_in};
ghost use Rattle.topojson_writer.specs.LineTexts.{Begins, added, behind_bracket};
ghost use Rattle.topojson_writer.specs.FeatureValues.{positions_value};

use std::marker::Model;
use topojson_types::{ArcRef, LineWalk, Topology, Transform};

/// How many positions of a ring of the fewest (RFC 7946, section 3.1.6) come after its first. One of fewer is filled up.
const AFTER_FIRST: usize = 3;

/// What stands behind the first bracket that closes, if there is one.
fn after_bracket(bytes: &[u8]) -> Option<&[u8]>
    ensures { IfSome result (λ rest. rest.now ≡ behind_bracket bytes.now) }
{
    'bytes: for (at, byte) in bytes.iter().enumerate() {
        if *byte == b']' {
            return bytes.get(at + 1..);
        }
    }
    None
}

/// What an arc of this text adds to that of a line.
#[tactic(auto, using(crate::proofs::LineTexts::first_added, crate::proofs::LineTexts::later_added))]
fn added_by(text: &[u8], is_first: bool) -> Option<&[u8]>
    ensures { (arc : List Point) → text.now ≡ json_text (positions_value arc) → IfSome result (λ more. more.now ≡ added is_first arc) }
{
    let (_, positions) = text.split_last()?;
    if is_first {
        Some(positions)
    } else {
        after_bracket(positions)
    }
}

/// A topology, and the texts of its arcs as far as they are known: what is written of an arc where there is no transform.
#[derive(Debug, Drop)]
pub struct LineSource<'a> {
    topology: &'a Topology,
    texts: &'a [Option<&'a [u8]>],
}

impl<'a> Model for LineSource<'a> {
    ghost use Rattle.topojson_meaning.specs.ArcTexts.{AreArcTexts};
    ghost use Rattle.topojson_types.specs.Codes.{contents_code};
    ghost use Rattle.topojson_types.specs.Topologies.{Contents};

    ghost Value = { Contents };

    ghost coded = { contents_code };

    ghost view = { λ t. t.topology.now };

    ghost invariant = { λ t. AreArcTexts t.topology.now.transform t.topology.now.arcs t.texts.now };
}

impl<'a> LineSource<'a> {
    /// The topology with these texts of its first arcs.
    pub fn of(topology: &'a Topology, texts: &'a [Option<&'a [u8]>]) -> LineSource<'a>
        requires { AreArcTexts topology.now.transform topology.now.arcs texts.now }
        ensures { result ≡ topology.now }
    {
        LineSource { topology, texts }
    }

    /// Its transform, if there is one.
    pub fn transform(&self) -> Option<&Transform>
        ensures transform { option_copied result ≡ self.now.transform }
        ensures valid { IsTopology self.now }
    {
        self.topology.transform()
    }

    /// The positions of the line of these indexes, or of the ring, if it is closed.
    pub fn walk<'b>(&'b self, refs: &'b [ArcRef], is_closed: bool) -> LineWalk<'b>
        requires { AreInRange (length self.now.arcs) refs.now }
        ensures { result ≡ line_in self.now is_closed refs.now }
    {
        LineWalk::over(self.topology, refs, is_closed)
    }

    /// Whether the arcs of these indexes have as many positions in a row as a ring has at least.
    fn is_long(&self, refs: &[ArcRef]) -> bool
        requires { AreInRange (length self.now.arcs) refs.now }
        ensures { result ≡ true → 4 ≤ length (stitched (map (arc_at self.now.arcs) refs.now)) }
    {
        let mut missing = AFTER_FIRST;
        'refs: for reference in refs {
            let many = self.topology.arcs()[reference.index()].len();
            missing = missing.saturating_sub(many - 1);
            if missing == 0 {
                return true;
            }
        }
        false
    }

    /// Whether texts of arcs are known, and the positions of the line, or of the ring, if it is closed, are those of its arcs: a ring of too few
    /// is filled up.
    #[tactic(auto, using(topojson_types::proofs::WalkPlaces::long_arcs, crate::proofs::LineTexts::begins, crate::proofs::LineTexts::not_filled))]
    pub fn is_of_arcs(&self, refs: &[ArcRef], is_closed: bool) -> bool
        requires { AreInRange (length self.now.arcs) refs.now }
        ensures whole { result ≡ true → line_in self.now is_closed refs.now ≡ line_in self.now false refs.now }
        ensures begins { result ≡ true → Begins self.now refs.now }
    {
        if self.texts.is_empty() || refs.is_empty() || self.transform().is_some() {
            return false;
        }
        !is_closed || self.is_long(refs)
    }

    /// What the arc of this only index adds to the text of a line, where it goes forwards and its text is known.
    #[tactic(auto, using(crate::proofs::SpelledArcs::arc_spelled, crate::proofs::SpelledArcs::spelled))]
    pub fn added_text(&self, arc: &[ArcRef], is_first: bool) -> Option<&[u8]>
        ensures { (r : ℤ) → arc.now ≡ r ∷ [] → IfSome result (λ text. text.now ≡ added is_first (arc_in self.now r)) }
    {
        let [reference] = arc else {
            return None;
        };
        if reference.reversed() {
            return None;
        }
        let text = (*self.texts.get(reference.index())?)?;
        added_by(text, is_first)
    }
}

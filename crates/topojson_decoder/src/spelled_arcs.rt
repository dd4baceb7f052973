// Arcs beside the texts in which they stand.
ghost use Rattle.std.specs.Prelude.{◌≡◌, ◌++◌, ◌∷◌, [], None, IfOk};
ghost use Rattle.topojson_meaning.specs.ArcTexts.{AreArcTexts, IsArcText};

use json_value::Items;
use std::alloc::{AllocError, Global};
use std::marker::Model;
use topojson_types::Cell;

/// Arcs, and of the first of them the texts in which they stand, where these are what is written of them without a transform.
#[derive(Drop)]
pub struct SpelledArcs<'a> {
    list: Vec<Items<Cell>>,
    // of all of them, or of none, unless memory ended
    texts: Vec<Option<&'a [u8]>>,
    keeps: bool,
}

impl<'a> Model for SpelledArcs<'a> {
    ghost use Rattle.std.specs.Prelude.{List, None};
    ghost use Rattle.geometry.specs.Points.{Point};
    ghost use Rattle.topojson_meaning.specs.ArcTexts.{AreArcTexts};

    ghost Value = { List (List Point) };

    ghost view = { λ a. a.list.items };

    ghost invariant = { λ a. AreArcTexts None a.list.items a.texts.items };
}

impl<'a> SpelledArcs<'a> {
    /// No arcs, whose texts are to be kept, or aren't.
    pub fn none(alloc: Global, keeps: bool) -> SpelledArcs<'a>
        ensures { result ≡ [] }
    {
        SpelledArcs {
            list: Vec::new(alloc),
            texts: Vec::new(alloc),
            keeps,
        }
    }

    /// These arcs, of which no text is kept.
    pub fn of(alloc: Global, list: Vec<Items<Cell>>) -> SpelledArcs<'a>
        ensures { result ≡ list.items }
    {
        SpelledArcs {
            list,
            texts: Vec::new(alloc),
            keeps: false,
        }
    }

    /// Goes on with one more, and with the text in which it stands.
    #[tactic(auto, using(crate::proofs::ArcTextParts::no_more, crate::proofs::ArcTextParts::one_more))]
    pub fn push(&mut self, arc: Items<Cell>, text: Option<&'a [u8]>) -> Result<(), AllocError>
        requires { IsArcText None arc text }
        ensures { IfOk result (λ _. self.new ≡ self.old ++ arc ∷ []) }
    {
        let complete = self.keeps && self.texts.len() == self.list.len();
        self.list.push(arc)?;
        if complete {
            self.texts.push(text)?;
        }
        Ok(())
    }

    /// Gives back the room for more.
    pub fn shrink_to_fit(&mut self)
        ensures { self.new ≡ self.old }
    {
        self.list.shrink_to_fit();
        self.texts.shrink_to_fit();
    }

    /// The arcs.
    pub fn as_slice(&self) -> &[Items<Cell>]
        ensures { result.now ≡ self.now }
    {
        self.list.as_slice()
    }

    /// The arcs, and the texts.
    pub fn into_parts(self) -> (Items<Items<Cell>>, Vec<Option<&'a [u8]>>)
        ensures arcs { result.0 ≡ self.entry }
        ensures texts { AreArcTexts None self.entry result.1.items }
    {
        let SpelledArcs { list, texts, .. } = self;
        (Items::of(list), texts)
    }
}

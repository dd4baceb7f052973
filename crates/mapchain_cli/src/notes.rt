// What the outputs and the sources of a run were.
ghost use Rattle.std.specs.Prelude.{◌≡◌};

use byte_ends::{Drain, Feed, Sink, Source};
use json_value::OwnText;
use std::marker::Model;
use std::snapshot::Snapshot;

/// What an output was when it was begun, and its device when it was kept or taken away.
#[derive(Drop)]
struct OutputNote<W: Drain> {
    fresh: Snapshot<Sink<W>>,
    ended: Option<Snapshot<W>>,
}

/// What the outputs and the sources of a run were: the last two outputs, the source of a topology that the run was done with last, and
/// the sources of layers. Contracts alone see them: a note holds nothing of what it is of.
#[derive(Drop)]
pub struct Notes<R: Feed, W: Drain> {
    last: Option<OutputNote<W>>,
    earlier: Option<OutputNote<W>>,
    source: Option<Snapshot<Source<R>>>,
    sources: Option<Snapshot<Vec<(OwnText, Source<R>)>>>,
}

impl<R: Feed, W: Drain> Model for Notes<R, W> {
    ghost use Rattle.std.specs.Option.{option_map};
    ghost use Rattle.mapchain_cli.specs.Notes.{Noted};

    ghost Value = { Noted };

    ghost view = { λ n. record {
      last = option_map (λ o. record { fresh = o.fresh.value; ended = option_map (λ e. record { taken = W.taken e.value; failures = W.failures e.value; flushed = W.flushed e.value }) o.ended }) n.last;
      earlier = option_map (λ o. record { fresh = o.fresh.value; ended = option_map (λ e. record { taken = W.taken e.value; failures = W.failures e.value; flushed = W.flushed e.value }) o.ended }) n.earlier;
      source = option_map (λ s. s.value) n.source;
      sources = option_map (λ s. s.value.items) n.sources;
    } };
}

impl<R: Feed, W: Drain> Notes<R, W> {
    ghost use Rattle.mapchain_cli.specs.Notes as spec;

    /// Nothing was done yet.
    pub fn none() -> Notes<R, W>
        ensures { result ≡ spec.nothing_noted }
    {
        Notes {
            last: None,
            earlier: None,
            source: None,
            sources: None,
        }
    }

    /// Notes an output that is begun.
    pub fn note_begun(&mut self, output: &Sink<W>)
        ensures { self.new ≡ spec.with_fresh output.now self.old }
    {
        self.earlier = self.last.take();
        self.last = Some(OutputNote {
            fresh: Snapshot::of(output),
            ended: None,
        });
    }

    /// Notes the device of the output that was begun last, which is kept or taken away.
    pub fn note_ended(&mut self, output: &W)
        ensures { self.new ≡ spec.with_ended (record { taken = W.taken output.now; failures = W.failures output.now; flushed = W.flushed output.now }) self.old }
    {
        if let Some(note) = &mut self.last {
            note.ended = Some(Snapshot::of(output));
        }
    }

    /// Notes the source of a topology, which the run is done with.
    pub fn note_source(&mut self, source: &Source<R>)
        ensures { self.new ≡ spec.with_source source.now self.old }
    {
        self.source = Some(Snapshot::of(source));
    }

    /// Notes the sources of layers, which the run is done with.
    pub fn note_sources(&mut self, sources: &Vec<(OwnText, Source<R>)>)
        ensures { self.new ≡ spec.with_sources sources.now.items self.old }
    {
        self.sources = Some(Snapshot::of(sources));
    }
}

// What was seen of a run.
use crate::contents::{step_line, topology_lines, unshared_line};
use crate::crossed::{MOST_ASKED, crossing_lines};
use crate::inputs_read::InputLines;
use crate::losses::{DropsLeft, add_losses, bare_line};
use crate::samples::{front_of, samples_in};
use extraction::ExtractedLayer;
use geojson_meaning::{Dropped, Position};
use grid_snap::Bounds;
use inputs::Watch;
use json_value::Items;
use reports::features_in;
use segment_crossings::Crossing;
use std::alloc::{AllocError, Global};
use std::mem;
use topojson_types::Topology;

/// What is said of the inputs, and of what was made of them.
#[derive(Drop)]
struct Seen {
    /// Whether the topology of a file is counted, and nothing is made of it.
    is_count: bool,
    /// What is said of the first properties in each object of a topology that is counted.
    samples: Vec<String>,
    /// What is said of each input that was read.
    inputs: InputLines,
    /// How many layers were read.
    layers: usize,
    /// The bounds of their positions, if they have any.
    bounds: Option<Bounds>,
    /// All lines, once the topology is written or counted.
    lines: String,
    /// The bytes that were refused, or none.
    refused: &'static [u8],
    /// Whether memory was refused for some of it.
    is_short: bool,
}

impl Seen {
    /// Notes whether memory was refused.
    fn note(&mut self, added: Result<(), AllocError>) {
        if added.is_err() {
            self.is_short = true;
        }
    }

    fn add_layer(
        &mut self,
        alloc: Global,
        bytes: &[u8],
        layer: &ExtractedLayer,
    ) -> Result<(), AllocError> {
        self.inputs.add_layer(alloc, self.layers, bytes, layer)?;
        self.layers = self.layers.saturating_add(1);
        self.bounds = layer.widen(self.bounds);
        Ok(())
    }

    /// Adds the features of each layer that are lost, how many have no geometry, what is said of the layers, and then the step of the grid.
    fn add_built(
        &mut self,
        alloc: Global,
        topology: &Topology,
        dropped: &[Dropped],
    ) -> Result<(), AllocError> {
        let mut drops = DropsLeft::of(dropped);
        let mut bare_lines = String::new(alloc);
        for (number, object) in topology.objects().iter().enumerate() {
            let place = format!(in alloc; "  layer {number}, feature ")?;
            let lines = &mut self.lines;
            let bare = add_losses(alloc, lines, place.as_str(), number, &object.1, &mut drops)?;
            let features = features_in(&object.1).len();
            let line = bare_line(alloc, number, object.0.as_str(), bare, features)?;
            bare_lines.push_str(line.as_str())?;
        }
        self.lines.push_str(bare_lines.as_str())?;
        self.inputs.add_to(&mut self.lines)?;
        if let Some(transform) = topology.transform() {
            self.lines.push_str(step_line(alloc, transform)?.as_str())?;
        }
        Ok(())
    }

    /// Adds the features of each object that are lost, then what is said of the file, and whether polygons share no arc.
    fn add_simplified(
        &mut self,
        alloc: Global,
        topology: &Topology,
        dropped: &[Dropped],
    ) -> Result<(), AllocError> {
        let mut drops = DropsLeft::of(dropped);
        for (number, object) in topology.objects().iter().enumerate() {
            let name = front_of(alloc, object.0.as_str())?;
            let place = format!(in alloc; "  object {name}, feature ")?;
            let lines = &mut self.lines;
            add_losses(alloc, lines, place.as_str(), number, &object.1, &mut drops)?;
        }
        self.inputs.add_to(&mut self.lines)?;
        self.lines
            .push_str(unshared_line(alloc, topology)?.as_str())
    }

    /// Adds what is said of the file of a topology, or what is needed of it where that is counted.
    fn add_file(&mut self, alloc: Global, bytes: &[u8]) -> Result<(), AllocError> {
        if !self.is_count {
            return self.inputs.add_file(alloc, bytes);
        }
        self.samples = samples_in(alloc, bytes)?;
        Ok(())
    }

    /// Adds what is in the topology that is counted.
    fn add_counted(&mut self, alloc: Global, topology: &Topology) -> Result<(), AllocError> {
        let lines = topology_lines(alloc, topology, self.samples.as_slice())?;
        self.lines.push_str(lines.as_str())
    }

    /// Adds where these pairs of segments of the topology's arcs meet badly.
    fn add_crossed(
        &mut self,
        alloc: Global,
        topology: &Topology,
        arcs: &[Items<Position>],
        crossings: &[Crossing],
    ) -> Result<(), AllocError> {
        let lines = crossing_lines(alloc, topology, arcs, crossings)?;
        self.lines.push_str(lines.as_str())
    }

    /// Gives its lines away.
    fn take_lines(&mut self, alloc: Global) -> Result<String, AllocError> {
        if self.is_short {
            return Err(AllocError);
        }
        Ok(mem::replace(&mut self.lines, String::new(alloc)))
    }
}

/// What was seen of a run, for the explanation of how it came out: nothing is read again for it.
#[derive(Drop)]
pub struct Observed {
    /// Nothing where nobody asks for it.
    seen: Option<Seen>,
}

impl Observed {
    /// Nothing yet, of a run that is to be explained or not, and in which a topology is counted, or something is made.
    pub fn new(alloc: Global, is_asked: bool, is_count: bool) -> Observed {
        if !is_asked {
            return Observed { seen: None };
        }
        Observed {
            seen: Some(Seen {
                is_count,
                samples: Vec::new(alloc),
                inputs: InputLines::none(alloc),
                layers: 0,
                bounds: None,
                lines: String::new(alloc),
                refused: &[],
                is_short: false,
            }),
        }
    }

    /// What became of the features, and what is said of the inputs; or what is in the topology that was counted. They are given away: nothing
    /// is left of them here.
    pub fn take_lines(&mut self, alloc: Global) -> Result<String, AllocError> {
        match &mut self.seen {
            Some(seen) => seen.take_lines(alloc),
            None => Err(AllocError),
        }
    }

    /// The bounds of the layers that were read, where they have positions.
    pub(crate) fn bounds(&self) -> Option<Bounds> {
        match &self.seen {
            Some(seen) => seen.bounds,
            None => None,
        }
    }

    /// The bytes that were refused, or none.
    pub fn refused_bytes(&self) -> &'static [u8] {
        match &self.seen {
            Some(seen) => seen.refused,
            None => &[],
        }
    }
}

impl Watch for Observed {
    fn layer_read(&mut self, alloc: Global, bytes: &[u8], layer: &ExtractedLayer) {
        if let Some(seen) = &mut self.seen {
            let added = seen.add_layer(alloc, bytes, layer);
            seen.note(added);
        }
    }

    fn file_read(&mut self, alloc: Global, bytes: &[u8]) {
        if let Some(seen) = &mut self.seen {
            let added = seen.add_file(alloc, bytes);
            seen.note(added);
        }
    }

    fn refused(&mut self, bytes: &'static [u8]) {
        if let Some(seen) = &mut self.seen {
            seen.refused = bytes;
        }
    }

    fn asks_for_more(&self) -> bool {
        self.seen.is_some()
    }

    fn counted(&mut self, alloc: Global, topology: &Topology) {
        if let Some(seen) = &mut self.seen {
            let added = seen.add_counted(alloc, topology);
            seen.note(added);
        }
    }

    fn most_crossings(&self) -> usize {
        if self.seen.is_some() { MOST_ASKED } else { 0 }
    }

    fn crossed(
        &mut self,
        alloc: Global,
        topology: &Topology,
        arcs: &[Items<Position>],
        crossings: &[Crossing],
    ) {
        if let Some(seen) = &mut self.seen {
            let added = seen.add_crossed(alloc, topology, arcs, crossings);
            seen.note(added);
        }
    }

    fn built(&mut self, alloc: Global, topology: &Topology, dropped: &[Dropped]) {
        if let Some(seen) = &mut self.seen {
            let added = seen.add_built(alloc, topology, dropped);
            seen.note(added);
        }
    }

    fn simplified(&mut self, alloc: Global, topology: &Topology, dropped: &[Dropped]) {
        if let Some(seen) = &mut self.seen {
            let added = seen.add_simplified(alloc, topology, dropped);
            seen.note(added);
        }
    }
}

// Layers whose lines and rings stand in a list of their own.
ghost use Rattle.std.specs.Prelude.{◌≡◌, ◌++◌, ◌∷◌, [], IfOk, List, None, OnOk, length, map, true};
ghost use Rattle.std.specs.List.{AllByRecursion};
ghost use Rattle.extraction.specs.Extracts.{feature_relined, no_refs};
ghost use Rattle.linework.specs.Outlines.{features_lines_and_rings};
ghost use Rattle.geojson_types.specs.Places.{features_points};
ghost use Rattle.geometry.specs.Pruning.{option_lines_and_rings};
ghost use Rattle.grid_snap.specs.Axes.{covers};
ghost use Rattle.grid_snap.specs.Bounds.{widened_by};
ghost use Rattle.grid_snap.specs.Snapping.{snapped_layer};

use crate::bounds::{with_box, with_outlines};
use crate::snapping::snap_features;
use crate::taking_out::extract_feature;
use crate::whole::Whole;
use geojson_types::{CollectsFeatures, Feature, Layer};
use grid_snap::{Bounds, Grid};
use linework::Outlines;
use owned_values::Memory;
use std::alloc::{AllocError, Global};
use std::marker::Model;
use topojson_types::{TopoFeature, corners_of};

/// A layer whose lines and rings are taken out of its features, in reading order. Contracts see the layer that was read.
#[derive(Debug, Drop)]
pub struct ExtractedLayer {
    /// Nothing stands for a line or ring.
    features: Vec<TopoFeature>,
    outlines: Outlines,
    whole: Whole,
}

impl Model for ExtractedLayer {
    ghost use Rattle.std.specs.Prelude.{◌≡◌, map};
    ghost use Rattle.geojson_types.specs.declared.layer.Layer.{Layer as Read};
    ghost use Rattle.geojson_types.specs.contracts.layer.Layer as layer;
    ghost use Rattle.extraction.specs.Extracts.{feature_relined, no_refs};
    ghost use Rattle.linework.specs.Outlines.{features_lines_and_rings};

    ghost Value = { Read };

    ghost coded = { layer.the_row.coded };

    ghost view = { λ e. record { features = e.whole.features } };

    ghost invariant = { λ e. (e.features.items ≡ map (feature_relined no_refs) e.whole.features) × (e.outlines ≡ features_lines_and_rings e.whole.features) };
}

/// Puts what is left of a feature after the others, and its lines and rings after theirs.
#[inline(always)]
fn put_apart(
    alloc: Global,
    feature: Feature,
    features: &mut Vec<TopoFeature>,
    outlines: &mut Outlines,
) -> Result<(), Memory>
    ensures features { OnOk result (features.new.items ≡ features.old.items ++ feature_relined no_refs feature ∷ []) }
    ensures outlines { OnOk result (outlines.new ≡ outlines.old ++ option_lines_and_rings feature.shape) }
{
    features.push(extract_feature(alloc, feature, outlines)?)?;
    Ok(())
}

impl CollectsFeatures for ExtractedLayer {
    ghost features = { λ l. l.features };

    fn none(alloc: Global) -> ExtractedLayer {
        ExtractedLayer {
            features: Vec::new(alloc),
            outlines: Outlines::none(alloc),
            whole: Whole::none(),
        }
    }

    /// Where memory is refused, nothing is left in it.
    #[inline]
    fn put(&mut self, alloc: Global, feature: Feature) -> Result<(), AllocError> {
        let whole = self.whole.with(&feature);
        match put_apart(alloc, feature, &mut self.features, &mut self.outlines) {
            Ok(()) => {
                self.whole = whole;
                Ok(())
            }
            Err(_) => {
                *self = ExtractedLayer::none(alloc);
                Err(AllocError)
            }
        }
    }

    fn count(&self) -> usize {
        self.features.len()
    }

    fn end(&mut self) {
        self.features.shrink_to_fit();
        self.outlines.shrink();
    }
}

impl ExtractedLayer {
    /// The layer, taken apart.
    pub fn of(alloc: Global, layer: Layer) -> Result<ExtractedLayer, Memory>
        ensures { IfOk result (λ e. e ≡ layer) }
    {
        let mut extracted = ExtractedLayer::none(alloc);
        'features: for feature in layer.features.into_inner() {
            extracted.put(alloc, feature)?;
        }
        Ok(extracted)
    }

    /// Its features without their lines and rings, and these in reading order.
    pub fn into_parts(self) -> (Vec<TopoFeature>, Outlines)
        ensures features { result.0.items ≡ map (feature_relined no_refs) self.features }
        ensures outlines { result.1 ≡ features_lines_and_rings self.features }
    {
        let ExtractedLayer {
            features,
            outlines,
            whole: _,
        } = self;
        (features, outlines)
    }

    /// These bounds with its positions, those of Points too.
    pub fn widen(&self, bounds: Option<Bounds>) -> Option<Bounds>
        ensures { result ≡ widened_by bounds (features_points self.now.features) }
    {
        let bounds = with_box(bounds, corners_of(self.features.as_slice()));
        with_outlines(bounds, &self.outlines)
    }

    /// The least and the greatest coordinates of its positions, if it has any.
    pub fn bounds(&self) -> Option<Bounds>
        ensures { result ≡ widened_by None (features_points self.now.features) }
    {
        self.widen(None)
    }

    /// Each position snapped to the grid, those of Points too. Identifiers, properties and order stay.
    pub fn snap(&mut self, grid: &Grid)
        requires { AllByRecursion (λ p. covers grid.now p ≡ true) (features_points self.old.features) }
        ensures { self.new ≡ snapped_layer grid.now self.old }
    {
        let whole = self.whole.snapped(grid);
        snap_features(self.features.as_mut_slice(), grid);
        self.outlines.move_positions(grid);
        self.whole = whole;
    }
}

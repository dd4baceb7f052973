ghost use Rattle.std.specs.Prelude.{◌≡◌, ◌∷◌, ◌++◌, [], List, map};
ghost use Rattle.std.specs.Borrow.{ftrue};
ghost use Rattle.std.specs.Coded.{coded_list};
ghost use Rattle.geojson_types.specs.Codes.{feature_code};
ghost use Rattle.geojson_types.specs.Features.{Featured};
ghost use Rattle.geojson_types.specs.Moving.{moved_feature};
ghost use Rattle.grid_snap.specs.Snapping.{snapped_if_covered};

use geojson_types::Feature;
use grid_snap::Grid;
use std::marker::Model;

/// The features as they were put, with their lines and rings: a list that contracts alone see. It takes no memory, and no call takes time.
#[derive(Debug, Drop)]
pub struct Whole {
    pub ghost features: { List Featured } by { coded_list feature_code },
}

impl Model for Whole {
    ghost also_owns = { λ _. ftrue };
}

impl Whole {
    /// None yet.
    pub fn none() -> Whole
        ensures { result.features ≡ [] }
    {
        Whole {}
    }

    /// One more.
    pub fn with(&self, feature: &Feature) -> Whole
        ensures { result.features ≡ self.now.features ++ feature.now ∷ [] }
    {
        Whole {}
    }

    /// With each position snapped to the grid, if that covers it.
    pub fn snapped(&self, grid: &Grid) -> Whole
        ensures { result.features ≡ map (moved_feature (snapped_if_covered grid.now)) self.now.features }
    {
        Whole {}
    }
}

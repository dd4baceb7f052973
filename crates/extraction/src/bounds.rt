// The least and the greatest coordinates of extracted layers.
ghost use Rattle.std.specs.Prelude.{◌≡◌, List, None, map};
ghost use Rattle.geojson_types.specs.Places.{features_points};
ghost use Rattle.geometry.specs.Lists.{joined};
ghost use Rattle.geometry.specs.Points.{Point};
ghost use Rattle.grid_snap.specs.Bounds.{widened_by};
ghost use Rattle.topojson_types.specs.Widening as box;

use grid_snap::{Bounds, widen_to, with_positions};
use linework::Outlines;
use topojson_types::Corners;

/// With the positions in a box, of which each side has one.
pub(crate) fn with_box(bounds: Option<Bounds>, corners: Option<Corners>) -> Option<Bounds>
    ensures { (ps : List Point) → box.widened_by None ps ≡ corners → result ≡ widened_by bounds ps }
{
    match corners {
        None => bounds,
        Some((least, greatest)) => {
            let lower = widen_to(bounds, least.x(), least.y());
            Some(widen_to(Some(lower), greatest.x(), greatest.y()))
        }
    }
}

/// With the positions of lines and rings.
pub(crate) fn with_outlines(bounds: Option<Bounds>, outlines: &Outlines) -> Option<Bounds>
    ensures { result ≡ widened_by bounds (joined (map (λ b. b.1) outlines.now)) }
{
    let mut all = bounds;
    'lines: for i in 0..outlines.len() {
        all = with_positions(all, outlines.positions_of(i));
    }
    all
}

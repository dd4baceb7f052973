//! Everything that the program does, as calls from bytes to bytes: building a topology (TopoJSON 1.0) of GeoJSON layers (RFC 7946),
//! simplifying one, decoding the objects of one again, and counting what is in one. It stands on `inputs` for sources, layers and faults,
//! on `layer_topology` for the topology that is made of layers and for what is left of one, on `topojson_decoder` for the one that a file
//! has, on `segment_crossings` for its crossings, on `topojson_writer` for texts, and on `reports`. A program calls `build`, whose contract is the
//! main theorem, and `specs/Building.antt` says what it promises; `simplify` (`specs/Simplified.antt`); `to_geo` (`specs/Geo.antt`), `stat` and
//! `stat_with_crossings` (`specs/Files.antt`). The laws of `laws.rt` join these calls: what was built is read again as what was built, and
//! simplified as what is built at a threshold.
#![tactic(auto)]

mod build_laws;
mod building;
mod crossings;
mod decoding;
mod file_laws;
mod file_reading;
mod laws;
mod options;
mod reducing;
mod simplify_laws;
mod simplifying;
mod summarising;

pub use build_laws::read_layers_are_taken;
pub use building::{build, build_watched};
pub use crossings::{stat_with_crossings, stat_with_crossings_watched};
pub use decoding::{to_geo, to_geo_watched};
pub use effective_area::threshold;
pub use file_laws::{decoded_text_is_utf8, features_are_one_outcome, summary_is_one_outcome};
pub use geojson_types::{Address, Cause, Dropped};
pub use inputs::{BuildFault, FileFault, layers_have_one_outcome, read_layers_are_the_outcome};
pub use laws::{
    built_at_zero_loses_nothing, built_text_comes_back, built_text_decodes_back,
    built_text_is_never_refused, built_text_is_summarised, dropped_lines_are_reported,
    same_bytes_build_one_text, simplified_by_level_is_built, simplified_text_is_built,
    simplified_text_is_built_of_same_bytes,
};
pub use layer_topology::{Guards, Level};
pub use options::Options;
pub use reports::{Report, Summary, report_text, summary_text};
pub use simplify_laws::{simplified_is_one_outcome, simplified_text_is_utf8, text_is_simplified};
pub use simplifying::{simplify, simplify_watched};
pub use summarising::{stat, stat_watched};

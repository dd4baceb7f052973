//! What an input is: a source that is read to its end, the layers (RFC 7946) that sources spell under their names, and the faults for which
//! a layer or the file of a topology is refused. It stands on `json_reading`, on `geojson_model` for the reader of layers, and on the
//! faults of `geojson_meaning` and `topojson_meaning`. The crates that read files answer these faults, and their contracts cite
//! `specs/Texts.antt`. The engine calls `check_names`, which says which names are refused, and then `read_layers`, which reads each source
//! to its end and says the outcome of the bytes of all of them; their contracts are `specs/Names.antt` and `specs/Sources.antt`. A `Watch`
//! looks on, so that more can be said of a run than its report.
#![tactic(auto)]

mod fault;
mod file_fault;
mod layer_laws;
mod layer_reading;
mod names;
mod watch;

pub use fault::BuildFault;
pub use file_fault::FileFault;
pub use layer_laws::{layers_have_one_outcome, read_layers_are_the_outcome};
pub use layer_reading::read_layers;
pub use names::check_names;
pub use watch::{Unwatched, Watch, show_refused};

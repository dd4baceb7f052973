//! What is said beside a fault, in lines for a person: why an input, an area, a share or an output is refused, where in a file a fault is
//! and what is wrong there, and what a file is that is no JSON. It reads the bytes of an input as a tree of `json_reading`, and goes
//! the way of `geojson_meaning` and `topojson_decoder` through it; it says nothing where it finds another fault than the one that was answered.
//! The program calls a function for each outcome. Each line begins with two blanks and ends with a line feed. Contracts say where a byte stands
//! (`place_in`) and what a file begins as (`form_of`); the sentences have none.
#![tactic(auto)]

mod file_kinds;
mod form;
mod fronts;
mod json_faults;
mod layer_faults;
mod options;
mod place;
mod positions;
mod read_faults;
mod scalars;
mod sight;
mod slips;
mod spot;
mod topology_faults;
mod topology_kinds;
mod topology_walk;
mod trails;
mod trees;
mod type_names;
mod unwritten;
mod walk;

pub use file_kinds::{FileKind, unopened};
pub use form::{FileForm, form_of};
pub use layer_faults::layer_fault;
pub use options::{bad_area, bad_share};
pub use place::{Place, place_in};
pub use topology_faults::topology_fault;
pub use unwritten::{WriteFailure, unwritten_output, unwritten_stream};

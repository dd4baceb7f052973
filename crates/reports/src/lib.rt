//! What is said beside a topology: the report of a build, the summary of a topology, the line of a fault and its exit status, and a whole
//! run as JSON. It stands on `topojson_types`, whose topologies are counted, on `geojson_types` for what is dropped, on `inputs`, whose
//! faults it says, and on `json_writer` and `byte_ends` for writing. The engine uses `summary_with`, `report_of` and `decoded_positions`. A program uses
//! `report_text` and `summary_text`; `print_fault` and `print_file_fault`, which write the line to a sink and answer the status, at most 3;
//! and `write_run_report`, whose contract says by `specs/RunReports.antt` which JSON value the run is (RFC 8259): its text is written, and
//! a line feed after it.
#![tactic(auto)]

mod counting;
mod explanation_writer;
mod fault_line;
mod fault_row;
mod fault_writer;
mod laws;
mod losing;
mod number_writer;
mod path_writer;
mod positions;
mod printing;
mod report;
mod report_members;
mod report_writer;
mod run_report;
mod run_writer;
mod statuses;
mod summary;
mod summary_writer;
mod value_writer;

pub use counting::{report_of, summary_with};
pub use laws::each_lost_counts_once;
pub use losing::{features_in, has_nothing};
pub use positions::decoded_positions;
pub use printing::{print_fault, print_file_fault, print_text};
pub use report::Report;
pub use report_writer::report_text;
pub use run_report::{RunFault, RunReport};
pub use run_writer::write_run_report;
pub use statuses::{DONE, FAILED, INPUT_REFUSED, WORDS_REFUSED, file_status, status};
pub use summary::{MOST_CROSSINGS, Summary};
pub use summary_writer::summary_text;

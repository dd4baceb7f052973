//! The program `mapchain` over any files and streams: from the words of its command line to its exit status. It stands on
//! `command_words` for the words, on `effective_area` for an area among them, on `mapchain_engine` for the work, with a reducer of
//! `effective_area`, on `reports` for what is reported, on `explanations` and `fault_explanations` for what is said of a run in words. A program
//! above calls `command` with the words, the file system and its standard streams, and ends with the status that it answers, which is at most 3.
//! What a run promises is `specs/Runs.antt`.
#![tactic(auto)]

mod counts;
mod delivering;
mod ending;
mod explaining;
mod file_running;
mod files;
mod following;
mod notes;
mod options;
mod printing;
mod running;

pub use command_words::{name_and_path, with_explain};
pub use counts::Counts;
pub use ending::Ending;
pub use explanations::Observed;
pub use fault_explanations::{FileKind, WriteFailure};
pub use files::Files;
pub use json_value::OwnText;
pub use notes::Notes;
pub use reports::{file_status, status};
pub use running::{command, perform};

//! What is said beside a report, in lines for a person: what became of what was built, simplified or counted. It looks on while the run goes
//! (`Observed`), and reads no file again; `built` says of a report how much was kept. The program calls a function for each outcome. Each line
//! begins with two blanks and ends with a line feed. Contracts say the share of the positions that were kept, and which lines stand in brief
//! (`put_brief`); the sentences have none.
#![tactic(auto)]

mod bounds;
mod brief;
mod brief_laws;
mod building;
mod contents;
mod crossed;
mod inputs_read;
mod left_out;
mod losses;
mod member_names;
mod observed;
mod owners;
mod samples;
mod unread;

pub use brief::put_brief;
pub use brief_laws::{kind_in_brief, others_stand};
pub use building::built;
pub use observed::Observed;

//! The two ends of a program's bytes: a `Source` that is read to its end, and a `Sink` that is written.
//! Both stand on std's `Read` and `Write` through the traits `Feed` and `Drain`, which count the failures of a device.
//! A writer above calls `Sink::put`, and its contract is the relation `Writes` of `specs/Writes.antt`: the whole text,
//! or a prefix of it and a failed device. A text of several parts is written by `put_part` and its like, whose contract is the
//! relation `Continues`: each goes on from the `Progress` of the one before it, and `flush_after` sends what was written: `Sends`.
//! `proofs/Writing.antt` and `proofs/Parts.antt` have the lemmas that join such writes.
#![tactic(auto)]

mod calls;
pub mod devices;
mod drain;
mod feed;
mod memory_drain;
mod progress;
mod sink;
mod source;

pub use drain::{Drain, ToWrite};
pub use feed::{Failed, Feed, FromRead};
pub use memory_drain::MemoryDrain;
pub use owned_values::Memory;
pub use progress::{Progress, flush_after, put_part};
pub use sink::{Broken, Sink, WriteFault};
pub use source::{MAX_INPUT, ReadFault, Source, read_all};

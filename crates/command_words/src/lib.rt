//! The words of the program's command line: its commands and their help, and what given words ask for. It stands on `clap` alone.
//! A program above calls `read_words` on what `joined_words` makes of the words, does what the `Request` asks for, and reports a
//! `WordsFault`. What the words ask for is `specs/Asked.antt`.
#![tactic(auto)]

mod commands;
mod file_usage;
mod joining;
mod layer_words;
mod naming;
mod refusing;
mod request;
mod usage;
mod words_fault;

pub use joining::{joined_words, with_explain};
pub use layer_words::name_and_path;
pub use request::{Order, Request, read_words};
pub use words_fault::WordsFault;

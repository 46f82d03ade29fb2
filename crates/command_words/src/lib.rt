//! The words of a command line: a command, and then `key=value` in any order. Tables say which keys a command has and
//! which values a key has, and the job or the one fault of the words is defined by these tables and not by a walk.
#![tactic(auto)]

mod draft;
mod job;
mod laws;
mod read;
mod table;
#[cfg(test)]
mod tests;
mod value;

pub use job::{Command, EngineKind, Job, Key, Show, UsageFault};
pub use laws::words_law;
pub use read::read_words;
pub use table::key_name;

//! The program as one call over any source, sinks and gate: from the words of the command line and the bytes of the
//! input to the bytes of the output. Each command is a module, whose definition says what it prints, so the contract
//! of the call is the theorem that the program exists for.
#![tactic(auto)]

mod chains;
mod cut;
mod gb;
mod make;
mod module;
mod normal;
mod run;
#[cfg(test)]
mod tests;

pub use command_words::{Command, EngineKind, Job, Key, Show, UsageFault, read_words};
pub use gb::gb_law;
pub use job_steps::{InputProblem, Status};
pub use run::bergman;

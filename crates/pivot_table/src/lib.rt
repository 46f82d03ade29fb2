//! The machine of claims on shared words. Each call of a step is one atomic step, and one event of the machine of
//! `pivot_core`; nothing is locked, and no call waits. A worker knows that its view stood in some run, and this is all
//! that its next step rests on: it needs no fact about another seat.
#![tactic(auto)]

mod cells;
mod finish;
mod law;
mod race;
mod reads;
mod share;
mod steps;
#[cfg(test)]
mod tests;
mod worker;

pub use finish::Finish;
pub use race::Race;
pub use share::{Hand, Setting, Share};
pub use steps::Holder;
pub use worker::Worker;

/// Want of memory.
pub type NoMemory = std::alloc::AllocError;

//! Where the program's bytes come from and go to: sources and sinks that tell what they can of their bytes and
//! count their faults, and the gate that a worker passes. A failed call is always counted, so that a fault told by
//! the program has a cause outside it.
#![tactic(auto)]

mod adapters;
mod ends;
mod gate;
#[cfg(test)]
mod gate_tests;
mod memory;
mod planned;
#[cfg(test)]
mod tests;
mod transfer;

pub use adapters::{StdSink, StdSource};
pub use ends::{Failed, Sink, Source};
pub use gate::{Gate, OpenGate, Plan, PlannedGate, Spot};
pub use memory::{FixedSink, NoMemory, SteadySource};
pub use planned::{MemorySink, MemorySource};
pub use transfer::{ReadAllFault, WriteFault, read_all, write_all};

//! The leading words of a basis, ready to answer which of them stands leftmost in a word. None is a factor of
//! another, so at most one stands at each place, and the leftmost is a function of the word.
#![tactic(auto)]

mod automaton;
mod basis_index;
mod index;
pub mod laws;
mod lead;
mod steps;
#[cfg(test)]
mod tests;
mod tree;

pub use basis_index::index_of;
pub use index::{LeadIndex, Place};
pub use lead::Lead;

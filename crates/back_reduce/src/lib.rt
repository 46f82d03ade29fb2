//! Row problems over the residues of a field modulus: rows over numbered columns, the pivots that elimination finds
//! in them, and the reduced row echelon form of their span. Whoever finds the pivots, the form is the same, so
//! engines differ in that alone. A row of the form comes from the rows of the pivots alone, by one walk over its
//! columns, so all rows are reduced side by side.
#![tactic(auto)]

mod echelon;
mod elimination;
mod entry;
mod form;
mod laws;
mod listed;
mod pivots;
mod problem;
mod row;
mod scale;
mod table;
#[cfg(test)]
mod tests;

pub use echelon::reduced;
pub use elimination::{SeqPivots, eliminate};
pub use entry::Entry;
pub use laws::echelon_law;
pub use pivots::PivotRows;
pub use problem::Problem;
pub use row::Row;

/// Want of memory.
pub type NoMemory = std::alloc::AllocError;

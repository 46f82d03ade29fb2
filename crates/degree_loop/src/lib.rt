//! The matrix engines: a degree by linear algebra over the closure of its rows. Relations and obstructions give the
//! rows, their closure gives columns and reducers, and the reduced row echelon form of what the rows leave at the
//! contested columns is the reduced basis. An engine is the way in which it finds the pivots; all else is common.
#![tactic(auto)]

mod account;
mod calls;
mod core_engine;
mod degree;
mod elements;
mod finder;
mod laws;
mod matrix;
mod race_engine;
mod relations;
mod rows;
mod schedule;
mod seq_engine;
mod terms;

pub use account::account_of;
pub use core_engine::CoreEngine;
pub use degree::degree_by;
pub use elements::elements_of;
pub use finder::PivotFinder;
pub use laws::{claim_history_law, schedule_law};
pub use matrix::{Matrix, matrix_of};
pub use race_engine::RaceEngine;
pub use rows::obstruction_rows;
pub use seq_engine::SeqEngine;

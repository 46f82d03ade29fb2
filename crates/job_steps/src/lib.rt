//! The steps of a job, for any engine, source and sink: reading its input, printing the basis degree by degree and
//! then the series, and telling a trace and the line of a status. What is printed is a definition's value, of which
//! a failed write leaves a prefix.
#![tactic(auto)]

mod answer;
mod degree_lines;
mod input;
mod laws;
#[cfg(test)]
mod line_tests;
mod lines;
mod print;
mod status;
mod telling;

pub use answer::{Answer, write_answer};
pub use input::read_input;
pub use laws::reach_law;
pub use print::{Asked, PrintFault, print_job};
pub use status::{InputProblem, Status};
pub use telling::{Teller, tell_status};

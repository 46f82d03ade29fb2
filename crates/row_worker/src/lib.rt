//! The workers of a race. Each makes steps until it has ended, which it does since the steps of a row are bounded and
//! each counts; the workers of a crew run at once, by halves of halves of the crew in threads of their own.
#![tactic(auto)]

mod raced;
mod running;
#[cfg(test)]
mod tests;
mod worker;

pub use raced::raced_pivots;
pub use running::race;
pub use worker::run_worker;

//! The Hilbert series of the quotient by an ideal, from its reduced basis. The coefficient of a degree is the number of
//! its normal words, since the other words of the degree are exactly the leading words of the ideal.
#![tactic(auto)]

mod held;
mod laws;
mod numbers;
#[cfg(test)]
mod tests;

pub use laws::count_law;
pub use numbers::{SeriesFault, series};

//! The printed texts of polynomials, degrees, series and histories of claims. Each text grows in one buffer, piece
//! by piece, and is a function of what is printed.
#![tactic(auto)]

mod element;
mod piece;
mod series;
#[cfg(test)]
mod tests;
mod trace;

pub use element::{
    balanced_size, degree_text, element_line, head_line, poly_text, push_size, push_term,
};
pub use piece::{push_number, push_word};
pub use series::{push_series, series_text};
pub use trace::trace_text;

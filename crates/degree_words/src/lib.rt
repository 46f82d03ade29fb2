//! The words of a degree, counted and listed. Numbers come first, so that a caller sees how many words there are
//! before any of them is made; and of the degrees below only those are listed whose words are part of a word of the
//! degree.
#![tactic(auto)]

mod counts;
mod lists;
mod within;

pub use counts::counts_of;
pub use lists::lists_of;
pub use within::degree_within;

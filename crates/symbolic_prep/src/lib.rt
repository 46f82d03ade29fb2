//! The closure of a degree (Faugère's symbolic preprocessing): all words that reduction of the rows can meet, each
//! with its reducer or none. After it, reduction is linear algebra over a fixed list of columns. Words go by numbers,
//! packed where they are short enough, and each is looked up once, when a row or a reducer brings it.
#![tactic(auto)]

mod by_number;
mod by_word;
mod closed;
mod closing;
mod columns;
mod lists;
mod multiples;
mod numbering;
mod ordering;
mod packed;
mod packing;
mod pending;
mod residues;
mod table;
mod tails;
mod walk;

pub use closed::Closed;
pub use closing::close;

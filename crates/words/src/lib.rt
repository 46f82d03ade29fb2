//! Words in letters that have names and weights, their degrees, and their order: the greater degree, and then the
//! smaller letter number at the first place that differs. All that this program computes is in words, falling in
//! this order. Words of one degree are compared letter by letter, without their weights, so only `degree` and
//! `deglex` ask for an alphabet.
#![tactic(auto)]

mod alphabet;
mod items;
mod order;
#[cfg(test)]
mod tests;
mod word;

pub use alphabet::{Alphabet, AlphabetFault, degree, word_degree};
pub use items::Items;
pub use order::{compare_words, deglex, degree_laws, letterwise, order_laws};
pub use word::{NoMemory, Word, occurs_at};

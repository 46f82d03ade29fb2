//! The input text: its tokens, its grammar, and what its relations mean. Each text has a reading or one first
//! fault, which is told by its place: a token is refused where no text of the grammar goes on with it.
#![tactic(auto)]

mod declaration;
mod elements;
mod fault;
mod gatherer;
mod laws;
mod place;
mod placed;
mod presented;
mod reading;
mod scan;
#[cfg(test)]
mod tests;
mod token;
mod walk;

pub use fault::{InputFault, ReaderFault, Want};
pub use laws::reading_laws;
pub use reading::{read, tokens};
pub use token::{Mark, Token};

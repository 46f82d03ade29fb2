//! The normal words of an index, degree after degree. A word is normal where no word of the index stands in it. All of
//! it but its first letter is normal then, so the next degree comes from the degrees before it, and only what begins
//! with the new letter is asked.
#![tactic(auto)]

mod next;
mod normal;
#[cfg(test)]
mod tests;

pub use next::{NormalFault, next_degree, push_unless};
pub use normal::NormalWords;

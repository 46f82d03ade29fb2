//! The machine of claims, as it stands apart from threads: seats draw rows, publish them word by word, and claim
//! columns for them, each by one step on one word at a time. A step looks at the view of its seat and at the word
//! that it meets, and at nothing else, so whatever order the steps of the seats take, the rows that hold columns in
//! the end are pivots of the problem.
#![tactic(auto)]

mod event;
mod history;
#[cfg(test)]
mod history_tests;
mod laws;
mod lists;
mod machine;
mod met;
mod next;
mod pivots;
mod sight;
#[cfg(test)]
mod tests;
mod view;

pub use event::{Event, Kind, Reply};
pub use history::{History, merge, replays};
pub use laws::claim_laws;
pub use lists::{clear, holder_told};
pub use machine::Core;
pub use next::{comes_next, word_met};
pub use pivots::CorePivots;
pub use sight::Sight;
pub use view::{Phase, View};

/// Want of memory.
pub type NoMemory = std::alloc::AllocError;

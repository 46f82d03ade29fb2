//! Ideals of relations in a free algebra over a field of residues, degree by degree: their leading words, reduced
//! bases, dimensions and overlaps, with the laws that tie them; and what an engine promises that computes the reduced
//! basis of a degree from those below. Spans and greatest words define all of it, so a basis does not depend on the
//! engine.
#![tactic(auto)]

mod account;
mod basis;
mod degrees;
mod engine;
mod laws;
mod limits;
mod presentation;

pub use account::{Account, Answer, Call};
pub use basis::Basis;
pub use degrees::{advance, run};
pub use engine::{DegreeEngine, DegreeReport, EngineFault};
pub use laws::{basis_laws, lower_law, next_degree_law, overlaps_law, quantities_law, setting_law};
pub use limits::{LimitKind, Limits};
pub use presentation::Presentation;

#[cfg(test)]
mod tests;

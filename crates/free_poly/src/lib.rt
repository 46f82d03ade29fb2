//! Polynomials in words, with coefficients modulo a number. A polynomial is a list of terms in normal form, so that
//! two polynomials with the same coefficients are one list.
#![tactic(auto)]

mod degrees;
mod fault;
mod laws;
mod merge;
mod poly;
mod sum;
mod term;
#[cfg(test)]
mod tests;

pub use fault::PolyFault;
pub use laws::element_laws;
pub use poly::Poly;
pub use term::Term;
pub use words::NoMemory;

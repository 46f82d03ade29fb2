//! The law of the matrix of a degree: at the contested columns, which are those without a reducer, each row leaves
//! residues, and the elements of their reduced row echelon form are the reduced basis of the degree. It is stated over
//! plain lists, so each engine that fills such a matrix cites it, whichever way it finds the pivots. Beside the law
//! stands the element of such a row.
#![tactic(auto)]

mod element;
mod laws;

pub use element::element_of;
pub use laws::rows_law;

#[cfg(test)]
mod tests;

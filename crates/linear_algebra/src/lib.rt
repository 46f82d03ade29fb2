//! Linear algebra over the residues of a field modulus: spans, reduced echelon forms and dependence, for vectors
//! that have an entry at each value of some type. The columns are a list of such values in an order, so the same
//! laws serve words, which fall, and the columns of a row problem. They are proved over any field, given by its laws.
#![tactic(auto)]

mod laws;

pub use laws::elimination_laws;

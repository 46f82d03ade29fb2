//! Arithmetic on the residues of a field modulus p, a number for which each residue other than 0 has an inverse.
//! Coefficients of polynomials and entries of rows are such residues. A `Field` is made for these moduli alone, so
//! that no operation can fail. The inverse of a comes from that of the smaller residue of p by a: up to 65535 this
//! fills a table, and above it each call goes by Euclid's steps. Beside it stands the one generator of numbers that
//! look drawn, from which schedules and made inputs come.
#![tactic(auto)]

mod draw;
mod field;
#[cfg(test)]
mod tests;

pub use draw::number_after;
pub use field::{Field, NoMemory, listed_moduli_law};

//! Adding a multiple of one list of residues to another, several places at a time. In a lane the remainder modulo p
//! takes no division: a quotient by p, taken once for the factor, gives by a product the quotient of each multiple but
//! for 1 (V. Shoup's product with a fixed factor), and so what is left is below 2p.
#![tactic(auto)]

mod kernel;
mod lanes;
mod narrow;
mod negative;
#[cfg(test)]
mod tests;
mod wide;

pub use kernel::axpy_lanes;

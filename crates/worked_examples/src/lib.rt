//! Worked algebras, as tests of several crates together: presentations with their reduced bases and coefficients, and
//! the steps on the way to these in their own numbers.
#![tactic(auto)]

#[cfg(test)]
mod bases;
#[cfg(test)]
mod chains;
#[cfg(test)]
mod engines;
#[cfg(test)]
mod lists;
#[cfg(test)]
mod modules;
#[cfg(test)]
mod monomials;
#[cfg(test)]
mod presented;
#[cfg(test)]
mod printed;
#[cfg(test)]
mod printing;
#[cfg(test)]
mod problems;
#[cfg(test)]
mod rows;

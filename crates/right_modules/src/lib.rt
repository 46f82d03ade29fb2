//! Right modules over an algebra of relations, by the two-sided ideal of all relations. Where each generator stands in
//! front alone, the module's leading words and reduced elements are those of the ideal that lead with a module word.
#![tactic(auto)]

mod elements;
mod extended;
mod laws;
mod module;
mod numbers;
mod shape;

pub use laws::module_laws;
pub use module::{ModuleBasis, ModuleDegree, ModuleFault, module_basis};

//! The plain engine: the reduced basis of a degree straight from its definition. All products of relations of the
//! degree are rows over all of its words, and the rows of their echelon form whose leading word is minimal are the
//! elements. It is slow on purpose: what it answers is easy to believe, so faster engines are compared with it.
#![tactic(auto)]

mod elements;
mod engine;
mod gathered;
mod products;

pub use engine::PlainEngine;

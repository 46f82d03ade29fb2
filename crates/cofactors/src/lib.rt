//! Normal forms modulo an ideal, each with the products of relations that an element and its normal form differ by.
//! So who has the relations alone can multiply out what this crate says.
#![tactic(auto)]

mod certificate;
mod factors;
mod laws;
mod leaders;
mod product;
mod row;
mod sum;
mod text;
mod triples;

pub use certificate::{Certificate, CofactorFault, normal_form};
pub use laws::normal_form_laws;
pub use product::Product;
pub use sum::expand;
pub use text::answer_text;
pub use triples::lead_degree_within;

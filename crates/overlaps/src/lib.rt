//! The obstructions of a basis in a degree: pairs of elements whose leading words overlap. With the relations and the
//! reducers of the degree, their rows span it. An element that begins with a given word is found by halving, since the
//! leading words of a degree fall letter by letter.
#![tactic(auto)]

mod listing;
mod obstruction;
mod place;

pub use listing::{OverlapFault, obstructions};
pub use obstruction::Obstruction;
pub use place::{first_place, lead_at};

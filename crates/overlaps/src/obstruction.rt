ghost use Rattle.std.specs.Prelude.{All, IfOk};
ghost use Rattle.free_poly.specs.Terms.{HasResidues};
ghost use Rattle.overlaps.specs.Listed.{IsOf, IsRowFor};

use crate::place::lead_at;
use field_table::Field;
use free_poly::{Poly, element_laws};
use ideal_laws::Basis;
use std::alloc::Global;
use words::{NoMemory, Word};

/// The word in which two leading words overlap, the places of the two elements, of which the left one begins the word,
/// and how many letters both cover.
#[derive(Debug, Drop)]
pub struct Obstruction {
    pub word: Word,
    pub left: u32,
    pub right: u32,
    pub shared: u32,
}

impl Obstruction {
    /// The left element times what follows it in the word, less what stands before the right one times that.
    pub fn row(&self, alloc: Global, field: &Field, basis: &Basis) -> Result<Poly, NoMemory>
        requires obstruction { IsOf basis.now.weights basis.now.elements self.now }
        requires residues { All (HasResidues field.now) basis.now.elements }
        ensures { IfOk result (λ row. IsRowFor field.now basis.now.weights basis.now.elements self.now row) }
    {
        element_laws();
        let letters = self.word.letters();
        let covered = lead_at(basis, self.left).len();
        let before = &letters[..covered - self.shared as usize];
        let behind = &letters[covered..];
        let first = basis.element(self.left).times(alloc, &[], behind)?;
        let second = basis.element(self.right).times(alloc, before, &[])?;
        first.add_scaled(alloc, field, field.modulus() - 1, &second)
    }
}

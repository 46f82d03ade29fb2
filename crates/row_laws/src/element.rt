ghost use Rattle.std.specs.Prelude.{◌≡◌, ◌<◌, All, AllPairs, IfOk, length, map};
ghost use Rattle.words.specs.Order.{IsLetterwiseGreater};
ghost use Rattle.free_poly.specs.Poly.{element_on};
ghost use Rattle.row_laws.specs.Elements.{term_in};

use back_reduce::{Entry, Row};
use free_poly::{Poly, Term};
use std::alloc::Global;
use words::{NoMemory, Word};

/// The polynomial with these residues at the columns, which are falling words.
pub fn element_of(alloc: Global, columns: &[Word], row: &Row) -> Result<Poly, NoMemory>
    requires falling { AllPairs IsLetterwiseGreater columns.now }
    requires width { length row.now ≡ length columns.now }
    ensures { IfOk result (λ element. element ≡ element_on columns.now row.now) }
{
    let entries = row.entries(alloc)?;
    let terms = terms_of(alloc, columns, entries.as_slice())?;
    Ok(Poly::from_falling(terms))
}

/// The word of the column of each entry, with its residue.
fn terms_of(alloc: Global, columns: &[Word], entries: &[Entry]) -> Result<Vec<Term>, NoMemory>
    requires { All (λ entry. entry.column < length columns.now) entries.now }
    ensures { IfOk result (λ terms. terms.items ≡ map (term_in columns.now) entries.now) }
{
    let mut terms = Vec::with_capacity(alloc, entries.len())?;
    for entry in entries {
        let word = columns[entry.column].copy(alloc)?;
        terms.push(Term {
            word,
            coefficient: entry.residue,
        })?;
    }
    Ok(terms)
}

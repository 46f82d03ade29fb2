ghost use Rattle.std.specs.Prelude.{◌≡◌, ◌%◌, List, ℕ, IfOk, unwrap_or};
ghost use Rattle.std.specs.BTreeMap.{get};
ghost use Rattle.words.specs.Order.{letterwise_cmp};
ghost use Rattle.free_poly.specs.Poly.{IsPolynomial};
ghost use Rattle.free_poly.specs.Terms.{HasResidues, IsSame, total_at};

use crate::term::Term;
use field_table::Field;
use std::alloc::Global;
use std::collections::BTreeMap;
use words::{NoMemory, Word};

/// The terms of the sum, in normal form.
pub(crate) fn normal_terms(
    alloc: Global,
    field: &Field,
    terms: Vec<Term>,
) -> Result<Vec<Term>, NoMemory>
    requires { HasResidues field.now terms.items }
    ensures sum { IfOk result (λ v. IsSame field.now v.items terms.items) }
    ensures form { IfOk result (λ v. IsPolynomial v.items) }
    ensures residues { IfOk result (λ v. HasResidues field.now v.items) }
{
    let totals = totals_of(alloc, field, terms)?;
    let terms = falling_terms(alloc, totals)?;
    Ok(terms)
}

/// The total of each word of the terms.
fn totals_of(
    alloc: Global,
    field: &Field,
    terms: Vec<Term>,
) -> Result<BTreeMap<Word, u32>, NoMemory>
    requires { HasResidues field.now terms.items }
    ensures { IfOk result (λ m. (w : List ℕ) → unwrap_or (get letterwise_cmp m w) 0
        ≡ total_at terms.items w % field.now) }
{
    let mut totals = BTreeMap::new(alloc);
    for term in terms {
        let Term { word, coefficient } = term;
        let total = totals.entry(word)?.or_insert(0);
        *total = field.add(*total, coefficient);
    }
    Ok(totals)
}

/// The totals other than 0 with their words, the greatest word first.
fn falling_terms(alloc: Global, totals: BTreeMap<Word, u32>) -> Result<Vec<Term>, NoMemory>
    ensures totals { IfOk result (λ v. (w : List ℕ) → total_at v.items w ≡ unwrap_or (get letterwise_cmp totals w) 0) }
    ensures form { IfOk result (λ v. IsPolynomial v.items) }
{
    let mut terms = Vec::new(alloc);
    for (word, coefficient) in totals.into_iter().rev() {
        if coefficient == 0 {
            continue;
        }
        terms.push(Term { word, coefficient })?;
    }
    Ok(terms)
}

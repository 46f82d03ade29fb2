ghost use Rattle.std.specs.Prelude.{◌≡◌, ◌<◌, ◌++◌, IfOk, OnOk};
ghost use Rattle.free_poly.specs.Poly.{IsPolynomial, firsts_cmp};
ghost use Rattle.free_poly.specs.Terms.{HasResidues, IsSame, scaled, term_at};

use crate::term::Term;
use field_table::Field;
use std::alloc::Global;
use std::cmp::Ordering;
use words::{NoMemory, Word};

/// Which list has the greater first word, where a list with no word left has the smaller.
fn order_of_firsts(first: &[Term], second: &[Term]) -> Ordering
    ensures { result ≡ firsts_cmp first.now second.now }
{
    if second.is_empty() {
        return Ordering::Greater;
    }
    if first.is_empty() {
        return Ordering::Less;
    }
    first[0].word.cmp(&second[0].word)
}

/// Appends a term, if its coefficient is not 0.
fn push_term(
    alloc: Global,
    terms: &mut Vec<Term>,
    word: &Word,
    coefficient: u32,
) -> Result<(), NoMemory>
    ensures { OnOk result (terms.new.items ≡ terms.old.items ++ term_at word.now coefficient) }
{
    if coefficient != 0 {
        let word = word.copy(alloc)?;
        terms.push(Term { word, coefficient })?;
    }
    Ok(())
}

/// The first list and a times the second, merged.
pub(crate) fn merged(
    alloc: Global,
    field: &Field,
    a: u32,
    first: &[Term],
    second: &[Term],
) -> Result<Vec<Term>, NoMemory>
    requires a_residue { a < field.now }
    requires first_form { IsPolynomial first.now }
    requires second_form { IsPolynomial second.now }
    requires first_residues { HasResidues field.now first.now }
    requires second_residues { HasResidues field.now second.now }
    ensures form { IfOk result (λ v. IsPolynomial v.items) }
    ensures residues { IfOk result (λ v. HasResidues field.now v.items) }
    ensures sum { IfOk result (λ v. IsSame field.now v.items (first.now ++ scaled a second.now)) }
{
    let mut terms = Vec::with_capacity(alloc, first.len() + second.len())?;
    let mut first_left = first;
    let mut second_left = second;
    while !(first_left.is_empty() && second_left.is_empty()) {
        match order_of_firsts(first_left, second_left) {
            Ordering::Greater => {
                let term = &first_left[0];
                push_term(alloc, &mut terms, &term.word, term.coefficient)?;
                first_left = &first_left[1..];
            }
            Ordering::Less => {
                let term = &second_left[0];
                let added = field.mul(a, term.coefficient);
                push_term(alloc, &mut terms, &term.word, added)?;
                second_left = &second_left[1..];
            }
            Ordering::Equal => {
                let term = &first_left[0];
                let added = field.mul(a, second_left[0].coefficient);
                let total = field.add(term.coefficient, added);
                push_term(alloc, &mut terms, &term.word, total)?;
                first_left = &first_left[1..];
                second_left = &second_left[1..];
            }
        }
    }
    Ok(terms)
}

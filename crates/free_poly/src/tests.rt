ghost use Rattle.std.specs.Prelude.{◌≡◌, ◌<◌, ◌^◌, All, IfOk, IsTrue, length};
ghost use Rattle.words.specs.Words.{IsOver, degree_of};
ghost use Rattle.free_poly.specs.Terms.{HasResidues, UsesLetters};

use super::*;
use field_table::Field;
use std::alloc::Global;
use std::process::Abort;
use std::test::Fail;
use words::{Alphabet, Word};

/// The letters x and y, each of weight 1.
fn alphabet(alloc: Global) -> Result<Alphabet, Fail> {
    let names = vec![in alloc; vec![in alloc; b'x']?, vec![in alloc; b'y']?]?;
    let weights = vec![in alloc; 1, 1]?;
    Ok(Alphabet::weighted(alloc, names, weights)?)
}

fn is_fit(alphabet: &Alphabet, word: &[u8]) -> bool
    ensures letters { IsTrue result → IsOver (length alphabet.now.weights) word.now }
    ensures degree { IsTrue result → degree_of alphabet.now.weights word.now < 2 ^ 64 }
{
    if word.len() > 64 {
        return false;
    }
    let mut total = 0;
    for letter in word {
        if u32::from(*letter) >= alphabet.len() {
            return false;
        }
        total += u64::from(alphabet.weight(*letter));
    }
    true
}

fn are_fit(alphabet: &Alphabet, field: &Field, terms: &[Term]) -> bool
    ensures residues { IsTrue result → HasResidues field.now terms.now }
    ensures letters { IsTrue result → UsesLetters (length alphabet.now.weights) terms.now }
    ensures degrees { IsTrue result → All (λ t. degree_of alphabet.now.weights t.word < 2 ^ 64) terms.now }
{
    for term in terms {
        if term.coefficient >= field.modulus() || !is_fit(alphabet, term.word.letters()) {
            return false;
        }
    }
    true
}

/// The sum of the listed terms.
fn sum_of(
    rt: &impl Abort,
    alloc: Global,
    field: &Field,
    listed: &[(u32, &[u8])],
) -> Result<Result<Poly, PolyFault>, Fail>
    ensures { IfOk result (λ sum. IfOk sum (HasResidues field.now)) }
{
    let alphabet = alphabet(alloc)?;
    let mut terms = Vec::new(alloc);
    for (coefficient, letters) in listed {
        let word = Word::from_letters(alloc, letters)?;
        terms.push(Term {
            word,
            coefficient: *coefficient,
        })?;
    }
    assert!(rt; are_fit(&alphabet, field, terms.as_slice()));
    Ok(Poly::from_terms(alloc, &alphabet, field, terms))
}

fn assert_terms(rt: &impl Abort, poly: &Poly, wanted: &[(u32, &[u8])], case: &str) {
    assert_eq!(rt; poly.terms().len(), wanted.len(), "{case}");
    for (term, (coefficient, letters)) in poly.terms().iter().zip(wanted) {
        assert_eq!(rt; term.coefficient, *coefficient, "{case}");
        assert_eq!(rt; term.word.letters(), *letters, "{case}");
    }
}

#[test]
fn terms_are_summed(rt: HostRuntime) -> Result<(), Fail> {
    let alloc = rt.alloc();
    let field = Field::new(alloc, 7)?;
    let listed = [(3, &[0, 1][..]), (1, &[1, 0][..]), (4, &[0, 1][..])];
    let sum = sum_of(&rt, alloc, &field, &listed)??;
    assert_terms(&rt, &sum, &[(1, &[1, 0][..])], "3 x*y + y*x + 4 x*y");
    let none = sum_of(&rt, alloc, &field, &[])??;
    assert!(rt; none.lead().is_none());
    Ok(())
}

#[test]
fn two_degrees_are_refused(rt: HostRuntime) -> Result<(), Fail> {
    let alloc = rt.alloc();
    let field = Field::new(alloc, 101)?;
    let mixed = sum_of(&rt, alloc, &field, &[(1, &[0, 0][..]), (100, &[1][..])])?;
    assert!(rt; matches!(mixed, Err(PolyFault::MixedDegrees { first: 2, other: 1 })));
    Ok(())
}

#[test]
fn polynomials_are_computed_with(rt: HostRuntime) -> Result<(), Fail> {
    let alloc = rt.alloc();
    let field = Field::new(alloc, 7)?;
    let poly = sum_of(&rt, alloc, &field, &[(2, &[0, 1][..]), (4, &[1, 0][..])])??;
    let other = sum_of(&rt, alloc, &field, &[(1, &[1, 0][..])])??;

    assert_ne!(rt; poly.terms().len(), 0);
    let monic = poly.monic(alloc, &field)?;
    assert_terms(&rt, &monic, &[(1, &[0, 1][..]), (2, &[1, 0][..])], "monic");
    assert_eq!(rt; monic.coefficient(&[1, 0]), 2);
    assert_eq!(rt; monic.coefficient(&[0, 0]), 0);

    let lead = monic.add_scaled(alloc, &field, 5, &other)?;
    assert_terms(&rt, &lead, &[(1, &[0, 1][..])], "x*y + 2 y*x + 5 y*x");
    assert_terms(&rt, &lead.copy(alloc)?, &[(1, &[0, 1][..])], "copy");

    assert_eq!(rt; lead.terms().len(), 1);
    let product = lead.times(alloc, &[0], &[1])?;
    assert_terms(&rt, &product, &[(1, &[0, 0, 1, 1][..])], "x * x*y * y");
    Ok(())
}

ghost use Rattle.std.specs.Prelude.{◌≡◌, [], ◌∷◌, IsTrue};
ghost use Rattle.free_poly.specs.Poly.{IsMonic};
ghost use Rattle.free_poly.specs.Terms.{HasDegree, UsesLetters};

use crate::account::Account;
use crate::basis::Basis;
use crate::degrees::run;
use crate::engine::{DegreeEngine, DegreeReport, EngineFault};
use crate::limits::{LimitKind, Limits};
use crate::presentation::Presentation;
use field_table::{Field, listed_moduli_law};
use free_poly::{Poly, Term};
use std::alloc::Global;
use std::test::Fail;
use std::thread::Threads;
use words::{Alphabet, Items, Word};

/// Knows the bases of presentations without relations alone.
#[derive(Drop)]
struct FreeEngine;

impl DegreeEngine for FreeEngine {
    ghost kinds = { λ _. [] };

    ghost may_account = { λ _ _ _ _ _ account. account.rows ≡ 0 };

    fn degree<R: Threads + Sync>(
        &mut self,
        _rt: &R,
        alloc: Global,
        field: &Field,
        presentation: &Presentation,
        _below: &Basis,
        _d: u32,
    ) -> Result<DegreeReport, EngineFault> {
        let _modulus = field.modulus();
        let relations = presentation.relations.as_slice().len();
        if relations > 0 {
            return Err(EngineFault::NoMemory);
        }
        Ok(DegreeReport {
            elements: Items::from_vec(Vec::new(alloc)),
            account: Account {
                rows: 0,
                columns: Items::from_vec(Vec::new(alloc)),
                calls: Items::from_vec(Vec::new(alloc)),
            },
        })
    }
}

/// The polynomial x^2 - y*x modulo 101.
fn sample(alloc: Global, alphabet: &Alphabet, field: &Field) -> Result<Poly, Fail>
    requires letters { alphabet.now.weights ≡ 1 ∷ 1 ∷ [] }
    requires modulus { field.now ≡ 101 }
{
    let square = Term {
        word: Word::from_letters(alloc, &[0, 0])?,
        coefficient: 1,
    };
    let other = Term {
        word: Word::from_letters(alloc, &[1, 0])?,
        coefficient: 100,
    };
    let terms = vec![in alloc; square, other]?;
    Ok(Poly::from_terms(alloc, alphabet, field, terms)?)
}

/// Whether the polynomial may be an element of degree 2 in two letters of weight 1.
fn is_quadratic(f: &Poly) -> bool
    ensures monic { IsTrue result → IsMonic f.now }
    ensures letters { IsTrue result → UsesLetters 2 f.now }
    ensures degree { IsTrue result → HasDegree (1 ∷ 1 ∷ []) 2 f.now }
{
    let terms = f.terms();
    if terms.is_empty() || terms[0].coefficient != 1 {
        return false;
    }
    for term in terms {
        let letters = term.word.letters();
        if letters.len() != 2 || letters[0] > 1 || letters[1] > 1 {
            return false;
        }
    }
    true
}

#[test]
fn a_push_appends_a_whole_degree(rt: HostRuntime) -> Result<(), Fail> {
    listed_moduli_law();
    let alloc = rt.alloc();
    let field = Field::new(alloc, 101)?;
    let names = vec![in alloc; b"x".to_vec(alloc)?, b"y".to_vec(alloc)?]?;
    let alphabet = Alphabet::weighted(alloc, names, vec![in alloc; 1, 1]?)?;
    let mut basis = Basis::new(alloc, &alphabet);
    basis.push_degree(Vec::new(alloc))?;
    assert_eq!(rt; (basis.done(), basis.len()), (1, 0));
    let element = sample(alloc, &alphabet, &field)?;
    assert!(rt; is_quadratic(&element));
    basis.push_degree(vec![in alloc; element]?)?;
    assert_eq!(rt; (basis.done(), basis.len()), (2, 1));
    assert_eq!(rt; basis.of_degree(2), (0, 1));
    assert_eq!(rt; basis.element(0).terms().len(), 2);
    Ok(())
}

#[test]
fn without_relations_each_degree_is_empty(rt: HostRuntime) -> Result<(), Fail> {
    listed_moduli_law();
    let alloc = rt.alloc();
    let field = Field::new(alloc, 101)?;
    let names = vec![in alloc; b"x".to_vec(alloc)?]?;
    let alphabet = Alphabet::weighted(alloc, names, vec![in alloc; 2]?)?;
    let presentation = Presentation {
        alphabet,
        relations: Items::from_vec(Vec::new(alloc)),
    };
    let basis = run(&rt, alloc, &mut FreeEngine, &field, &presentation, 3)?;
    assert_eq!(rt; basis.done(), 3);
    assert_eq!(rt; basis.len(), 0);
    assert_eq!(rt; basis.of_degree(2), (0, 0));
    assert_eq!(rt; basis.weight(0), 2);
    Ok(())
}

#[test]
fn the_standard_limits_are_as_named(rt: HostRuntime) {
    let limits = Limits::standard();
    assert_eq!(rt; limits.plain_words, 4_096);
    assert_eq!(rt; limits.normal_words, 2_097_152);
    assert_ne!(rt; LimitKind::Rows, LimitKind::Columns);
}

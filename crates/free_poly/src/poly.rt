ghost use Rattle.std.specs.Prelude.{◌≡◌, ◌≢◌, ◌^◌, ◌<◌, ◌++◌, [], ℕ, All, IfOk, IsErrOf, OnOk, length, map};
ghost use Rattle.std.specs.Option.{option_copied};
ghost use Rattle.words.specs.Order.{letterwise_cmp};
ghost use Rattle.words.specs.Words.{degree_of};
ghost use Rattle.free_poly.specs.Degrees.{HasTwoDegrees};
ghost use Rattle.free_poly.specs.Poly.{IsMonic, IsMultiple, IsPolynomial, lead_of};
ghost use Rattle.free_poly.specs.Terms.{HasNoPrefix, HasOneDegree, HasResidues, IsSame, UsesLetters, product};
ghost use Rattle.free_poly.specs.Terms.{scaled, total_at};

use crate::degrees::{greatest_degree, next_degree};
use crate::fault::PolyFault;
use crate::merge::merged;
use crate::sum::normal_terms;
use crate::term::Term;
use field_table::Field;
use std::alloc::Global;
use std::cmp::Ordering;
use std::marker::Model;
use words::{Alphabet, NoMemory, Word, letterwise};

/// A polynomial, which contracts see as its terms, falling letter by letter.
#[derive(Debug, Drop)]
pub struct Poly {
    terms: Vec<Term>,
}

impl Model for Poly {
    ghost use Rattle.std.specs.Prelude.{List};
    ghost use Rattle.free_poly.specs.declared.term.Term.{Term};
    ghost use Rattle.free_poly.specs.Poly.{IsPolynomial};

    ghost Value = { List Term };

    ghost view = { λ f. f.terms.items };

    ghost invariant = { λ f. IsPolynomial f.terms.items };
}

impl Poly {
    /// The sum of the terms. A sum with words of two degrees is refused with the greatest of its degrees and the
    /// greatest of the others.
    pub fn from_terms(
        alloc: Global,
        alphabet: &Alphabet,
        field: &Field,
        terms: Vec<Term>,
    ) -> Result<Poly, PolyFault>
        requires residues { HasResidues field.now terms.items }
        requires letters { UsesLetters (length alphabet.now.weights) terms.items }
        requires degrees { All (λ t. degree_of alphabet.now.weights t.word < 2 ^ 64) terms.items }

        ensures sum { IfOk result (λ f. IsSame field.now f terms.items) }
        ensures form { IfOk result IsPolynomial }
        ensures residues { IfOk result (HasResidues field.now) }
        ensures letters { IfOk result (UsesLetters (length alphabet.now.weights)) }
        ensures one_degree { IfOk result (HasOneDegree alphabet.now.weights) }

        ensures mixed { (first other : ℕ) → IsErrOf result (PolyFault.MixedDegrees first other)
            → HasTwoDegrees field.now alphabet.now.weights terms.items first other }
    {
        let terms = normal_terms(alloc, field, terms)?;
        let first = greatest_degree(alphabet, terms.as_slice());
        match next_degree(alphabet, terms.as_slice(), first) {
            Some(other) => Err(PolyFault::MixedDegrees { first, other }),
            None => Ok(Poly { terms }),
        }
    }

    /// The polynomial of terms that are in normal form.
    pub fn from_falling(terms: Vec<Term>) -> Poly
        requires { IsPolynomial terms.items }
        ensures { result ≡ terms.items }
    {
        Poly { terms }
    }

    /// None exactly for 0.
    pub fn lead(&self) -> Option<&Word>
        ensures { option_copied result ≡ lead_of self.now }
    {
        match self.terms.first() {
            Some(term) => Some(&term.word),
            None => None,
        }
    }

    pub fn terms(&self) -> &[Term]
        ensures value { result.now ≡ self.now }
        ensures form { IsPolynomial self.now }
    {
        self.terms.as_slice()
    }

    pub fn coefficient(&self, word: &[u8]) -> u32
        ensures { result ≡ total_at self.now word.now }
    {
        let terms = self.terms();
        let standing = |term: &Term| -> Ordering
            ensures { result ≡ letterwise_cmp word.entry.now term.now.word }
        { letterwise(word, term.word.letters()) };
        match terms.binary_search_by(standing) {
            Ok(at) => terms[at].coefficient,
            Err(_) => 0,
        }
    }

    /// Copies the terms.
    pub fn copy(&self, alloc: Global) -> Result<Poly, NoMemory>
        ensures { IfOk result (λ f. f ≡ self.now) }
    {
        let mut terms = Vec::with_capacity(alloc, self.terms.len())?;
        for term in &self.terms {
            let word = term.word.copy(alloc)?;
            terms.push(Term {
                word,
                coefficient: term.coefficient,
            })?;
        }
        Ok(Poly { terms })
    }

    /// The multiple whose leading coefficient is 1.
    pub fn monic(&self, alloc: Global, field: &Field) -> Result<Poly, NoMemory>
        requires other { self.now ≢ [] }
        requires residues { HasResidues field.now self.now }
        ensures monic { IfOk result IsMonic }
        ensures multiple { IfOk result (λ f. IsMultiple field.now f self.now) }
        ensures words { IfOk result (λ f. map (λ t. t.word) f ≡ map (λ t. t.word) self.now) }
        ensures form { IfOk result IsPolynomial }
        ensures residues { IfOk result (HasResidues field.now) }
    {
        let a = field.inv(self.terms[0].coefficient);
        let mut terms = Vec::with_capacity(alloc, self.terms.len())?;
        for term in &self.terms {
            let word = term.word.copy(alloc)?;
            let coefficient = field.mul(a, term.coefficient);
            terms.push(Term { word, coefficient })?;
        }
        Ok(Poly { terms })
    }

    /// The sum of this polynomial and a times the other, whatever their degrees.
    pub fn add_scaled(
        &self,
        alloc: Global,
        field: &Field,
        a: u32,
        other: &Poly,
    ) -> Result<Poly, NoMemory>
        requires a_residue { a < field.now }
        requires residues { HasResidues field.now self.now }
        requires other_residues { HasResidues field.now other.now }
        ensures sum { IfOk result (λ f. IsSame field.now f (self.now ++ scaled a other.now)) }
        ensures form { IfOk result IsPolynomial }
        ensures residues { IfOk result (HasResidues field.now) }
    {
        Ok(Poly {
            terms: merged(alloc, field, a, self.terms(), other.terms())?,
        })
    }

    pub fn times(&self, alloc: Global, left: &[u8], right: &[u8]) -> Result<Poly, NoMemory>
        requires { HasNoPrefix self.now }
        ensures product { IfOk result (λ f. f ≡ product left.now self.now right.now) }
        ensures form { IfOk result IsPolynomial }
    {
        let mut letters = Vec::new(alloc);
        let mut terms = Vec::with_capacity(alloc, self.terms.len())?;
        for term in &self.terms {
            fill(&mut letters, left, term.word.letters(), right)?;
            let word = Word::from_letters(alloc, letters.as_slice())?;
            terms.push(Term {
                word,
                coefficient: term.coefficient,
            })?;
        }
        Ok(Poly { terms })
    }
}

/// Fills a buffer with three lists of letters.
fn fill(letters: &mut Vec<u8>, left: &[u8], middle: &[u8], right: &[u8]) -> Result<(), NoMemory>
    ensures { OnOk result (letters.new.items ≡ left.now ++ middle.now ++ right.now) }
{
    letters.clear();
    letters.extend_from_slice(left)?;
    letters.extend_from_slice(middle)?;
    letters.extend_from_slice(right)?;
    Ok(())
}

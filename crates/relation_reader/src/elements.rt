ghost use Rattle.std.specs.Prelude.{ℕ, ◌≡◌, ◌≢◌, ◌<◌, ◌++◌, ◌^◌, [], ◌∷◌, None, All, IfOk, MatchResult, OnOk};
ghost use Rattle.std.specs.Prelude.{length, map};
ghost use Rattle.words.specs.Names.{IsAlphabet};
ghost use Rattle.relation_reader.specs.Meaning.{first_of, is_constant, others_than_zero, relation_faults};
ghost use Rattle.relation_reader.specs.Elements.{AreSound, AreSummable, IsElementOf, IsFirstError, IsFitting};
ghost use Rattle.relation_reader.specs.Elements.{IsRelationError};

use crate::fault::{InputFault, ReaderFault};
use field_table::Field;
use free_poly::{Poly, PolyFault, Term};
use std::alloc::Global;
use words::{Alphabet, NoMemory};

fn is_constant(element: &Poly) -> bool
    ensures { result ≡ is_constant element.now }
{
    let terms = element.terms();
    terms.len() == 1 && terms[0].word.letters().is_empty()
}

/// The element of the relation with this number, or its fault.
fn element_of(
    alloc: Global,
    field: &Field,
    alphabet: &Alphabet,
    relation: u32,
    terms: Vec<Term>,
) -> Result<Poly, ReaderFault>
    requires alphabet { IsAlphabet alphabet.now }
    requires terms { AreSummable field.now alphabet.now.weights terms.items }
    ensures element { MatchResult result (IsElementOf field.now terms.items)
        (IsRelationError field.now alphabet.now.weights terms.items relation) }
    ensures sound { IfOk result (λ f. (k : ℕ) → first_of (relation_faults alphabet.now.weights k (f ∷ [])) ≡ None) }
    ensures fitting { IfOk result (IsFitting field.now alphabet.now.weights) }
{
    let element = match Poly::from_terms(alloc, alphabet, field, terms) {
        Ok(element) => element,
        Err(PolyFault::MixedDegrees { first: _, other: _ }) => {
            return Err(ReaderFault::Text(InputFault::NotHomogeneous { relation }));
        }
        Err(PolyFault::NoMemory) => return Err(ReaderFault::NoMemory),
    };
    if is_constant(&element) {
        return Err(ReaderFault::Text(InputFault::Constant { relation }));
    }
    Ok(element)
}

/// Appends an element, unless it is 0.
fn push_other(elements: &mut Vec<Poly>, element: Poly) -> Result<(), NoMemory>
    ensures { OnOk result (elements.new.items ≡ elements.old.items ++ others_than_zero (element ∷ [])) }
{
    if element.terms().is_empty() {
        return Ok(());
    }
    elements.push(element)?;
    Ok(())
}

/// The elements of the relations other than 0, or the fault of the first relation that has one.
pub fn elements_of(
    alloc: Global,
    field: &Field,
    alphabet: &Alphabet,
    relations: Vec<Vec<Term>>,
) -> Result<Vec<Poly>, ReaderFault>
    requires modulus { 0 < field.now }
    requires alphabet { IsAlphabet alphabet.now }
    requires few { length relations.items < 2 ^ 32 }
    requires terms { All (λ terms. AreSummable field.now alphabet.now.weights terms.items) relations.items }

    ensures elements { MatchResult result (λ v. AreSound field.now alphabet.now.weights
        (map (λ terms. terms.items) relations.items) v.items)
        (IsFirstError field.now alphabet.now.weights (map (λ terms. terms.items) relations.items)) }
    ensures fitting { IfOk result (λ v. All (IsFitting field.now alphabet.now.weights) v.items) }
    ensures others { IfOk result (λ v. All (λ f. f ≢ []) v.items) }
    ensures few { IfOk result (λ v. length v.items < 2 ^ 32) }
{
    let mut elements = Vec::new(alloc);
    let mut relation = 0u32;
    for terms in relations {
        relation += 1;
        let element = match element_of(alloc, field, alphabet, relation, terms) {
            Ok(element) => element,
            Err(fault) => return Err(fault),
        };
        push_other(&mut elements, element)?;
    }
    Ok(elements)
}

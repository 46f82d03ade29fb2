ghost use Rattle.std.specs.Prelude.{◌≡◌, ◌≢◌, ◌<◌, ◌≤◌, ◌↔◌, [], All, IfOk, IsErrOf, IsTrue, OnOk, length};
ghost use Rattle.free_poly.specs.Terms.{HasOneDegree, HasResidues, UsesLetters};
ghost use Rattle.ideal_laws.specs.Engine.{IsReducedUpto};
ghost use Rattle.ideal_laws.specs.Ideal.{IsInIdeal, ideal_over};
ghost use Rattle.ideal_laws.specs.Kept.{lead_degree};
ghost use Rattle.lead_index.specs.Leads.{IsFree, IsIndexOf};
ghost use Rattle.cofactors.specs.Certificate.{IsCertificate};
ghost use Rattle.cofactors.specs.ProductList.{triples};
ghost use Rattle.cofactors.specs.Rows.{AreFactors, HasPlaces, negative_products};

use crate::factors::Factor;
use crate::laws::normal_form_laws;
use crate::leaders::leaders_of;
use crate::product::Product;
use crate::row::{Row, cleared};
use crate::triples::{count_triples, lead_degree_within, triples_of};
use degree_words::counts_of;
use field_table::Field;
use free_poly::Poly;
use ideal_laws::{Basis, Presentation, lower_law, setting_law};
use lead_index::LeadIndex;
use std::alloc::{AllocError, Global};
use words::{Items, NoMemory};

/// The normal form of an element, and products whose sum is the element less this.
#[derive(Debug, Drop)]
pub struct Certificate {
    pub normal: Poly,
    pub products: Items<Product>,
}

/// Why a normal form is not given.
#[derive(Debug, Drop)]
pub enum CofactorFault {
    /// More triples than were asked for have the degree of the question.
    TooMany,
    NoMemory,
}

impl From<AllocError> for CofactorFault {
    ghost use Rattle.cofactors.specs.declared.certificate.CofactorFault.TheVariants.{NoMemory};

    ghost from_gives = { λ _ fault. fault ≡ NoMemory };

    fn from(_error: AllocError) -> CofactorFault {
        CofactorFault::NoMemory
    }
}

/// The normal form of the question modulo the ideal, and products of relations whose sum is the question less it. The
/// question is in the ideal exactly where its normal form is 0. Which of the product lists it is stays open.
pub fn normal_form(
    alloc: Global,
    field: &Field,
    presentation: &Presentation,
    basis: &Basis,
    index: &LeadIndex,
    question: &Poly,
    most: u32,
) -> Result<Certificate, CofactorFault>
    requires other { question.now ≢ [] }
    requires letters { UsesLetters (length presentation.now.alphabet.weights) question.now }
    requires residues { HasResidues field.now question.now }
    requires one_degree { HasOneDegree presentation.now.alphabet.weights question.now }
    requires weights { basis.now.weights ≡ presentation.now.alphabet.weights }
    requires done { lead_degree basis.now.weights question.now ≤ basis.now.done }
    requires reduced { IsReducedUpto field.now presentation.now.relations basis.now }
    requires index { IsIndexOf basis.now.elements index.now }
    requires relations { All (HasResidues field.now) presentation.now.relations }
    requires few { most ≤ 16384 }

    ensures certificate { let weights = basis.now.weights in IfOk result
        (IsCertificate (ideal_over field.now weights presentation.now.relations) (lead_degree weights question.now)
        question.now) }
    ensures member { let weights = basis.now.weights in IfOk result
        (λ c. IsInIdeal (ideal_over field.now weights presentation.now.relations) (lead_degree weights question.now)
        question.now ↔ (c.normal ≡ [])) }
    ensures within { let weights = basis.now.weights in OnOk result
        (length (triples weights presentation.now.relations (lead_degree weights question.now)) ≤ most) }

    // Want of memory may stand in the place of either answer.
    ensures too_many { let weights = basis.now.weights in IsErrOf result CofactorFault.TooMany
        → most < length (triples weights presentation.now.relations (lead_degree weights question.now)) }
{
    lower_law();
    normal_form_laws();
    setting_law(field, presentation);
    let _done = basis.done();
    let _terms = question.terms();
    let degree = lead_degree_within(&presentation.alphabet, question, 64);
    let counts = counts_of(&presentation.alphabet, degree);
    if count_triples(presentation, &counts, degree) > u64::from(most) {
        return Err(CofactorFault::TooMany);
    }
    if is_free(index, question) {
        return Ok(Certificate {
            normal: question.copy(alloc)?,
            products: Items::from_vec(Vec::new(alloc)),
        });
    }
    let triples = triples_of(alloc, presentation, &counts, degree)?;
    let leaders = leaders_of(alloc, field, presentation, triples.as_slice())?;
    let row = Row {
        element: question.copy(alloc)?,
        factors: Items::from_vec(Vec::new(alloc)),
    };
    let Row { element, factors } = cleared(alloc, field, leaders.as_slice(), row)?;
    let products = products_of(alloc, field, triples.as_slice(), factors.as_slice())?;
    Ok(Certificate {
        normal: element,
        products: Items::from_vec(products),
    })
}

/// Whether no leading word of the index stands in a word of the question.
fn is_free(index: &LeadIndex, question: &Poly) -> bool
    requires small { All (λ t. length t.word ≤ 64) question.now }
    ensures { IsTrue result ↔ All (λ t. IsFree index.now t.word) question.now }
{
    for term in question.terms() {
        if index.first_reducer(term.word.letters()).is_some() {
            return false;
        }
    }
    true
}

/// The triples with the negatives of their factors, where these are not 0.
fn products_of(
    alloc: Global,
    field: &Field,
    triples: &[Product],
    factors: &[Factor],
) -> Result<Vec<Product>, NoMemory>
    requires factors { AreFactors field.now factors.now }
    requires places { HasPlaces (length triples.now) factors.now }
    ensures { IfOk result (λ v. v.items ≡ negative_products field.now triples.now factors.now) }
{
    let mut products = Vec::with_capacity(alloc, factors.len())?;
    for factor in factors {
        if factor.residue != 0 {
            let triple = &triples[factor.place as usize];
            products.push(Product {
                coefficient: field.neg(factor.residue),
                left: triple.left.copy(alloc)?,
                relation: triple.relation,
                right: triple.right.copy(alloc)?,
            })?;
        }
    }
    Ok(products)
}

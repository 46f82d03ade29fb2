ghost use Rattle.std.specs.Prelude.{◌≡◌, ◌↔◌, ℕ, All, AllPairs, IfOk, IsTrue, length};
ghost use Rattle.words.specs.Order.{IsLetterwiseGreater};
ghost use Rattle.words.specs.Words.{OccursAt};
ghost use Rattle.ideal_laws.specs.Closure.{IsNormal};
ghost use Rattle.plain_engine.specs.Elements.{AreElements, HasNormalLead};

use back_reduce::Row;
use free_poly::Poly;
use ideal_laws::Basis;
use row_laws::element_of;
use std::alloc::Global;
use words::{NoMemory, Word, occurs_at};

/// The elements of the rows in whose leading word no leading word of a lower degree stands.
pub(crate) fn elements_of(
    alloc: Global,
    columns: &[Word],
    echelon: &[Row],
    below: &Basis,
) -> Result<Vec<Poly>, NoMemory>
    requires falling { AllPairs IsLetterwiseGreater columns.now }
    requires width { All (λ row. length row ≡ length columns.now) echelon.now }
    ensures { IfOk result (λ elements. AreElements columns.now below.now.elements echelon.now elements.items) }
{
    let mut elements = Vec::new(alloc);
    for row in echelon {
        if has_normal_lead(columns, below, row) {
            elements.push(element_of(alloc, columns, row)?)?;
        }
    }
    Ok(elements)
}

/// Whether no leading word of the basis stands in the word at which the row leads.
fn has_normal_lead(columns: &[Word], below: &Basis, row: &Row) -> bool
    requires { length row.now ≡ length columns.now }
    ensures { IsTrue result ↔ HasNormalLead columns.now below.now.elements row.now }
{
    match row.lead() {
        Some(at) => is_normal(below, columns[at].letters()),
        None => true,
    }
}

/// Whether no leading word of the basis stands in the word.
fn is_normal(below: &Basis, word: &[u8]) -> bool
    ensures { IsTrue result ↔ IsNormal below.now.elements word.now }
{
    for place in 0..below.len() {
        if let Some(lead) = below.element(place).lead() {
            if is_factor(lead.letters(), word) {
                return false;
            }
        }
    }
    true
}

/// Whether the factor stands in the word at any place.
fn is_factor(factor: &[u8], word: &[u8]) -> bool
    ensures { IsTrue result ↔ ((k : ℕ) × OccursAt factor.now word.now k) }
{
    for at in 0..word.len() {
        if occurs_at(factor, word, at) {
            return true;
        }
    }
    occurs_at(factor, word, word.len())
}

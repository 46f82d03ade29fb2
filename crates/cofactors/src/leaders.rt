ghost use Rattle.std.specs.Prelude.{◌≡◌, ◌<◌, ◌≤◌, ◌↔◌, ◌^◌, [], List, All, AllPairs, Contains, IfOk, IsTrue, OnOk};
ghost use Rattle.std.specs.Prelude.{drop, length, map, slice_index_or, take};
ghost use Rattle.words.specs.Order.{IsLetterwiseGreater};
ghost use Rattle.free_poly.specs.declared.term.Term.{Term};
ghost use Rattle.free_poly.specs.Poly.{lead_or_none};
ghost use Rattle.free_poly.specs.Terms.{HasResidues};
ghost use Rattle.cofactors.specs.ProductList.{triple_terms};
ghost use Rattle.cofactors.specs.Rows.{AreLeaders, IsPlusSpan, IsRow, IsTracked, IsZeroAtLeads, lead_word};

use crate::factors::Factor;
use crate::product::{Product, triple_of};
use crate::row::{Row, cleared, monic};
use field_table::Field;
use free_poly::Poly;
use ideal_laws::Presentation;
use std::alloc::{AllocError, Global};
use std::cmp::Ordering;
use words::{Items, NoMemory, letterwise};

/// Rows with falling leading words that span what the triples stand for, each with its factors over these.
pub(crate) fn leaders_of(
    alloc: Global,
    field: &Field,
    presentation: &Presentation,
    triples: &[Product],
) -> Result<Vec<Row>, NoMemory>
    requires few { length triples.now < 2 ^ 32 }
    requires numbers { All (λ q. (0 < q.relation) × (q.relation ≤ length presentation.now.relations)) triples.now }
    requires relations { All (HasResidues field.now) presentation.now.relations }
    ensures leaders { IfOk result (λ v. AreLeaders field.now v.items) }
    ensures tracked { IfOk result (λ v. All (IsTracked field.now
        (map (triple_terms presentation.now.relations) triples.now) []) v.items) }
    ensures spanned { IfOk result (λ v. All (λ f. IsPlusSpan field.now v.items f [])
        (map (triple_terms presentation.now.relations) triples.now)) }
{
    let _modulus = field.modulus();
    let mut leaders = Vec::new(alloc);
    for (place, triple) in triples.iter().enumerate() {
        let element = triple_of(alloc, presentation, triple)?;
        let row = row_of(alloc, field, element, place as u32)?;
        let left = cleared(alloc, field, leaders.as_slice(), row)?;
        insert(alloc, field, &mut leaders, left)?;
    }
    Ok(leaders)
}

/// The element with the factor 1 at its own place.
fn row_of(alloc: Global, field: &Field, element: Poly, place: u32) -> Result<Row, NoMemory>
    requires residues { HasResidues field.now element }
    ensures row { IfOk result (IsRow field.now) }
    ensures element { IfOk result (λ row. row.element ≡ element) }
    ensures tracked { (fs : List (List Term)) → place < length fs → slice_index_or fs place [] ≡ element →
        IfOk result (IsTracked field.now fs []) }
{
    let _modulus = field.modulus();
    let _terms = element.terms();
    let mut factors = Vec::new(alloc);
    factors.push(Factor { place, residue: 1 })?;
    Ok(Row {
        element,
        factors: Items::from_vec(factors),
    })
}

/// Puts the monic multiple of a row among the leaders, unless the row is 0.
fn insert(alloc: Global, field: &Field, leaders: &mut Vec<Row>, row: Row) -> Result<(), NoMemory>
    requires leaders { AreLeaders field.now leaders.old.items }
    requires row { IsRow field.now row }
    requires zero { IsZeroAtLeads leaders.old.items row.element }
    ensures leaders { OnOk result (AreLeaders field.now leaders.new.items) }
    ensures kept { OnOk result ((r : Row) → Contains leaders.old.items r → Contains leaders.new.items r) }
    ensures spanned { OnOk result (IsPlusSpan field.now leaders.new.items row.element []) }
    ensures tracked { (fs : List (List Term)) → All (IsTracked field.now fs []) leaders.old.items →
        IsTracked field.now fs [] row
        → OnOk result (All (IsTracked field.now fs []) leaders.new.items) }
{
    let Some(word) = row.element.lead() else {
        return Ok(());
    };
    let at = place_of(leaders.as_slice(), word.letters());
    let leader = monic(alloc, field, &row)?;
    match leaders.insert(at, leader) {
        Ok(()) => Ok(()),
        Err(_) => Err(AllocError),
    }
}

/// How many of the leaders have a greater leading word.
fn place_of(leaders: &[Row], word: &[u8]) -> usize
    requires falling { AllPairs (λ r s. IsLetterwiseGreater (lead_word r) (lead_word s)) leaders.now }
    ensures within { result ≤ length leaders.now }
    ensures before { All (λ r. IsLetterwiseGreater (lead_word r) word.now) (take result leaders.now) }
    ensures behind { All (λ r. IsLetterwiseGreater (lead_word r) word.now → ⊥) (drop result leaders.now) }
{
    for (at, leader) in leaders.iter().enumerate() {
        if !leads_with_greater(&leader.element, word) {
            return at;
        }
    }
    leaders.len()
}

/// Whether the leading word is greater than this one.
fn leads_with_greater(element: &Poly, word: &[u8]) -> bool
    ensures { IsTrue result ↔ IsLetterwiseGreater (lead_or_none element.now) word.now }
{
    match element.lead() {
        Some(lead) => letterwise(lead.letters(), word) == Ordering::Greater,
        None => letterwise(&[], word) == Ordering::Greater,
    }
}

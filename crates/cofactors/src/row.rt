ghost use Rattle.std.specs.Prelude.{◌≡◌, ◌≢◌, ◌<◌, [], ℕ, List, All, IfOk};
ghost use Rattle.free_poly.specs.declared.term.Term.{Term};
ghost use Rattle.free_poly.specs.Poly.{IsMonic, lead_or_none};
ghost use Rattle.free_poly.specs.Terms.{IsSame, scaled, total_at};
ghost use Rattle.cofactors.specs.Rows.{AreLeaders, IsPlusSpan, IsPlusTimes, IsRow, IsTracked, IsZeroAtLeads, lead_word};

use crate::factors::{Factor, plus_times};
use field_table::Field;
use free_poly::Poly;
use std::alloc::Global;
use words::{Items, NoMemory};

/// An element, with its factors over the elements of which it was made.
#[derive(Debug, Drop)]
pub struct Row {
    pub element: Poly,
    pub factors: Items<Factor>,
}

/// The row without what it has at the leading words of the leaders.
pub(crate) fn cleared(
    alloc: Global,
    field: &Field,
    leaders: &[Row],
    row: Row,
) -> Result<Row, NoMemory>
    requires leaders { AreLeaders field.now leaders.now }
    requires row { IsRow field.now row }
    ensures row { IfOk result (IsRow field.now) }
    ensures spanned { IfOk result (λ after. IsPlusSpan field.now leaders.now row.element after.element) }
    ensures tracked { (fs : List (List Term)) (base : List Term) → All (IsTracked field.now fs []) leaders.now
        → IsTracked field.now fs base row → IfOk result (IsTracked field.now fs base) }
    ensures zero { IfOk result (λ after. IsZeroAtLeads leaders.now after.element) }
{
    let _modulus = field.modulus();
    let mut left = row;
    for leader in leaders {
        left = without_lead(alloc, field, leader, left)?;
    }
    Ok(left)
}

/// The row without what it has at the leading word of the leader.
fn without_lead(alloc: Global, field: &Field, leader: &Row, row: Row) -> Result<Row, NoMemory>
    requires leader { IsRow field.now leader.now }
    requires monic { IsMonic leader.now.element }
    requires row { IsRow field.now row }
    ensures row { IfOk result (IsRow field.now) }
    ensures plus { IfOk result (λ after. (a : ℕ) × IsPlusTimes field.now a leader.now row after) }
    ensures zero { IfOk result (λ after. total_at after.element (lead_word leader.now) ≡ 0) }
{
    let _modulus = field.modulus();
    let entry = entry_at_lead(&leader.element, &row.element);
    if entry == 0 {
        return Ok(row);
    }
    plus_leader(alloc, field, &row, field.neg(entry), leader)
}

/// What the element has at the leading word of the leader.
fn entry_at_lead(leader: &Poly, element: &Poly) -> u32
    requires { IsMonic leader.now }
    ensures { result ≡ total_at element.now (lead_or_none leader.now) }
{
    match leader.lead() {
        Some(word) => element.coefficient(word.letters()),
        None => 0,
    }
}

/// The row and a times the leader.
fn plus_leader(
    alloc: Global,
    field: &Field,
    row: &Row,
    a: u32,
    leader: &Row,
) -> Result<Row, NoMemory>
    requires a_residue { a < field.now }
    requires row { IsRow field.now row.now }
    requires leader { IsRow field.now leader.now }
    ensures row { IfOk result (IsRow field.now) }
    ensures sum { IfOk result (λ after. IsPlusTimes field.now a leader.now row.now after) }
{
    let element = row.element.add_scaled(alloc, field, a, &leader.element)?;
    let factors = plus_times(
        alloc,
        field,
        row.factors.as_slice(),
        a,
        leader.factors.as_slice(),
    )?;
    Ok(Row {
        element,
        factors: Items::from_vec(factors),
    })
}

/// The multiple of the row whose leading coefficient is 1.
pub(crate) fn monic(alloc: Global, field: &Field, row: &Row) -> Result<Row, NoMemory>
    requires other { row.now.element ≢ [] }
    requires row { IsRow field.now row.now }
    ensures row { IfOk result (IsRow field.now) }
    ensures monic { IfOk result (λ m. IsMonic m.element) }
    ensures lead { IfOk result (λ m. lead_word m ≡ lead_word row.now) }
    ensures multiple { IfOk result (λ m. (c : ℕ) × IsSame field.now row.now.element (scaled c m.element)) }
    ensures tracked { (fs : List (List Term)) → IsTracked field.now fs [] row.now →
        IfOk result (IsTracked field.now fs []) }
{
    let a = field.inv(row.element.terms()[0].coefficient);
    let element = row.element.monic(alloc, field)?;
    let factors = plus_times(alloc, field, &[], a, row.factors.as_slice())?;
    Ok(Row {
        element,
        factors: Items::from_vec(factors),
    })
}

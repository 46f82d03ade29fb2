ghost use Rattle.std.specs.Prelude.{◌≡◌, ◌<◌, ◌++◌, ℕ, List, IfOk, OnOk};
ghost use Rattle.free_poly.specs.declared.term.Term.{Term};
ghost use Rattle.free_poly.specs.Terms.{IsSame, scaled};
ghost use Rattle.cofactors.specs.Rows.{AreFactors, HasPlaces, combined, factor_at, firsts_cmp};

use field_table::Field;
use std::alloc::Global;
use std::cmp::Ordering;
use words::NoMemory;

/// A residue, with the place of the element that it multiplies.
#[derive(Debug, Clone, Copy)]
pub struct Factor {
    pub place: u32,
    pub residue: u32,
}

/// The first factors and a times the second, merged.
pub(crate) fn plus_times(
    alloc: Global,
    field: &Field,
    first: &[Factor],
    a: u32,
    second: &[Factor],
) -> Result<Vec<Factor>, NoMemory>
    requires a_residue { a < field.now }
    requires first { AreFactors field.now first.now }
    requires second { AreFactors field.now second.now }
    ensures factors { IfOk result (λ v. AreFactors field.now v.items) }
    ensures sum { (fs : List (List Term)) → IfOk result (λ v. IsSame field.now (combined fs v.items)
        (combined fs first.now ++ scaled a (combined fs second.now))) }
    ensures places { (n : ℕ) → HasPlaces n first.now → HasPlaces n second.now → IfOk result (λ v. HasPlaces n v.items) }
{
    let mut merged = Vec::with_capacity(alloc, first.len() + second.len())?;
    let mut first_left = first;
    let mut second_left = second;
    while !(first_left.is_empty() && second_left.is_empty()) {
        match order_of_firsts(first_left, second_left) {
            Ordering::Less => {
                let factor = first_left[0];
                push_factor(&mut merged, factor.place, factor.residue)?;
                first_left = &first_left[1..];
            }
            Ordering::Greater => {
                let factor = second_left[0];
                let added = field.mul(a, factor.residue);
                push_factor(&mut merged, factor.place, added)?;
                second_left = &second_left[1..];
            }
            Ordering::Equal => {
                let factor = first_left[0];
                let added = field.mul(a, second_left[0].residue);
                let total = field.add(factor.residue, added);
                push_factor(&mut merged, factor.place, total)?;
                first_left = &first_left[1..];
                second_left = &second_left[1..];
            }
        }
    }
    Ok(merged)
}

/// Which list has the lesser first place, where a list with nothing left has the greater.
fn order_of_firsts(first: &[Factor], second: &[Factor]) -> Ordering
    ensures { result ≡ firsts_cmp first.now second.now }
{
    if second.is_empty() {
        return Ordering::Less;
    }
    if first.is_empty() {
        return Ordering::Greater;
    }
    first[0].place.cmp(&second[0].place)
}

/// Appends a factor, if its residue is not 0.
fn push_factor(factors: &mut Vec<Factor>, place: u32, residue: u32) -> Result<(), NoMemory>
    ensures { OnOk result (factors.new.items ≡ factors.old.items ++ factor_at place residue) }
{
    if residue != 0 {
        factors.push(Factor { place, residue })?;
    }
    Ok(())
}

ghost use Rattle.std.specs.Prelude.{◌≡◌, ◌+◌, ◌++◌, ◌-◌, ◌<◌, ◌≤◌, ◌∷◌, [], List, IfOk, IsErrOf, OnOk, length, map};
ghost use Rattle.std.specs.Prelude.{take};
ghost use Rattle.std.specs.List.Sorted.{IsPermutation, IsSorted};
ghost use Rattle.words.specs.Words.{OccursAt, degree_of};
ghost use Rattle.ideal_laws.specs.Closure.{AreObstructions, IsFactorFree, Overlap};
ghost use Rattle.overlaps.specs.Listed.{AreListed, obstruction_of};
ghost use Rattle.overlaps.specs.Walk.{block, blocks, found_cmp, lead_word, overlap_at, shared_at};

use crate::obstruction::Obstruction;
use crate::place::{first_place, lead_at};
use ideal_laws::Basis;
use std::alloc::{AllocError, Global};
use words::{NoMemory, Word, occurs_at};

/// Why the obstructions of a degree are not listed.
#[derive(Debug, Drop)]
pub enum OverlapFault {
    TooMany,
    NoMemory,
}

impl From<AllocError> for OverlapFault {
    ghost use Rattle.overlaps.specs.declared.listing.OverlapFault.TheVariants.{NoMemory};

    ghost from_gives = { λ _ fault. fault ≡ NoMemory };

    fn from(_error: AllocError) -> OverlapFault {
        OverlapFault::NoMemory
    }
}

/// The obstructions of degree `d`, by falling word and then by the left element. Mora 1994 calls them so; in Bergman
/// 1978 they are the overlap ambiguities. More than `most` are refused before they are all listed.
pub fn obstructions(
    alloc: Global,
    basis: &Basis,
    d: u32,
    most: u32,
) -> Result<Vec<Obstruction>, OverlapFault>
    requires { IsFactorFree basis.now.elements }

    ensures listed { IfOk result (λ found. AreListed basis.now.weights basis.now.elements d found.items) }
    ensures within { IfOk result (λ found. length found.items ≤ most) }

    ensures many { IsErrOf result OverlapFault.TooMany →
        (overlaps : List Overlap) × AreObstructions basis.now.weights basis.now.elements d overlaps
        × (most < length overlaps) }
{
    let _done = basis.done();
    let mut found = Vec::new(alloc);
    for left in 0..basis.len() {
        push_element(alloc, basis, d, left, most, &mut found)?;
    }
    sort(&mut found);
    Ok(found)
}

/// Appends the obstructions with this left element.
fn push_element(
    alloc: Global,
    basis: &Basis,
    d: u32,
    left: u32,
    most: u32,
    found: &mut Vec<Obstruction>,
) -> Result<(), OverlapFault>
    requires place { left < length basis.now.elements }
    requires few { length found.old.items ≤ most }

    ensures blocks { OnOk result (found.new.items ≡ found.old.items
        ++ map obstruction_of (blocks basis.now.weights basis.now.elements d left)) }
    ensures within { OnOk result (length found.new.items ≤ most) }
    ensures many { IsErrOf result OverlapFault.TooMany →
        most < length found.old.items + length (blocks basis.now.weights basis.now.elements d left) }
{
    let lead = lead_at(basis, left);
    let mut degree = 0;
    for before in 1..lead.len() {
        degree += u32::from(basis.weight(lead[before - 1]));
        let rest = d.saturating_sub(degree);
        push_block(alloc, basis, left, before, rest, most, found)?;
    }
    Ok(())
}

/// Appends the obstructions with this left element, so many letters before what is shared, and a right element of
/// degree `rest`.
fn push_block(
    alloc: Global,
    basis: &Basis,
    left: u32,
    before: usize,
    rest: u32,
    most: u32,
    found: &mut Vec<Obstruction>,
) -> Result<(), OverlapFault>
    requires place { left < length basis.now.elements }
    requires split { before < length (lead_word basis.now.elements left) }
    requires few { length found.old.items ≤ most }

    ensures block { OnOk result (found.new.items ≡ found.old.items
        ++ map obstruction_of (block basis.now.weights basis.now.elements left before rest)) }
    ensures within { OnOk result (length found.new.items ≤ most) }
    ensures many { IsErrOf result OverlapFault.TooMany →
        most < length found.old.items + length (block basis.now.weights basis.now.elements left before rest) }
{
    let shared = &lead_at(basis, left)[before..];
    let (first, end) = basis.of_degree(rest);
    for right in first_place(basis, first, end, shared)..end {
        if !occurs_at(shared, lead_at(basis, right), 0) {
            return Ok(());
        }
        if found.len() >= most as usize {
            return Err(OverlapFault::TooMany);
        }
        push_overlap(alloc, basis, left, before, right, found)?;
    }
    Ok(())
}

/// Appends the obstruction of two elements, with so many letters before the right one.
fn push_overlap(
    alloc: Global,
    basis: &Basis,
    left: u32,
    before: usize,
    right: u32,
    found: &mut Vec<Obstruction>,
) -> Result<(), NoMemory>
    requires left_place { left < length basis.now.elements }
    requires right_place { right < length basis.now.elements }
    requires split { before < length (lead_word basis.now.elements left) }
    requires meets { OccursAt (shared_at basis.now.elements left before) (lead_word basis.now.elements right) 0 }
    ensures { OnOk result (found.new.items ≡ found.old.items
        ++ obstruction_of (overlap_at basis.now.elements left before right) ∷ []) }
{
    let lead = lead_at(basis, left);
    let shared = (lead.len() - before) as u32;
    let word = Word::joined(alloc, &lead[..before], lead_at(basis, right))?;
    found.push(Obstruction {
        word,
        left,
        right,
        shared,
    })?;
    Ok(())
}

/// By falling word, and then by the left element.
fn sort(found: &mut Vec<Obstruction>)
    ensures same { IsPermutation found.old.items found.new.items }
    ensures sorted { IsSorted found_cmp found.new.items }
{
    found.sort_unstable_by(|a, b| b.word.cmp(&a.word).then(a.left.cmp(&b.left)));
}

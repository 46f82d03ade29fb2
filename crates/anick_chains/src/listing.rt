ghost use Rattle.std.specs.Prelude.{◌≡◌, ◌-◌, ◌<◌, ◌≤◌, List, ℕ, All, Contains, IfOk, IsErrOf, OnOk, length};
ghost use Rattle.std.specs.List.Sorted.{IsPermutation, IsSorted};
ghost use Rattle.words.specs.Words.{IsOver};
ghost use Rattle.free_poly.specs.declared.term.Term.{Term};
ghost use Rattle.ideal_laws.specs.Closure.{IsFactorFree};
ghost use Rattle.ideal_laws.specs.Engine.{IsReducedUpto};
ghost use Rattle.ideal_laws.specs.Ideal.{IsMinimal, ideal_over};
ghost use Rattle.ideal_laws.specs.Laws.{IsSetting};
ghost use Rattle.anick_chains.specs.BasisTips.{IsTipIndex, leads_of};
ghost use Rattle.anick_chains.specs.Compare.{pieces_cmp};
ghost use Rattle.anick_chains.specs.Listed.{AreListed, AreListedOf};
ghost use Rattle.anick_chains.specs.Listing.{IsFirstMany, IsNumberOf};

use crate::chain::{Chain, ChainFault};
use crate::longer::{free_letters, push_continued, push_onward};
use crate::order::compare;
use crate::tip_index::TipIndex;
use ideal_laws::Basis;
use std::alloc::Global;
use words::{Alphabet, Items};

/// The chains up to the bound over the leading words of the basis, by degree, by length, and then by falling pieces.
/// After Anick 1986, whose chains have their pieces in one word.
pub fn chains(
    alloc: Global,
    alphabet: &Alphabet,
    basis: &Basis,
    bound: u32,
    most: u32,
) -> Result<Items<Chain>, ChainFault>
    requires done { bound ≤ basis.now.done }
    requires weights { basis.now.weights ≡ alphabet.now.weights }
    requires factor_free { IsFactorFree basis.now.elements }

    ensures listed { IfOk result (λ found.
        AreListed (Contains (leads_of basis.now.elements)) (length basis.now.weights) basis.now.weights bound found) }
    ensures within { IfOk result (λ found. length found ≤ most) }
    ensures letters { IfOk result (λ found. All (λ c. All (IsOver (length basis.now.weights)) c.pieces) found) }

    // Where the basis is reduced, the tips are the minimal words.
    ensures minimal { IfOk result (λ found.
        (p : ℕ) (relations : List (List Term)) → IsSetting (ideal_over p basis.now.weights relations)
        → IsReducedUpto p relations basis.now
        → AreListed (IsMinimal (ideal_over p basis.now.weights relations)) (length basis.now.weights) basis.now.weights
        bound
        found) }

    ensures many { (degree : ℕ) → IsErrOf result (ChainFault.TooMany degree)
        → IsFirstMany (Contains (leads_of basis.now.elements)) (length basis.now.weights) basis.now.weights bound
        most degree }
{
    let _letters = alphabet.len();
    let _done = basis.done();
    let tips = TipIndex::of(alloc, basis)?;
    let mut found = Vec::new(alloc);
    for degree in 1..bound + 1 {
        push_degree(alloc, &tips, degree, most, &mut found)?;
    }
    Ok(Items::from_vec(found))
}

/// Appends the chains of a degree to those of the lower degrees.
fn push_degree(
    alloc: Global,
    tips: &TipIndex,
    degree: u32,
    most: u32,
    found: &mut Vec<Chain>,
) -> Result<(), ChainFault>
    requires tips { IsTipIndex tips.now }
    requires some { 1 ≤ degree }
    requires room { degree ≤ 64 }
    requires below { AreListedOf tips.now.basis.now (degree - 1) found.old.items }
    requires few { length found.old.items ≤ most }

    ensures listed { OnOk result (AreListedOf tips.now.basis.now degree found.new.items) }
    ensures within { OnOk result (length found.new.items ≤ most) }

    ensures many { (d : ℕ) → IsErrOf result (ChainFault.TooMany d) → (d ≡ degree) × (n : ℕ)
        × IsNumberOf tips.now.basis.now degree n × (most < n) }
{
    let room = most as usize - found.len();
    let mut block = Vec::new(alloc);
    let letters = free_letters(alloc, tips, degree)?;
    push_continued(alloc, &[], letters, degree, room, &mut block)?;
    push_onward(alloc, tips, found.as_slice(), degree, room, &mut block)?;
    sort(tips.weights.as_slice(), &mut block);
    found.append(&mut block)?;
    Ok(())
}

/// By length, and then by falling pieces.
fn sort(weights: &[u8], block: &mut Vec<Chain>)
    ensures same { IsPermutation block.old.items block.new.items }
    ensures sorted { IsSorted (λ a b. pieces_cmp weights.now a.pieces b.pieces) block.new.items }
{
    block.sort_unstable_by(|a, b| compare(weights, a.pieces.as_slice(), b.pieces.as_slice()));
}

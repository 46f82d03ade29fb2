ghost use Rattle.std.specs.Prelude.{◌≡◌, ◌+◌, ◌-◌, ◌++◌, ◌∷◌, ◌^◌, ◌<◌, ◌≤◌, [], List, ℕ, All, Contains};
ghost use Rattle.std.specs.Prelude.{IfOk, IsErrOf, OnOk, length};
ghost use Rattle.free_poly.specs.declared.term.Term.{Term};
ghost use Rattle.ideal_laws.specs.Closure.{IsFactorFree};
ghost use Rattle.ideal_laws.specs.Engine.{IsReducedUpto};
ghost use Rattle.ideal_laws.specs.Ideal.{IsMinimal, ideal_over};
ghost use Rattle.ideal_laws.specs.Laws.{IsSetting};
ghost use Rattle.anick_chains.specs.BasisTips.{IsTipIndex, leads_of};
ghost use Rattle.anick_chains.specs.Listing.{IsFirstMany, IsNumberOf};
ghost use Rattle.anick_chains.specs.Tallies.{AreCounts, AreTalliedOf, IsTallyBelow, TellsSame};
ghost use Rattle.anick_chains.specs.Tallies.{count_of, count_total, counts_at, number_of, tallies_at, tally_total};

use crate::chain::ChainFault;
use crate::merging::merged;
use crate::tallies::{push_letters, push_longer};
use crate::tally::{ChainCount, Tally};
use crate::tip_index::TipIndex;
use ideal_laws::Basis;
use std::alloc::Global;
use words::{Alphabet, Items, NoMemory};

/// For each degree up to the bound and each length that has a chain over the leading words of the basis, how many there
/// are, by degree and then by length. How a chain goes on depends on its last piece alone, so no list of them is kept.
pub fn chain_counts(
    alloc: Global,
    alphabet: &Alphabet,
    basis: &Basis,
    bound: u32,
    most: u32,
) -> Result<Items<ChainCount>, ChainFault>
    requires done { bound ≤ basis.now.done }
    requires weights { basis.now.weights ≡ alphabet.now.weights }
    requires factor_free { IsFactorFree basis.now.elements }

    ensures counted { IfOk result (λ counts.
        AreCounts (Contains (leads_of basis.now.elements)) (length basis.now.weights) basis.now.weights bound counts) }
    ensures within { IfOk result (λ counts. count_total counts ≤ most) }

    // Where the basis is reduced, the tips are the minimal words.
    ensures minimal { IfOk result (λ counts.
        (p : ℕ) (relations : List (List Term)) → IsSetting (ideal_over p basis.now.weights relations)
        → IsReducedUpto p relations basis.now
        → AreCounts (IsMinimal (ideal_over p basis.now.weights relations)) (length basis.now.weights) basis.now.weights
        bound
        counts) }

    ensures many { (degree : ℕ) → IsErrOf result (ChainFault.TooMany degree)
        → IsFirstMany (Contains (leads_of basis.now.elements)) (length basis.now.weights) basis.now.weights bound
        most degree }
{
    let _letters = alphabet.len();
    let _done = basis.done();
    let tips = TipIndex::of(alloc, basis)?;
    let mut total = 0;
    let mut tallies = Vec::new(alloc);
    let mut counts = Vec::new(alloc);
    for degree in 1..bound + 1 {
        count_degree(
            alloc,
            &tips,
            degree,
            most,
            &mut total,
            &mut tallies,
            &mut counts,
        )?;
    }
    Ok(Items::from_vec(counts))
}

/// Appends what is told of the chains of a degree to what is told of those of the lower degrees.
fn count_degree(
    alloc: Global,
    tips: &TipIndex,
    degree: u32,
    most: u32,
    total: &mut u32,
    tallies: &mut Vec<Tally>,
    counts: &mut Vec<ChainCount>,
) -> Result<(), ChainFault>
    requires tips { IsTipIndex tips.now }
    requires some { 1 ≤ degree }
    requires room { degree ≤ 64 }
    requires below { AreTalliedOf tips.now.basis.now (degree - 1) total.old tallies.old.items counts.old.items }
    requires few { total.old ≤ most }

    ensures tallied { OnOk result
        (AreTalliedOf tips.now.basis.now degree total.new tallies.new.items counts.new.items) }
    ensures within { OnOk result (total.new ≤ most) }

    ensures many { (d : ℕ) → IsErrOf result (ChainFault.TooMany d) → (d ≡ degree) × (n : ℕ)
        × IsNumberOf tips.now.basis.now degree n × (most < n) }
{
    let mut room = most - *total;
    let mut block = tallies_of(alloc, tips, degree, &mut room, tallies.as_slice())?;
    *total = most - room;
    push_counts(block.as_slice(), degree, counts)?;
    tallies.append(&mut block)?;
    Ok(())
}

/// The tallies of the chains of a degree, from those of the lower degrees.
fn tallies_of(
    alloc: Global,
    tips: &TipIndex,
    degree: u32,
    room: &mut u32,
    below: &[Tally],
) -> Result<Vec<Tally>, ChainFault>
    requires tips { IsTipIndex tips.now }
    requires room { degree ≤ 64 }
    requires small { room.old < 2 ^ 32 }
    requires below { All (IsTallyBelow tips.now.basis.now.weights degree) below.now }

    ensures same { let b = tips.now.basis.now in IfOk result (λ block.
        TellsSame block.items (tallies_at b.weights b.elements degree below.now)) }
    ensures some { IfOk result (λ block. All (λ t. 0 < t.count) block.items) }
    ensures total { let b = tips.now.basis.now in OnOk result (room.old ≡ room.new
        + tally_total (tallies_at b.weights b.elements degree below.now)) }
    ensures many { let b = tips.now.basis.now in (d : ℕ) → IsErrOf result (ChainFault.TooMany d) → (d ≡ degree)
        × (room.old < tally_total (tallies_at b.weights b.elements degree below.now)) }
{
    let mut block = Vec::new(alloc);
    push_letters(alloc, tips, degree, room, &mut block)?;
    push_longer(alloc, tips, below, degree, room, &mut block)?;
    Ok(merged(alloc, block)?)
}

/// Appends for each length that chains of these tallies have how many have it.
fn push_counts(tallies: &[Tally], degree: u32, counts: &mut Vec<ChainCount>) -> Result<(), NoMemory>
    requires small { tally_total tallies.now < 2 ^ 32 }
    requires room { degree ≤ 64 }
    ensures { OnOk result (counts.new.items ≡ counts.old.items ++ counts_at degree tallies.now) }
{
    for size in 1..degree + 1 {
        push_count(degree, size, number_of(tallies, size), counts)?;
    }
    Ok(())
}

/// Appends a number of chains, unless there is none.
#[tactic(auto, using(crate::proofs::Counts::some_counted, crate::proofs::Counts::none_appended))]
fn push_count(
    degree: u32,
    size: u32,
    count: u32,
    counts: &mut Vec<ChainCount>,
) -> Result<(), NoMemory>
    ensures { OnOk result (counts.new.items ≡ counts.old.items ++ count_of degree size count) }
{
    if count == 0 {
        return Ok(());
    }
    counts.push(ChainCount {
        degree,
        size,
        count,
    })?;
    Ok(())
}

/// How many of the chains of these tallies have the length.
fn number_of(tallies: &[Tally], size: u32) -> u32
    requires small { tally_total tallies.now < 2 ^ 32 }
    ensures { result ≡ number_of size tallies.now }
{
    let mut number = 0;
    for tally in tallies {
        if tally.size == size {
            number += tally.count;
        }
    }
    number
}

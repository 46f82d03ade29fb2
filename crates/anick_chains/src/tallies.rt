ghost use Rattle.std.specs.Prelude.{◌≡◌, ◌+◌, ◌-◌, ◌++◌, ◌∷◌, ◌<◌, ◌≤◌, [], ℕ, All, IsErrOf, OnOk};
ghost use Rattle.std.specs.List.{flat_map};
ghost use Rattle.anick_chains.specs.BasisTips.{IsTipIndex};
ghost use Rattle.anick_chains.specs.Tallies.{IsTallyBelow, longer_tallies, tallies_with, tally_total};
ghost use Rattle.anick_chains.specs.Walk.{free_letters};

use crate::chain::ChainFault;
use crate::longer::free_letters;
use crate::next::next_pieces;
use crate::tally::Tally;
use crate::tip_index::TipIndex;
use std::alloc::Global;
use words::{NoMemory, Word, word_degree};

/// Appends the letters of a degree that are no tips.
pub(crate) fn push_letters(
    alloc: Global,
    tips: &TipIndex,
    degree: u32,
    room: &mut u32,
    block: &mut Vec<Tally>,
) -> Result<(), ChainFault>
    requires tips { IsTipIndex tips.now }

    ensures letters { let b = tips.now.basis.now in OnOk result (block.new.items ≡ block.old.items
        ++ tallies_with degree 1 1 (free_letters b.weights b.elements degree)) }
    ensures total { let b = tips.now.basis.now in OnOk result (room.old ≡ room.new
        + tally_total (tallies_with degree 1 1 (free_letters b.weights b.elements degree))) }
    ensures many { let b = tips.now.basis.now in (d : ℕ) → IsErrOf result (ChainFault.TooMany d) → (d ≡ degree)
        × (room.old < tally_total (tallies_with degree 1 1 (free_letters b.weights b.elements degree))) }
{
    let letters = free_letters(alloc, tips, degree)?;
    push_each(alloc, letters.as_slice(), degree, 1, 1, room, block)
}

/// Appends the chains of a degree that have one piece more than those of the tallies.
pub(crate) fn push_longer(
    alloc: Global,
    tips: &TipIndex,
    below: &[Tally],
    degree: u32,
    room: &mut u32,
    block: &mut Vec<Tally>,
) -> Result<(), ChainFault>
    requires tips { IsTipIndex tips.now }
    requires room { degree ≤ 64 }
    requires below { All (IsTallyBelow tips.now.basis.now.weights degree) below.now }

    ensures longer { let b = tips.now.basis.now in OnOk result (block.new.items ≡ block.old.items
        ++ flat_map (longer_tallies b.weights b.elements degree) below.now) }
    ensures total { let b = tips.now.basis.now in OnOk result (room.old ≡ room.new
        + tally_total (flat_map (longer_tallies b.weights b.elements degree) below.now)) }
    ensures many { let b = tips.now.basis.now in (d : ℕ) → IsErrOf result (ChainFault.TooMany d) → (d ≡ degree)
        × (room.old < tally_total (flat_map (longer_tallies b.weights b.elements degree) below.now)) }
{
    for tally in below {
        push_next(alloc, tips, tally, degree, room, block)?;
    }
    Ok(())
}

/// Appends the chains of a degree that have one piece more than those of the tally.
fn push_next(
    alloc: Global,
    tips: &TipIndex,
    tally: &Tally,
    degree: u32,
    room: &mut u32,
    block: &mut Vec<Tally>,
) -> Result<(), ChainFault>
    requires tips { IsTipIndex tips.now }
    requires room { degree ≤ 64 }
    requires below { IsTallyBelow tips.now.basis.now.weights degree tally.now }

    ensures longer { let b = tips.now.basis.now in OnOk result (block.new.items ≡ block.old.items
        ++ longer_tallies b.weights b.elements degree tally.now) }
    ensures total { let b = tips.now.basis.now in OnOk result (room.old ≡ room.new
        + tally_total (longer_tallies b.weights b.elements degree tally.now)) }
    ensures many { let b = tips.now.basis.now in (d : ℕ) → IsErrOf result (ChainFault.TooMany d) → (d ≡ degree)
        × (room.old < tally_total (longer_tallies b.weights b.elements degree tally.now)) }
{
    let last = tally.last.letters();
    let both = word_degree(tips.weights.as_slice(), last) as u32 + (degree - tally.degree);
    let next = next_pieces(alloc, tips, last, both)?;
    push_each(
        alloc,
        next.as_slice(),
        degree,
        tally.size + 1,
        tally.count,
        room,
        block,
    )
}

/// Appends so many chains with each of these last pieces.
fn push_each(
    alloc: Global,
    pieces: &[Word],
    degree: u32,
    size: u32,
    count: u32,
    room: &mut u32,
    block: &mut Vec<Tally>,
) -> Result<(), ChainFault>
    ensures pushed { OnOk result (block.new.items ≡ block.old.items ++ tallies_with degree size count pieces.now) }
    ensures total { OnOk result (room.old ≡ room.new + tally_total (tallies_with degree size count pieces.now)) }
    ensures many { (d : ℕ) → IsErrOf result (ChainFault.TooMany d) → (d ≡ degree)
        × (room.old < tally_total (tallies_with degree size count pieces.now)) }
{
    for piece in pieces {
        if count > *room {
            return Err(ChainFault::TooMany { degree });
        }
        *room -= count;
        push_tally(alloc, degree, size, piece, count, block)?;
    }
    Ok(())
}

/// Appends a tally.
pub(crate) fn push_tally(
    alloc: Global,
    degree: u32,
    size: u32,
    last: &Word,
    count: u32,
    block: &mut Vec<Tally>,
) -> Result<(), NoMemory>
    ensures { OnOk result (block.new.items ≡ block.old.items
        ++ (record { degree = degree; size = size; last = last.now; count = count }) ∷ []) }
{
    let last = last.copy(alloc)?;
    block.push(Tally {
        degree,
        size,
        last,
        count,
    })?;
    Ok(())
}

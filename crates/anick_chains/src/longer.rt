ghost use Rattle.std.specs.Prelude.{◌≡◌, ◌+◌, ◌-◌, ◌++◌, ◌∷◌, ◌<◌, ◌≤◌, [], ℕ, Contains, IfOk, IsErrOf, OnOk, length};
ghost use Rattle.std.specs.List.{flat_map};
ghost use Rattle.anick_chains.specs.BasisTips.{IsTipIndex, leads_of};
ghost use Rattle.words.specs.Words.{IsOver};
ghost use Rattle.anick_chains.specs.Chains.{chain_degree};
ghost use Rattle.anick_chains.specs.Listed.{AreListedOf, pieces_of, with_degree};
ghost use Rattle.anick_chains.specs.Walk.{continued, free_letter, free_letters, last_piece, next_of, onward};

use crate::chain::{Chain, ChainFault};
use crate::next::{next_pieces, push_word};
use crate::tip_index::TipIndex;
use std::alloc::Global;
use words::{Items, NoMemory, Word, word_degree};

/// The letters of a degree that are no tips, as words.
pub(crate) fn free_letters(
    alloc: Global,
    tips: &TipIndex,
    degree: u32,
) -> Result<Vec<Word>, NoMemory>
    requires tips { IsTipIndex tips.now }
    ensures { let b = tips.now.basis.now in IfOk result
        (λ found. found.items ≡ free_letters b.weights b.elements degree) }
{
    let mut found = Vec::new(alloc);
    for letter in 0..tips.basis.letters() {
        push_letter(alloc, tips, degree, letter as u8, &mut found)?;
    }
    Ok(found)
}

/// Appends a letter as a word, if it has the degree and is no tip.
fn push_letter(
    alloc: Global,
    tips: &TipIndex,
    degree: u32,
    letter: u8,
    found: &mut Vec<Word>,
) -> Result<(), NoMemory>
    requires tips { IsTipIndex tips.now }
    requires letter { letter < length tips.now.basis.now.weights }
    ensures { let b = tips.now.basis.now in OnOk result (found.new.items ≡ found.old.items
        ++ free_letter b.weights b.elements degree letter) }
{
    if u32::from(tips.basis.weight(letter)) != degree {
        return Ok(());
    }
    match tips.index.first_reducer(&[letter]) {
        Some(_) => Ok(()),
        None => push_word(alloc, &[letter], found),
    }
}

/// Appends the chains of a degree that have one piece more than a chain of a lower degree.
pub(crate) fn push_onward(
    alloc: Global,
    tips: &TipIndex,
    found: &[Chain],
    degree: u32,
    room: usize,
    block: &mut Vec<Chain>,
) -> Result<(), ChainFault>
    requires tips { IsTipIndex tips.now }
    requires some { 1 ≤ degree }
    requires room { degree ≤ 64 }
    requires below { AreListedOf tips.now.basis.now (degree - 1) found.now }
    requires few { length block.old.items ≤ room }

    ensures onward { let b = tips.now.basis.now in OnOk result (block.new.items ≡ block.old.items
        ++ with_degree degree (flat_map (onward b.weights b.elements degree) (pieces_of found.now))) }
    ensures within { OnOk result (length block.new.items ≤ room) }
    ensures many { let b = tips.now.basis.now in (d : ℕ) → IsErrOf result (ChainFault.TooMany d) → (d ≡ degree)
        × (room < length block.old.items
        + length (flat_map (onward b.weights b.elements degree) (pieces_of found.now))) }
{
    for chain in found {
        push_longer(alloc, tips, chain, degree, room, block)?;
    }
    Ok(())
}

/// Appends the chains of a degree that have one piece more than this one.
fn push_longer(
    alloc: Global,
    tips: &TipIndex,
    chain: &Chain,
    degree: u32,
    room: usize,
    block: &mut Vec<Chain>,
) -> Result<(), ChainFault>
    requires tips { IsTipIndex tips.now }
    requires room { degree ≤ 64 }
    requires below { chain.now.degree < degree }
    requires degree { chain.now.degree ≡ chain_degree tips.now.basis.now.weights chain.now.pieces }
    requires letters { IsOver (length tips.now.basis.now.weights) (last_piece chain.now.pieces) }
    requires few { length block.old.items ≤ room }

    ensures longer { let b = tips.now.basis.now in OnOk result (block.new.items ≡ block.old.items ++ with_degree degree
        (continued chain.now.pieces (next_of b.weights b.elements degree chain.now.pieces))) }
    ensures within { OnOk result (length block.new.items ≤ room) }
    ensures many { let b = tips.now.basis.now in (d : ℕ) → IsErrOf result (ChainFault.TooMany d) → (d ≡ degree)
        × (room < length block.old.items + length (next_of b.weights b.elements degree chain.now.pieces)) }
{
    let pieces = chain.pieces.as_slice();
    let last = last_piece(pieces);
    let both = word_degree(tips.weights.as_slice(), last) as u32 + (degree - chain.degree);
    let next = next_pieces(alloc, tips, last, both)?;
    push_continued(alloc, pieces, next, degree, room, block)
}

/// Appends a chain of this degree for each word, with it as the last piece behind the others.
pub(crate) fn push_continued(
    alloc: Global,
    front: &[Word],
    next: Vec<Word>,
    degree: u32,
    room: usize,
    block: &mut Vec<Chain>,
) -> Result<(), ChainFault>
    requires few { length block.old.items ≤ room }

    ensures continued { OnOk result (block.new.items ≡ block.old.items
        ++ with_degree degree (continued front.now next.items)) }
    ensures within { OnOk result (length block.new.items ≤ room) }
    ensures many { (d : ℕ) → IsErrOf result (ChainFault.TooMany d) →
        (d ≡ degree) × (room < length block.old.items + length next.items) }
{
    if next.len() > room - block.len() {
        return Err(ChainFault::TooMany { degree });
    }
    push_each(alloc, front, next, degree, block)?;
    Ok(())
}

fn push_each(
    alloc: Global,
    front: &[Word],
    next: Vec<Word>,
    degree: u32,
    block: &mut Vec<Chain>,
) -> Result<(), NoMemory>
    ensures { OnOk result (block.new.items ≡ block.old.items ++ with_degree degree (continued front.now next.items)) }
{
    for piece in next {
        let pieces = Items::from_vec(with_piece(alloc, front, piece)?);
        block.push(Chain { degree, pieces })?;
    }
    Ok(())
}

/// Copies of the pieces, and one more.
fn with_piece(alloc: Global, front: &[Word], piece: Word) -> Result<Vec<Word>, NoMemory>
    ensures { IfOk result (λ pieces. pieces.items ≡ front.now ++ piece ∷ []) }
{
    let mut pieces = Vec::with_capacity(alloc, front.len() + 1)?;
    for word in front {
        pieces.push(word.copy(alloc)?)?;
    }
    pieces.push(piece)?;
    Ok(pieces)
}

/// The last piece, or the empty word where there is none.
fn last_piece(pieces: &[Word]) -> &[u8]
    ensures { result.now ≡ last_piece pieces.now }
{
    match pieces.last() {
        Some(last) => last.letters(),
        None => &[],
    }
}

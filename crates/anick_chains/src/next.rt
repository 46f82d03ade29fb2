ghost use Rattle.std.specs.Prelude.{◌≡◌, ◌+◌, ◌-◌, ◌++◌, ◌∷◌, ◌<◌, ◌≤◌, [], IfOk, OnOk, length};
ghost use Rattle.words.specs.Words.{IsOver, degree_of};
ghost use Rattle.anick_chains.specs.BasisTips.{IsTipIndex, leads_of};
ghost use Rattle.anick_chains.specs.Walk.{ends_of, next_pieces, unless_stands};

use crate::tip_index::TipIndex;
use overlaps::{first_place, lead_at};
use std::alloc::Global;
use words::{NoMemory, Word, occurs_at};

/// The pieces that may follow a piece and have the degree `d` together with it.
pub(crate) fn next_pieces(
    alloc: Global,
    tips: &TipIndex,
    piece: &[u8],
    d: u32,
) -> Result<Vec<Word>, NoMemory>
    requires tips { IsTipIndex tips.now }
    requires letters { IsOver (length tips.now.basis.now.weights) piece.now }
    requires fits { degree_of tips.now.basis.now.weights piece.now ≤ d }
    requires room { d ≤ 64 }
    ensures { let b = tips.now.basis.now in IfOk result
        (λ found. found.items ≡ next_pieces b.weights b.elements piece.now d) }
{
    let mut found = Vec::new(alloc);
    let mut degree = 0;
    for before in 0..piece.len() {
        push_ends(alloc, tips, piece, before, d - degree, &mut found)?;
        degree += u32::from(tips.basis.weight(piece[before]));
    }
    Ok(found)
}

/// Appends the next pieces from tips of degree `d` that share all of the piece but so many letters.
fn push_ends(
    alloc: Global,
    tips: &TipIndex,
    piece: &[u8],
    before: usize,
    d: u32,
    found: &mut Vec<Word>,
) -> Result<(), NoMemory>
    requires tips { IsTipIndex tips.now }
    requires split { before < length piece.now }
    requires room { before + d ≤ 64 }
    ensures { let b = tips.now.basis.now in OnOk result (found.new.items ≡ found.old.items
        ++ ends_of b.weights b.elements piece.now before d) }
{
    let shared = &piece[before..];
    let (first, end) = tips.basis.of_degree(d);
    for place in first_place(tips.basis, first, end, shared)..end {
        let tip = lead_at(tips.basis, place);
        if !occurs_at(shared, tip, 0) {
            return Ok(());
        }
        push_end(alloc, tips, piece, &tip[shared.len()..], found)?;
    }
    Ok(())
}

/// Appends a piece, unless a tip stands in the two up to the last letter.
fn push_end(
    alloc: Global,
    tips: &TipIndex,
    piece: &[u8],
    next: &[u8],
    found: &mut Vec<Word>,
) -> Result<(), NoMemory>
    requires tips { IsTipIndex tips.now }
    requires small { length piece.now + (length next.now - 1) ≤ 64 }
    ensures { let b = tips.now.basis.now in OnOk result (found.new.items ≡ found.old.items
        ++ unless_stands (leads_of b.elements) piece.now next.now) }
{
    let both = Word::joined(alloc, piece, &next[..next.len().saturating_sub(1)])?;
    match tips.index.first_reducer(both.letters()) {
        Some(_) => Ok(()),
        None => push_word(alloc, next, found),
    }
}

pub(crate) fn push_word(alloc: Global, word: &[u8], found: &mut Vec<Word>) -> Result<(), NoMemory>
    ensures { OnOk result (found.new.items ≡ found.old.items ++ word.now ∷ []) }
{
    let word = Word::from_letters(alloc, word)?;
    found.push(word)?;
    Ok(())
}

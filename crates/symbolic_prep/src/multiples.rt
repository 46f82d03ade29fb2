ghost use Rattle.std.specs.Prelude.{◌≡◌, ◌+◌, ◌^◌, ◌<◌, ◌≤◌, ◌++◌, All, IfOk, OnOk, drop, length, map};
ghost use Rattle.std.specs.Prelude.{[], slice_index_or};
ghost use Rattle.std.specs.List.{AllZip};
ghost use Rattle.symbolic_prep.specs.Packing.{HasDigits, IsPacking};
ghost use Rattle.symbolic_prep.specs.PackedWords.{ArePackedWithin, HasMultiple, IsPackedAs};
ghost use Rattle.symbolic_prep.specs.PackedWords.{IsPackedWord, first_len, letters_in};

use crate::packing::{PackedWord, Packing, joined, pack};
use free_poly::Term;
use ideal_laws::Basis;
use std::alloc::Global;
use words::NoMemory;

/// The words of the elements of a basis, packed, a list for each.
pub(crate) fn packed_basis(
    alloc: Global,
    basis: &Basis,
    packing: Packing,
) -> Result<Vec<Vec<PackedWord>>, NoMemory>
    requires packing { IsPacking packing.bits packing.room }
    requires letters { length basis.now.weights < 2 ^ packing.bits }
    ensures { IfOk result (λ lists. AllZip (ArePackedWithin packing.bits packing.room) basis.now.elements
        (map (λ list. list.items) lists.items)) }
{
    let _done = basis.done();
    let count = basis.len();
    let mut lists = Vec::with_capacity(alloc, count as usize)?;
    for place in 0..count {
        let list = packed_terms(alloc, packing, basis.element(place).terms())?;
        lists.push(list)?;
    }
    Ok(lists)
}

/// The words of some terms, packed. One that has no room, as an element of a higher degree may have, is left out.
pub(crate) fn packed_terms(
    alloc: Global,
    packing: Packing,
    terms: &[Term],
) -> Result<Vec<PackedWord>, NoMemory>
    requires packing { IsPacking packing.bits packing.room }
    requires over { All (λ t. HasDigits packing.bits t.word) terms.now }
    ensures { IfOk result (λ list. ArePackedWithin packing.bits packing.room terms.now list.items) }
{
    let mut list = Vec::with_capacity(alloc, terms.len())?;
    for term in terms {
        let letters = term.word.letters();
        if letters.len() <= packing.room as usize {
            list.push(packed_word(packing, letters))?;
        }
    }
    Ok(list)
}

fn packed_word(packing: Packing, letters: &[u8]) -> PackedWord
    requires packing { IsPacking packing.bits packing.room }
    requires over { HasDigits packing.bits letters.now }
    requires fits { length letters.now ≤ packing.room }
    ensures { IsPackedAs packing.bits packing.room letters.now result }
{
    PackedWord {
        key: pack(packing, letters),
        len: letters.len() as u32,
    }
}

/// The list of an element.
pub(crate) fn list_at(lists: &[Vec<PackedWord>], place: u32) -> &[PackedWord]
    requires { place < length lists.now }
    ensures { result.now ≡ slice_index_or (map (λ list. list.items) lists.now) place [] }
{
    lists[place as usize].as_slice()
}

/// How many letters the first word has.
pub(crate) fn first_len_of(words: &[PackedWord]) -> u32
    ensures { result ≡ first_len words.now }
{
    match words.first() {
        Some(word) => word.len,
        None => 0,
    }
}

/// The words behind the first one.
pub(crate) fn behind_first(words: &[PackedWord]) -> &[PackedWord]
    ensures { result.now ≡ drop 1 words.now }
{
    if words.is_empty() {
        return words;
    }
    &words[1..]
}

/// Adds the words with one word before and one behind each.
pub(crate) fn push_multiple(
    packing: Packing,
    before: PackedWord,
    words: &[PackedWord],
    rest: PackedWord,
    multiple: &mut Vec<PackedWord>,
) -> Result<(), NoMemory>
    requires packing { IsPacking packing.bits packing.room }
    requires before { IsPackedWord packing.bits packing.room before }
    requires words { All (IsPackedWord packing.bits packing.room) words.now }
    requires rest { IsPackedWord packing.bits packing.room rest }
    requires fits { All (λ p. before.len + p.len + rest.len ≤ packing.room) words.now }
    requires each { All (IsPackedWord packing.bits packing.room) multiple.old.items }
    ensures each { OnOk result (All (IsPackedWord packing.bits packing.room) multiple.new.items) }
    ensures multiple { OnOk result (HasMultiple packing.bits packing.room
        (letters_in packing.bits packing.room before) words.now (letters_in packing.bits packing.room rest)
        multiple.old.items multiple.new.items) }
{
    for word in words {
        multiple.push(joined(packing, before, *word, rest))?;
    }
    Ok(())
}

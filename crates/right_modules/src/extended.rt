ghost use Rattle.std.specs.Prelude.{◌≡◌, ◌-◌, ◌++◌, ◌<◌, ◌≤◌, ◌∷◌, List, [], ℕ, All, IfOk, IsErrOf, OnOk, length};
ghost use Rattle.std.specs.Prelude.{slice_index_or};
ghost use Rattle.right_modules.specs.Extended.{AreHeld, AreNormal, ending, extended, stands};

use lead_index::LeadIndex;
use normal_words::{NormalFault, push_unless};
use std::alloc::Global;
use words::{Alphabet, Items, NoMemory, Word};

/// The normal module words of degree d, from those of the last 8 degrees before it, the last one first. Each is a
/// generator, or one of a lower degree with a free letter behind it. More than `most` are refused before they are all
/// listed.
pub(crate) fn words_of(
    alloc: Global,
    alphabet: &Alphabet,
    free: u32,
    held: &[Items<Word>],
    d: u32,
    index: &LeadIndex,
    most: u32,
) -> Result<Vec<Word>, NormalFault>
    requires held { AreHeld alphabet.now.weights free index.now d held.now }
    requires room { d ≤ 64 }
    requires letters { free ≤ length alphabet.now.weights }

    ensures words { IfOk result (λ words. AreNormal alphabet.now.weights free index.now d words.items) }
    ensures within { IfOk result (λ words. length words.items ≤ most) }

    ensures many { IsErrOf result NormalFault.TooMany →
        (words : List (List ℕ)) × AreNormal alphabet.now.weights free index.now d words × (most < length words) }
{
    let letters = alphabet.len();
    let mut words = Vec::new(alloc);
    for letter in 0..letters {
        push_ending(
            alloc,
            alphabet,
            free,
            held,
            d,
            index,
            most,
            letter as u8,
            &mut words,
        )?;
    }
    Ok(words)
}

/// Appends the normal module words of degree d that end with the letter.
fn push_ending(
    alloc: Global,
    alphabet: &Alphabet,
    free: u32,
    held: &[Items<Word>],
    d: u32,
    index: &LeadIndex,
    most: u32,
    letter: u8,
    words: &mut Vec<Word>,
) -> Result<(), NormalFault>
    requires letter { letter < length alphabet.now.weights }
    requires room { All (All (λ v. length v < 64)) held.now }
    requires few { length words.old.items ≤ most }

    ensures words { OnOk result (words.new.items ≡ words.old.items
        ++ ending alphabet.now.weights free index.now d held.now letter) }
    ensures within { OnOk result (length words.new.items ≤ most) }
    ensures many { IsErrOf result NormalFault.TooMany →
        most < length (words.old.items ++ ending alphabet.now.weights free index.now d held.now letter) }
{
    let weight = alphabet.weight(letter);
    if u32::from(letter) < free {
        return push_extended(alloc, fronts_of(held, weight), letter, index, most, words);
    }
    if u32::from(weight) != d {
        return Ok(());
    }
    push_unless(alloc, stands(index, &[letter]), &[letter], most, words)
}

/// The words that a letter of this weight may follow.
fn fronts_of(held: &[Items<Word>], weight: u8) -> &[Word]
    requires { 0 < weight }
    ensures { result.now ≡ slice_index_or held.now (weight - 1) [] }
{
    match held.get(weight as usize - 1) {
        Some(words) => words.as_slice(),
        None => &[],
    }
}

/// Appends each of these words with the letter behind it, but for those in which a word of the index stands.
fn push_extended(
    alloc: Global,
    fronts: &[Word],
    letter: u8,
    index: &LeadIndex,
    most: u32,
    words: &mut Vec<Word>,
) -> Result<(), NormalFault>
    requires room { All (λ v. length v < 64) fronts.now }
    requires few { length words.old.items ≤ most }

    ensures block { OnOk result (words.new.items ≡ words.old.items ++ extended index.now letter fronts.now) }
    ensures within { OnOk result (length words.new.items ≤ most) }
    ensures many { IsErrOf result NormalFault.TooMany →
        most < length (words.old.items ++ extended index.now letter fronts.now) }
{
    let mut letters = Vec::new(alloc);
    for front in fronts {
        spell(&mut letters, front.letters(), letter)?;
        let met = stands(index, letters.as_slice());
        push_unless(alloc, met, letters.as_slice(), most, words)?;
    }
    Ok(())
}

/// Writes a word and a letter over what stood there.
fn spell(letters: &mut Vec<u8>, front: &[u8], letter: u8) -> Result<(), NoMemory>
    ensures { OnOk result (letters.new.items ≡ front.now ++ letter ∷ []) }
{
    letters.clear();
    letters.extend_from_slice(front)?;
    letters.push(letter)?;
    Ok(())
}

/// Whether a word of the index stands in the word.
fn stands(index: &LeadIndex, letters: &[u8]) -> bool
    requires { length letters.now ≤ 64 }
    ensures { result ≡ stands index.now letters.now }
{
    index.first_reducer(letters).is_some()
}

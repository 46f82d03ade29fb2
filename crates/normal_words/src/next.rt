ghost use Rattle.std.specs.Prelude.{◌≡◌, ◌+◌, ◌++◌, ◌<◌, ◌≤◌, ◌∷◌, List, [], ℕ, All, IfOk, IsErrOf, OnOk, length, min};
ghost use Rattle.normal_words.specs.Normal.{AreBefore, AreNormal, next_of};
ghost use Rattle.normal_words.specs.Block.{begins, block, block_at, unless};

use crate::normal::NormalWords;
use lead_index::LeadIndex;
use std::alloc::{AllocError, Global};
use words::{Alphabet, NoMemory, Word};

/// Why the normal words of a degree are not listed.
#[derive(Debug, Drop)]
pub enum NormalFault {
    TooMany,
    NoMemory,
}

impl From<AllocError> for NormalFault {
    ghost use Rattle.normal_words.specs.declared.next.NormalFault.TheVariants.{NoMemory};

    ghost from_gives = { λ _ fault. fault ≡ NoMemory };

    fn from(_error: AllocError) -> NormalFault {
        NormalFault::NoMemory
    }
}

/// The normal words of the degree that follows those before, of which at most the last 8 are looked at. More than
/// `most` are refused before they are all listed.
pub fn next_degree(
    alloc: Global,
    alphabet: &Alphabet,
    before: &[NormalWords],
    index: &LeadIndex,
    most: u32,
) -> Result<NormalWords, NormalFault>
    requires before { AreBefore alphabet.now.weights index.now before.now }
    requires room { next_of before.now ≤ 64 }
    requires enough { min 8 (next_of before.now) ≤ length before.now }

    ensures degree { IfOk result (λ n. n.degree ≡ next_of before.now) }
    ensures words { IfOk result (λ n. AreNormal alphabet.now.weights index.now (next_of before.now) n.words) }
    ensures within { IfOk result (λ n. length n.words ≤ most) }

    ensures many { IsErrOf result NormalFault.TooMany →
        (words : List (List ℕ)) × AreNormal alphabet.now.weights index.now (next_of before.now) words
        × (most < length words) }
{
    let count = before.len();
    let letters = alphabet.len();
    let last = before[count - 1].degree();
    let mut words = Vec::new(alloc);
    for letter in 0..letters {
        let weight = alphabet.weight(letter as u8);
        push_letter(alloc, letter as u8, weight, before, index, most, &mut words)?;
    }
    Ok(NormalWords::of(last + 1, words))
}

/// Appends the normal words that begin with a letter of this weight.
fn push_letter(
    alloc: Global,
    letter: u8,
    weight: u8,
    before: &[NormalWords],
    index: &LeadIndex,
    most: u32,
    words: &mut Vec<Word>,
) -> Result<(), NormalFault>
    requires some { 0 < weight }
    requires room { All (λ n. All (λ v. length v < 64) n.words) before.now }
    requires few { length words.old.items ≤ most }

    ensures block { OnOk result (words.new.items ≡ words.old.items ++ block_at index.now before.now letter weight) }
    ensures within { OnOk result (length words.new.items ≤ most) }
    ensures many { IsErrOf result NormalFault.TooMany →
        most < length (words.old.items ++ block_at index.now before.now letter weight) }
{
    if weight as usize > before.len() {
        return Ok(());
    }
    let tails = before[before.len() - weight as usize].words();
    push_block(alloc, letter, tails, index, most, words)
}

/// Appends the words of the letter and one of these tails, but for those that begin with a word of the index.
fn push_block(
    alloc: Global,
    letter: u8,
    tails: &[Word],
    index: &LeadIndex,
    most: u32,
    words: &mut Vec<Word>,
) -> Result<(), NormalFault>
    requires room { All (λ v. length v < 64) tails.now }
    requires few { length words.old.items ≤ most }

    ensures block { OnOk result (words.new.items ≡ words.old.items ++ block index.now letter tails.now) }
    ensures within { OnOk result (length words.new.items ≤ most) }
    ensures many { IsErrOf result NormalFault.TooMany →
        most < length (words.old.items ++ block index.now letter tails.now) }
{
    let mut letters = Vec::new(alloc);
    for tail in tails {
        spell(&mut letters, letter, tail.letters())?;
        let begun = begins(index, letters.as_slice());
        push_unless(alloc, begun, letters.as_slice(), most, words)?;
    }
    Ok(())
}

/// Writes a letter and a word over what stood there.
fn spell(letters: &mut Vec<u8>, letter: u8, tail: &[u8]) -> Result<(), NoMemory>
    ensures { OnOk result (letters.new.items ≡ letter ∷ tail.now) }
{
    letters.clear();
    letters.push(letter)?;
    letters.extend_from_slice(tail)?;
    Ok(())
}

/// Whether the word begins with a word of the index.
fn begins(index: &LeadIndex, letters: &[u8]) -> bool
    requires { length letters.now ≤ 64 }
    ensures { result ≡ begins index.now letters.now }
{
    index.starts(letters, 0).is_some()
}

/// Appends a word to at most `most` words, unless it is left out, or refuses the one that is too many.
pub fn push_unless(
    alloc: Global,
    left_out: bool,
    letters: &[u8],
    most: u32,
    words: &mut Vec<Word>,
) -> Result<(), NormalFault>
    requires few { length words.old.items ≤ most }

    ensures word { OnOk result (words.new.items ≡ words.old.items ++ unless left_out letters.now) }
    ensures within { OnOk result (length words.new.items ≤ most) }
    ensures many { IsErrOf result NormalFault.TooMany →
        most < length (words.old.items ++ unless left_out letters.now) }
{
    if left_out {
        return Ok(());
    }
    if words.len() >= most as usize {
        return Err(NormalFault::TooMany);
    }
    keep(alloc, letters, words)?;
    Ok(())
}

fn keep(alloc: Global, letters: &[u8], words: &mut Vec<Word>) -> Result<(), NoMemory>
    ensures { OnOk result (words.new.items ≡ words.old.items ++ letters.now ∷ []) }
{
    let word = Word::from_letters(alloc, letters)?;
    words.push(word)?;
    Ok(())
}

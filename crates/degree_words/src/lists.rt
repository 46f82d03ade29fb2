ghost use Rattle.std.specs.Prelude.{◌≡◌, ◌+◌, ◌++◌, ◌<◌, ◌≤◌, ℕ, map, length, IfOk, OnOk, [], ◌∷◌};
ghost use Rattle.std.specs.List.{flat_map, range_with_len};
ghost use Rattle.words.specs.Words.{with_letter};
ghost use Rattle.degree_words.specs.Lists.{AreCounts, AreLists, list_at};

use std::alloc::Global;
use words::{Alphabet, Items, NoMemory, Word};

/// The words of each degree up to d that is of use: those of a degree with words that fill it up to d.
pub fn lists_of(
    alloc: Global,
    alphabet: &Alphabet,
    counts: &[u64; 65],
    d: u32,
) -> Result<Vec<Items<Word>>, NoMemory>
    requires small { d ≤ 64 }
    requires counts { AreCounts alphabet.now.weights counts.now (d + 1) }
    ensures { IfOk result (λ lists. AreLists alphabet.now.weights d lists.items (d + 1)) }
{
    let _letters = alphabet.len();
    let mut lists = Vec::with_capacity(alloc, d as usize + 1)?;
    for k in 0..d + 1 {
        let words = if counts[(d - k) as usize] == 0 {
            Vec::new(alloc)
        } else if k == 0 {
            empty_word(alloc)?
        } else {
            list_of(alloc, alphabet, lists.as_slice(), k)?
        };
        lists.push(Items::from_vec(words))?;
    }
    Ok(lists)
}

/// The words of degree 0.
fn empty_word(alloc: Global) -> Result<Vec<Word>, NoMemory>
    ensures { IfOk result (λ v. v.items ≡ [] ∷ []) }
{
    let mut words = Vec::new(alloc);
    words.push(Word::from_letters(alloc, &[])?)?;
    Ok(words)
}

/// The words of a degree by their first letter, from those of the degrees below.
fn list_of(
    alloc: Global,
    alphabet: &Alphabet,
    lists: &[Items<Word>],
    k: u32,
) -> Result<Vec<Word>, NoMemory>
    requires some { 0 < k }
    requires below { length lists.now ≡ k }
    ensures { IfOk result (λ v. v.items ≡ flat_map (with_letter alphabet.now.weights (list_at lists.now) k)
        (range_with_len 0 (length alphabet.now.weights))) }
{
    let mut words = Vec::new(alloc);
    for letter in 0..alphabet.len() {
        let letter = letter as u8;
        let weight = u32::from(alphabet.weight(letter));
        if weight <= k {
            let tails = lists[(k - weight) as usize].as_slice();
            push_words(alloc, letter, tails, &mut words)?;
        }
    }
    Ok(words)
}

/// Appends the letter before each of the words.
fn push_words(
    alloc: Global,
    letter: u8,
    tails: &[Word],
    words: &mut Vec<Word>,
) -> Result<(), NoMemory>
    ensures { OnOk result (words.new.items ≡ words.old.items ++ map (λ w. letter ∷ w) tails.now) }
{
    for tail in tails {
        let word = Word::joined(alloc, &[letter], tail.letters())?;
        words.push(word)?;
    }
    Ok(())
}

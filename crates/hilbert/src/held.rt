ghost use Rattle.std.specs.Prelude.{◌≡◌, ◌≢◌, ◌+◌, ◌-◌, ◌++◌, ◌∷◌, ◌<◌, ◌≤◌, List, [], ℕ, All, IfOk, IsErrOf, OnOk};
ghost use Rattle.std.specs.Prelude.{drop, length};
ghost use Rattle.normal_words.specs.Normal.{AreNormal, next_of};
ghost use Rattle.hilbert.specs.Series.{AreHeld};

use lead_index::LeadIndex;
use normal_words::{NormalFault, NormalWords, next_degree};
use std::alloc::Global;
use words::{Alphabet, NoMemory};

/// The normal words of the degree that follows those held, which is 0 where none is held.
pub(crate) fn words_after(
    alloc: Global,
    alphabet: &Alphabet,
    held: &[NormalWords],
    index: &LeadIndex,
    most: u32,
) -> Result<NormalWords, NormalFault>
    requires some { All (λ l. l.word ≢ []) index.now }
    requires held { AreHeld alphabet.now.weights index.now held.now }
    requires room { next_of held.now ≤ 64 }

    ensures degree { IfOk result (λ n. n.degree ≡ next_of held.now) }
    ensures words { IfOk result (λ n. AreNormal alphabet.now.weights index.now (next_of held.now) n.words) }
    ensures within { IfOk result (λ n. length n.words ≤ most) }

    ensures many { IsErrOf result NormalFault.TooMany →
        (words : List (List ℕ)) × AreNormal alphabet.now.weights index.now (next_of held.now) words
        × (most < length words) }
{
    if !held.is_empty() {
        return next_degree(alloc, alphabet, held, index, most);
    }
    if most == 0 {
        return Err(NormalFault::TooMany);
    }
    Ok(NormalWords::start(alloc)?)
}

/// Appends a degree, and lets the first one go where there are more than 8.
pub(crate) fn hold(held: &mut Vec<NormalWords>, words: NormalWords) -> Result<(), NoMemory>
    requires { length held.old.items ≤ 8 }
    ensures last { OnOk result (held.new.items ≡ drop (length held.old.items + 1 - 8) (held.old.items ++ words ∷ [])) }
    ensures few { OnOk result (length held.new.items ≤ 8) }
{
    held.push(words)?;
    if held.len() > 8 {
        let _first = held.remove(0);
    }
    Ok(())
}

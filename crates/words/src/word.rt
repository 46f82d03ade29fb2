ghost use Rattle.std.specs.Prelude.{◌≡◌, ◌≤◌, ◌+◌, ◌++◌, ◌↔◌, IsTrue, IfOk, Some, nat_eq, refl, List};
ghost use Rattle.std.specs.Cmp.{partial_equiv_from_equiv};
ghost use Rattle.std.specs.Cmp.Lexicographic.{nat_list_eq_equiv, pointwise};
ghost use Rattle.words.specs.Words.{OccursAt};
ghost use Rattle.words.specs.Order.{letterwise_cmp};
ghost use Rattle.words.specs.OrderLaws.{letterwise_laws, letterwise_ties, letterwise_total};

use crate::order::letterwise;
use smallvec::SmallVec;
use std::alloc::{AllocError, Global};
use std::cmp::Ordering;
use std::marker::Model;

/// Want of memory.
pub type NoMemory = AllocError;

/// A word, which contracts see as the list of its letters. Up to sixteen letters lie in the value itself.
#[derive(Debug, Drop)]
pub struct Word {
    letters: SmallVec<u8, 16>,
}

impl Model for Word {
    ghost use Rattle.std.specs.Prelude.{List, ℕ};

    ghost Value = { List ℕ };

    ghost view = { λ w. w.letters.items };
}

impl Word {
    pub fn from_letters(alloc: Global, letters: &[u8]) -> Result<Word, NoMemory>
        ensures { IfOk result (λ w. w ≡ letters.now) }
    {
        Ok(Word {
            letters: SmallVec::from_slice(alloc, letters)?,
        })
    }

    pub fn joined(alloc: Global, left: &[u8], right: &[u8]) -> Result<Word, NoMemory>
        ensures { IfOk result (λ w. w ≡ left.now ++ right.now) }
    {
        let mut letters = SmallVec::from_slice(alloc, left)?;
        letters.extend_from_slice(right)?;
        Ok(Word { letters })
    }

    pub fn copy(&self, alloc: Global) -> Result<Word, NoMemory>
        ensures { IfOk result (λ w. w ≡ self.now) }
    {
        Word::from_letters(alloc, self.letters.as_slice())
    }

    pub fn letters(&self) -> &[u8]
        ensures { result.now ≡ self.now }
    {
        self.letters.as_slice()
    }
}

impl PartialEq for Word {
    ghost eq = { pointwise nat_eq };

    ghost laws = { partial_equiv_from_equiv nat_list_eq_equiv };

    fn eq(&self, other: &Word) -> bool {
        self.letters.as_slice() == other.letters.as_slice()
    }
}

impl Eq for Word {
    ghost laws = { nat_list_eq_equiv };
}

impl PartialOrd for Word {
    ghost partial_cmp = { λ a b. Some (letterwise_cmp a b) };

    ghost laws = { letterwise_laws };

    fn partial_cmp(&self, other: &Word) -> Option<Ordering> {
        Some(self.cmp(other))
    }
}

impl Ord for Word {
    ghost cmp = { letterwise_cmp };

    ghost total = { letterwise_total };

    ghost matches_partial_cmp = { λ a b. refl };

    ghost matches_eq = { letterwise_ties };

    fn cmp(&self, other: &Word) -> Ordering {
        letterwise(self.letters(), other.letters())
    }
}

/// Whether the factor stands in the word from this place.
pub fn occurs_at(factor: &[u8], word: &[u8], at: usize) -> bool
    ensures { IsTrue result ↔ OccursAt factor.now word.now at }
{
    if at > word.len() || factor.len() > word.len() - at {
        return false;
    }
    &word[at..at + factor.len()] == factor
}

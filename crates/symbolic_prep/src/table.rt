ghost use Rattle.std.specs.Prelude.{◌≡◌, ◌≢◌, ◌+◌, ◌<◌, ◌≤◌, ◌∷◌, [], AllPairs, IfOk, OnOk, Some};
ghost use Rattle.std.specs.Prelude.{length, slice_get, slice_index_or};
ghost use Rattle.symbolic_prep.specs.Packing.{IsPacking};
ghost use Rattle.symbolic_prep.specs.PackedWords.{IsPackedAs, IsPackedWord, letters_in};
ghost use Rattle.symbolic_prep.specs.Numbers.{IsGrown};
ghost use Rattle.symbolic_prep.specs.Orders.{HaveOneDegree, IsOrder};
ghost use Rattle.words.specs.Order.{IsLetterwiseGreater};

use crate::ordering::rising;
use crate::packed::PackedWords;
use crate::packing::{PackedWord, Packing, unpack};
use indexmap::IndexSet;
use std::alloc::Global;
use std::marker::Model;
use words::NoMemory;

/// A table of more words is no longer near the processor.
const CACHED: usize = 65_536;

/// Words by number, each once, in the order in which they came.
#[derive(Drop)]
pub(crate) struct WordTable {
    packing: Packing,
    keys: IndexSet<u64>,
}

impl Model for WordTable {
    ghost use Rattle.std.specs.Prelude.{◌^◌, map};
    ghost use Rattle.symbolic_prep.specs.Packing.{IsTable, Table, unpacked};

    ghost Value = { Table };

    ghost view = { λ t. record {
      bits = t.packing.bits;
      room = t.packing.room;
      words = map (unpacked (2 ^ t.packing.bits) t.packing.room) t.keys.keys;
    } };

    ghost invariant = { λ t. IsTable t.packing.bits t.packing.room t.keys.keys };
}

impl WordTable {
    pub(crate) fn new(alloc: Global, packing: Packing) -> WordTable
        requires { IsPacking packing.bits packing.room }
        ensures { result ≡ record { bits = packing.bits; room = packing.room; words = [] } }
    {
        WordTable {
            packing,
            keys: IndexSet::new(alloc),
        }
    }

    pub(crate) fn len(&self) -> usize
        ensures count { result ≡ length self.now.words }
        ensures apart { AllPairs (λ v w. v ≢ w) self.now.words }
        ensures packing { IsPacking self.now.bits self.now.room }
    {
        self.keys.len()
    }

    pub(crate) fn packing(&self) -> Packing
        ensures bits { result.bits ≡ self.now.bits }
        ensures room { result.room ≡ self.now.room }
        ensures packing { IsPacking self.now.bits self.now.room }
    {
        self.packing
    }

    /// The word of this number, whose letters fill a buffer.
    pub(crate) fn read(&self, number: usize, letters: &mut Vec<u8>) -> Result<PackedWord, NoMemory>
        requires { number < length self.now.words }
        ensures word { OnOk result (letters.new.items ≡ slice_index_or self.now.words number []) }
        ensures packed { IfOk result (IsPackedAs self.now.bits self.now.room letters.new.items) }
    {
        let key = self.keys.as_slice()[number];
        unpack(self.packing, key, letters)?;
        let len = letters.len() as u32;
        Ok(PackedWord { key, len })
    }

    /// The number of a word. A new word comes last.
    pub(crate) fn add(&mut self, word: PackedWord) -> Result<u32, NoMemory>
        requires few { length self.old.words < 4294967296 }
        requires word { IsPackedWord self.old.bits self.old.room word }
        ensures grown { OnOk result (IsGrown self.old.words self.new.words
            (letters_in self.old.bits self.old.room word ∷ [])) }
        ensures number { IfOk result (λ n. slice_get self.new.words n ≡
            Some (letters_in self.old.bits self.old.room word)) }
        ensures few { OnOk result (length self.new.words ≤ length self.old.words + 1) }
        ensures bits { self.new.bits ≡ self.old.bits }
        ensures room { self.new.room ≡ self.old.room }
    {
        let (number, _) = self.keys.insert_full(word.key)?;
        Ok(number as u32)
    }

    /// Makes room for those of the words that are new, where the table is large. Each is looked up, and none waits for
    /// what becomes of the one before, so that their places come from memory side by side.
    pub(crate) fn make_room(&mut self, words: &[PackedWord]) -> Result<(), NoMemory>
        ensures { self.new ≡ self.old }
    {
        if self.keys.len() <= CACHED {
            return Ok(());
        }
        let new = self.new_among(words);
        self.keys.reserve(new)
    }

    /// How many of the words are new, where each is another.
    fn new_among(&self, words: &[PackedWord]) -> usize {
        let mut new = 0usize;
        for word in words {
            new = new.saturating_add(usize::from(!self.keys.contains(&word.key)));
        }
        new
    }

    /// The words by falling word, and the number of each.
    pub(crate) fn in_order(&self, alloc: Global) -> Result<(PackedWords, Vec<u32>), NoMemory>
        requires few { length self.now.words < 4294967296 }
        requires degree { HaveOneDegree self.now.words }
        ensures order { IfOk result (λ parts. IsOrder self.now.words parts.1.items parts.0) }
        ensures falling { IfOk result (λ parts. AllPairs IsLetterwiseGreater parts.0) }
    {
        let (keys, order) = rising(alloc, self.keys.as_slice())?;
        Ok((PackedWords::of(self.packing, keys), order))
    }
}

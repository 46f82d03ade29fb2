ghost use Rattle.std.specs.Prelude.{◌≡◌, ◌<◌, ◌^◌, AllPairs, Contains, IfOk, Some, [], length, map, slice_get};
ghost use Rattle.std.specs.Prelude.{slice_index_or};
ghost use Rattle.words.specs.Order.{IsLetterwiseGreater};
ghost use Rattle.symbolic_prep.specs.Orders.{ArePackedWords};
ghost use Rattle.symbolic_prep.specs.Packing.{unpacked};

use crate::packing::{Packing, pack, unpack};
use std::alloc::Global;
use std::marker::Model;
use words::{NoMemory, Word};

/// Falling words, each packed.
#[derive(Debug, Drop)]
pub(crate) struct PackedWords {
    packing: Packing,
    keys: Vec<u64>,
}

impl Model for PackedWords {
    ghost use Rattle.std.specs.Prelude.{◌^◌, List, ℕ, map};
    ghost use Rattle.symbolic_prep.specs.Orders.{ArePackedWords};
    ghost use Rattle.symbolic_prep.specs.Packing.{unpacked};

    ghost Value = { List (List ℕ) };

    ghost view = { λ p. map (unpacked (2 ^ p.packing.bits) p.packing.room) p.keys.items };

    ghost invariant = { λ p. ArePackedWords p.packing.bits p.packing.room p.keys.items };
}

impl PackedWords {
    /// The words with these keys.
    pub(crate) fn of(packing: Packing, keys: Vec<u64>) -> PackedWords
        requires { ArePackedWords packing.bits packing.room keys.items }
        ensures { result ≡ map (unpacked (2 ^ packing.bits) packing.room) keys.items }
    {
        PackedWords { packing, keys }
    }

    pub(crate) fn len(&self) -> usize
        ensures count { result ≡ length self.now }
        ensures falling { AllPairs IsLetterwiseGreater self.now }
    {
        self.keys.len()
    }

    /// The column of a word that is one.
    pub(crate) fn column_of(&self, word: &[u8]) -> usize
        requires { Contains self.now word.now }
        ensures { slice_get self.now result ≡ Some word.now }
    {
        let key = pack(self.packing, word);
        match self.keys.as_slice().binary_search(&key) {
            Ok(at) => at,
            Err(_) => unreachable!(),
        }
    }

    /// The word of a column.
    pub(crate) fn word(&self, alloc: Global, column: usize) -> Result<Word, NoMemory>
        requires { column < length self.now }
        ensures { IfOk result (λ word. word ≡ slice_index_or self.now column []) }
    {
        let mut letters = Vec::new(alloc);
        unpack(self.packing, self.keys[column], &mut letters)?;
        Word::from_letters(alloc, letters.as_slice())
    }
}

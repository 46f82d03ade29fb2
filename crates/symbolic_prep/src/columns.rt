ghost use Rattle.std.specs.Prelude.{◌≡◌, ◌<◌, AllPairs, Contains, IfOk, Some, [], length, slice_get, slice_index_or};
ghost use Rattle.words.specs.Order.{IsLetterwiseGreater, letterwise_cmp};
ghost use Rattle.symbolic_prep.specs.Columns.{words_in};

use crate::packed::PackedWords;
use std::alloc::Global;
use std::cmp::Ordering;
use words::{NoMemory, Word, letterwise};

/// The words of the columns, which fall: packed, or, where they are too long for that, as they are.
#[derive(Debug, Drop)]
pub(crate) enum ColumnWords {
    Packed(PackedWords),
    Plain(Vec<Word>),
}

impl ColumnWords {
    /// The number of columns.
    pub(crate) fn len(&self) -> usize
        ensures { result ≡ length (words_in self.now) }
    {
        match self {
            ColumnWords::Packed(words) => words.len(),
            ColumnWords::Plain(words) => words.len(),
        }
    }

    /// The column of a word that is one.
    pub(crate) fn column_of(&self, word: &[u8]) -> usize
        requires falling { AllPairs IsLetterwiseGreater (words_in self.now) }
        requires there { Contains (words_in self.now) word.now }
        ensures { slice_get (words_in self.now) result ≡ Some word.now }
    {
        match self {
            ColumnWords::Packed(words) => words.column_of(word),
            ColumnWords::Plain(words) => place_of(words.as_slice(), word),
        }
    }

    /// The word of a column.
    pub(crate) fn word(&self, alloc: Global, column: usize) -> Result<Word, NoMemory>
        requires { column < length (words_in self.now) }
        ensures { IfOk result (λ word. word ≡ slice_index_or (words_in self.now) column []) }
    {
        match self {
            ColumnWords::Packed(words) => words.word(alloc, column),
            ColumnWords::Plain(words) => words[column].copy(alloc),
        }
    }
}

/// The place of a word among falling words.
pub(crate) fn place_of(words: &[Word], word: &[u8]) -> usize
    requires falling { AllPairs IsLetterwiseGreater words.now }
    requires there { Contains words.now word.now }
    ensures { slice_get words.now result ≡ Some word.now }
{
    let standing = |other: &Word| -> Ordering
        ensures { result ≡ letterwise_cmp word.entry.now other.now }
    { letterwise(word, other.letters()) };
    match words.binary_search_by(standing) {
        Ok(at) => at,
        Err(_) => unreachable!(),
    }
}

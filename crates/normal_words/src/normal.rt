ghost use Rattle.std.specs.Prelude.{◌≡◌, ◌∷◌, [], IfOk};
ghost use Rattle.normal_words.specs.Normal.{WordsOfDegree};

use std::alloc::Global;
use std::marker::Model;
use words::{NoMemory, Word};

/// A degree with some of its words, falling.
#[derive(Debug, Drop)]
pub struct NormalWords {
    degree: u32,
    words: Vec<Word>,
}

impl Model for NormalWords {
    ghost use Rattle.normal_words.specs.Normal.{WordsOfDegree};

    ghost Value = { WordsOfDegree };

    ghost view = { λ n. record { degree = n.degree; words = n.words.items } };
}

impl NormalWords {
    /// Degree 0, which has the empty word.
    pub fn start(alloc: Global) -> Result<NormalWords, NoMemory>
        ensures degree { IfOk result (λ n. n.degree ≡ 0) }
        ensures words { IfOk result (λ n. n.words ≡ [] ∷ []) }
    {
        let word = Word::from_letters(alloc, &[])?;
        Ok(NormalWords {
            degree: 0,
            words: vec![in alloc; word]?,
        })
    }

    pub fn degree(&self) -> u32
        ensures { result ≡ self.now.degree }
    {
        self.degree
    }

    pub fn words(&self) -> &[Word]
        ensures { result.now ≡ self.now.words }
    {
        self.words.as_slice()
    }

    pub(crate) fn of(degree: u32, words: Vec<Word>) -> NormalWords
        ensures degree { result.degree ≡ degree }
        ensures words { result.words ≡ words.items }
    {
        NormalWords { degree, words }
    }
}

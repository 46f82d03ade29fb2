ghost use Rattle.std.specs.Prelude.{◌≡◌, ◌≤◌, length, min};
ghost use Rattle.words.specs.Words.{IsOver, degree_of};

use words::Alphabet;

/// The degree of a word, where it is at most this number, and else this number.
pub fn degree_within(alphabet: &Alphabet, word: &[u8], most: u32) -> u32
    requires small { most ≤ 65 }
    requires letters { IsOver (length alphabet.now.weights) word.now }
    ensures { result ≡ min (degree_of alphabet.now.weights word.now) most }
{
    let mut degree = 0;
    for letter in word {
        degree = most.min(degree + u32::from(alphabet.weight(*letter)));
    }
    degree
}

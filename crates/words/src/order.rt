ghost use Rattle.std.specs.Prelude.{◌≡◌, List, ℕ, length};
ghost use Rattle.std.specs.Cmp.{IsTotalOrder};
ghost use Rattle.words.specs.Order.{AgreesInDegree, ComparesLetters, ComparesWords, HasNoPrefixes};
ghost use Rattle.words.specs.Order.{IsKeptByProducts, ListsByLetters, ListsFalling, ListsWords, TiesEqualWords};
ghost use Rattle.words.specs.Order.{letterwise_cmp, word_cmp};
ghost use Rattle.words.specs.Words.{IsOver};

use crate::alphabet::{Alphabet, total_degree, word_degree};
use std::cmp::Ordering;

/// Compares two words letter by letter: the smaller letter number is the greater word, and else the longer one.
pub fn letterwise(a: &[u8], b: &[u8]) -> Ordering
    ensures { result ≡ letterwise_cmp a.now b.now }
{
    let shared = if a.len() < b.len() { a.len() } else { b.len() };
    b[..shared].cmp(&a[..shared]).then(a.len().cmp(&b.len()))
}

/// Compares two words by degree, and then letter by letter.
pub fn deglex(alphabet: &Alphabet, a: &[u8], b: &[u8]) -> Ordering
    requires first { IsOver (length alphabet.now.weights) a.now }
    requires second { IsOver (length alphabet.now.weights) b.now }
    ensures { result ≡ word_cmp alphabet.now.weights a.now b.now }
{
    let first = total_degree(alphabet, a);
    let second = total_degree(alphabet, b);
    first.cmp(&second).then(letterwise(a, b))
}

/// Compares two words by degree, and then letter by letter, by the weights alone.
pub fn compare_words(weights: &[u8], a: &[u8], b: &[u8]) -> Ordering
    ensures { result ≡ word_cmp weights.now a.now b.now }
{
    word_degree(weights, a)
        .cmp(&word_degree(weights, b))
        .then(letterwise(a, b))
}

/// The laws of the order: it is total, it is the order by degree and first difference, no word of a degree is a
/// prefix of another, and products keep the order. Letter by letter is the same on the words of a degree.
pub fn order_laws()
    ensures total { (weights : List ℕ) → IsTotalOrder (word_cmp weights) }
    ensures ties { TiesEqualWords }
    ensures meaning { ComparesWords }
    ensures prefixes { HasNoPrefixes }
    ensures products { IsKeptByProducts }
    ensures letters { ComparesLetters }
    ensures agrees { AgreesInDegree }
{}

/// The laws of the list of the words of a degree.
pub fn degree_laws()
    ensures words { ListsWords }
    ensures order { ListsFalling }
    ensures letters { ListsByLetters }
{}

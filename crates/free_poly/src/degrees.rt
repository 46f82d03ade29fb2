ghost use Rattle.std.specs.Prelude.{◌^◌, ◌<◌, All, MatchOption, length};
ghost use Rattle.words.specs.Words.{degree_of};
ghost use Rattle.free_poly.specs.Degrees.{IsGreatestDegree, IsNextDegree};
ghost use Rattle.free_poly.specs.Terms.{HasDegree, UsesLetters};

use crate::term::Term;
use words::{Alphabet, degree};

/// The greatest degree of the words, and 0 where there are none.
pub(crate) fn greatest_degree(alphabet: &Alphabet, terms: &[Term]) -> u64
    requires letters { UsesLetters (length alphabet.now.weights) terms.now }
    requires degrees { All (λ t. degree_of alphabet.now.weights t.word < 2 ^ 64) terms.now }
    ensures { IsGreatestDegree alphabet.now.weights terms.now result }
{
    let mut greatest = 0;
    for term in terms {
        greatest = greatest.max(degree(alphabet, term.word.letters()));
    }
    greatest
}

/// The greatest degree of the words other than this one.
pub(crate) fn next_degree(alphabet: &Alphabet, terms: &[Term], first: u64) -> Option<u64>
    requires letters { UsesLetters (length alphabet.now.weights) terms.now }
    requires degrees { All (λ t. degree_of alphabet.now.weights t.word < 2 ^ 64) terms.now }
    ensures { MatchOption result (HasDegree alphabet.now.weights first terms.now)
        (IsNextDegree alphabet.now.weights terms.now first) }
{
    let mut next = None;
    for term in terms {
        let found = degree(alphabet, term.word.letters());
        if found != first {
            next = Some(found.max(next.unwrap_or(0)));
        }
    }
    next
}

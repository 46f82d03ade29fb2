ghost use Rattle.std.specs.Prelude.{◌≡◌, ℕ, ◌<◌, ◌≤◌, ◌↔◌, IsTrue, length};
ghost use Rattle.words.specs.Words.{IsOver};
ghost use Rattle.ideal_laws.specs.Kept.{IsKept};
ghost use Rattle.overlaps.specs.Walk.{IsAbove, IsFalling, lead_word};

use ideal_laws::Basis;
use std::cmp::Ordering;
use words::letterwise;

/// The leading word of the element at this place of the basis.
pub fn lead_at(basis: &Basis, place: u32) -> &[u8]
    requires { place < length basis.now.elements }
    ensures kept { IsKept basis.now }
    ensures lead { result.now ≡ lead_word basis.now.elements place }
    ensures letters { IsOver (length basis.now.weights) result.now }
    ensures small { length result.now ≤ 64 }
{
    let _done = basis.done();
    match basis.element(place).lead() {
        Some(lead) => lead.letters(),
        None => &[],
    }
}

/// Among places with falling leading words, the first one whose leading word does not stand above those that begin
/// with the word: found by halving.
pub fn first_place(basis: &Basis, first: u32, end: u32, word: &[u8]) -> u32
    requires ordered { first ≤ end }
    requires within { end ≤ length basis.now.elements }
    requires falling { IsFalling basis.now.elements first end }
    ensures from { first ≤ result }
    ensures upto { result ≤ end }
    ensures above { (k : ℕ) → first ≤ k → k < result → IsAbove word.now (lead_word basis.now.elements k) }
    ensures others { (k : ℕ) → result ≤ k → k < end → IsAbove word.now (lead_word basis.now.elements k) → ⊥ }
{
    let mut low = first;
    let mut high = end;
    while low < high {
        let middle = low + (high - low) / 2;
        if is_above(lead_at(basis, middle), word) {
            low = middle + 1;
        } else {
            high = middle;
        }
    }
    low
}

/// Whether the first letters of a leading word, as many as the word has, are greater than the word.
fn is_above(lead: &[u8], word: &[u8]) -> bool
    ensures { IsTrue result ↔ IsAbove word.now lead.now }
{
    let begin = if lead.len() < word.len() {
        lead
    } else {
        &lead[..word.len()]
    };
    letterwise(begin, word) == Ordering::Greater
}

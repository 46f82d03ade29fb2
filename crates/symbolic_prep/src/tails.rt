ghost use Rattle.std.specs.Prelude.{◌≡◌, ◌+◌, ◌^◌, ◌<◌, ◌≤◌, All, IfOk, OnOk, length, map};
ghost use Rattle.std.specs.List.{AllZip};
ghost use Rattle.words.specs.Words.{IsOver, degree_of};
ghost use Rattle.free_poly.specs.Poly.{IsPolynomial};
ghost use Rattle.lead_index.specs.Leads.{IsIndexOf};
ghost use Rattle.symbolic_prep.specs.Numbers.{IsLonger};
ghost use Rattle.symbolic_prep.specs.Packing.{IsPacking};
ghost use Rattle.symbolic_prep.specs.PackedWords.{ArePackedWithin, IsPackedAs, IsPackedWord};
ghost use Rattle.symbolic_prep.specs.Tails.{AreTails, HasTail};

use crate::lists::{Span, place_behind};
use crate::multiples::{behind_first, first_len_of, list_at, push_multiple};
use crate::packing::{PackedWord, Packing, back, front};
use crate::table::WordTable;
use ideal_laws::Basis;
use lead_index::LeadIndex;
use words::NoMemory;

/// So many reducers are put together before their words are looked up.
const AT_ONCE: usize = 64;

/// Puts together the reducers of the words of a table from a number on, as many as go at once: the words of each but
/// for the leading one, and where these stand, if there is one. The letters are a buffer.
pub(crate) fn put_together(
    basis: &Basis,
    index: &LeadIndex,
    elements: &[Vec<PackedWord>],
    table: &WordTable,
    from: usize,
    d: u32,
    letters: &mut Vec<u8>,
    tails: &mut Vec<Option<Span>>,
    words: &mut Vec<PackedWord>,
) -> Result<(), NoMemory>
    requires form { All IsPolynomial basis.now.elements }
    requires index { IsIndexOf basis.now.elements index.now }
    requires elements { AllZip (ArePackedWithin table.now.bits table.now.room) basis.now.elements
        (map (λ list. list.items) elements.now) }
    requires small { d ≤ 64 }
    requires words { All (λ w. IsOver (length basis.now.weights) w × (degree_of basis.now.weights w ≡ d))
        table.now.words }
    requires room { d ≤ table.now.room }
    requires within { from < length table.now.words }
    ensures some { OnOk result (0 < length tails.new.items) }
    ensures tails { OnOk result (AreTails basis.now.elements table.now.bits table.now.room table.now.words
        from tails.new.items words.new.items) }
{
    let _done = basis.done();
    let count = (table.len() - from).min(AT_ONCE);
    let packing = table.packing();
    tails.clear();
    words.clear();
    for next in 0..count {
        let packed = table.read(from + next, letters)?;
        let word = letters.as_slice();
        let span = push_tail(basis, index, elements, packing, word, packed, words)?;
        tails.push(span)?;
    }
    Ok(())
}

/// Adds the words of the reducer of a packed word but for the leading one, if it has one.
fn push_tail(
    basis: &Basis,
    index: &LeadIndex,
    elements: &[Vec<PackedWord>],
    packing: Packing,
    word: &[u8],
    packed: PackedWord,
    words: &mut Vec<PackedWord>,
) -> Result<Option<Span>, NoMemory>
    requires form { All IsPolynomial basis.now.elements }
    requires index { IsIndexOf basis.now.elements index.now }
    requires elements { AllZip (ArePackedWithin packing.bits packing.room) basis.now.elements
        (map (λ list. list.items) elements.now) }
    requires packing { IsPacking packing.bits packing.room }
    requires small { length word.now ≤ 64 }
    requires letters { IsOver (length basis.now.weights) word.now }
    requires room { degree_of basis.now.weights word.now ≤ packing.room }
    requires packed { IsPackedAs packing.bits packing.room word.now packed }
    requires words { All (IsPackedWord packing.bits packing.room) words.old.items }
    ensures words { OnOk result (All (IsPackedWord packing.bits packing.room) words.new.items) }
    ensures longer { OnOk result (IsLonger words.old.items words.new.items) }
    ensures tail { IfOk result (HasTail basis.now.elements packing.bits packing.room words.new.items word.now) }
{
    let _done = basis.done();
    match index.first_reducer(word) {
        Some(place) => {
            let element = list_at(elements, place.element);
            let before = front(packing, packed, place.at);
            let rest = back(packing, packed, place.at + first_len_of(element));
            let start = place_behind(words.len())?;
            push_multiple(packing, before, behind_first(element), rest, words)?;
            let end = place_behind(words.len())?;
            Ok(Some(Span {
                start,
                end,
                element: place.element,
            }))
        }
        None => Ok(None),
    }
}

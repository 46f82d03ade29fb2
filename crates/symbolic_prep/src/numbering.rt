ghost use Rattle.std.specs.Prelude.{◌≡◌, ◌+◌, ◌^◌, ◌<◌, ◌≤◌, [], List, ℕ, All, Contains, IfOk, IsErrOf, OnOk, length};
ghost use Rattle.std.specs.Prelude.{slice_index_or};
ghost use Rattle.words.specs.Words.{IsOver, degree_of};
ghost use Rattle.free_poly.specs.declared.term.Term.{Term};
ghost use Rattle.free_poly.specs.Poly.{IsPolynomial};
ghost use Rattle.ideal_laws.specs.Closure.{IsInClosure};
ghost use Rattle.lead_index.specs.Leads.{IsIndex, IsIndexOf};
ghost use Rattle.symbolic_prep.specs.Numbers.{IsNumberWalk, IsReducedTo};
ghost use Rattle.symbolic_prep.specs.PackedWords.{IsPackedWord};
ghost use Rattle.symbolic_prep.specs.Tails.{HasTail};
ghost use Rattle.symbolic_prep.specs.Walk.{HasMore, HasMoreColumns};

use crate::closing::keeps;
use crate::lists::{Span, add_words, place_behind, push_number};
use crate::multiples::packed_basis;
use crate::packing::PackedWord;
use crate::pending::ColumnFault;
use crate::table::WordTable;
use crate::tails::put_together;
use crate::walk::counted;
use ideal_laws::Basis;
use lead_index::LeadIndex;
use std::alloc::Global;

/// The words of a closure by number, and where the numbers of each one's reducer stand.
#[derive(Drop)]
pub(crate) struct Numbered {
    pub(crate) table: WordTable,
    pub(crate) spans: Vec<Option<Span>>,
    pub(crate) numbers: Vec<u32>,
    pub(crate) entries: u64,
}

/// The closure of the words of a table. Each word is looked up once, when a reducer brings it.
pub(crate) fn walk_by_number(
    alloc: Global,
    basis: &Basis,
    index: &LeadIndex,
    table: WordTable,
    entries: u64,
    d: u32,
    most: usize,
    limit: u32,
) -> Result<Numbered, ColumnFault>
    requires form { All IsPolynomial basis.now.elements }
    requires index { IsIndexOf basis.now.elements index.now }
    requires small { d ≤ 64 }
    requires words { All (λ w. IsOver (length basis.now.weights) w × (degree_of basis.now.weights w ≡ d)) table.words }
    requires letters { length basis.now.weights < 2 ^ table.bits }
    requires room { d ≤ table.room }
    requires few { length table.words ≤ most }
    requires most { most < 4294967296 }
    requires entries { entries ≤ limit + 1 }

    ensures walked { IfOk result (λ n. IsNumberWalk basis.now.elements table.words n.table.words
        (length n.table.words) entries limit n.spans.items n.numbers.items n.entries) }
    ensures within { IfOk result (λ n. length n.table.words ≤ most) }
    ensures bits { IfOk result (λ n. n.table.bits ≡ table.bits) }
    ensures room { IfOk result (λ n. n.table.room ≡ table.room) }
    ensures many { IsErrOf result ColumnFault.TooMany → HasMoreColumns basis.now.elements table.words most }
{
    let _done = basis.done();
    let _len = table.len();
    keeps(index);
    let mut table = table;
    let mut entries = entries;
    let mut spans = Vec::new(alloc);
    let mut numbers = Vec::new(alloc);
    let elements = packed_basis(alloc, basis, table.packing())?;
    let mut letters = Vec::new(alloc);
    let mut tails = Vec::new(alloc);
    let mut words = Vec::new(alloc);
    let mut next = 0;
    while next < table.len() {
        put_together(
            basis,
            index,
            elements.as_slice(),
            &table,
            next,
            d,
            &mut letters,
            &mut tails,
            &mut words,
        )?;
        table.make_room(words.as_slice())?;
        for span in &tails {
            let (span, more) = push_reducer(
                basis,
                *span,
                words.as_slice(),
                next as u32,
                most,
                entries,
                limit,
                &mut table,
                &mut numbers,
            )?;
            entries = more;
            spans.push(span)?;
            next += 1;
        }
    }
    Ok(Numbered {
        table,
        spans,
        numbers,
        entries,
    })
}

/// Adds the words of the reducer of a word, if it has one.
fn push_reducer(
    basis: &Basis,
    tail: Option<Span>,
    tails: &[PackedWord],
    number: u32,
    most: usize,
    entries: u64,
    limit: u32,
    table: &mut WordTable,
    numbers: &mut Vec<u32>,
) -> Result<(Option<Span>, u64), ColumnFault>
    requires tail { HasTail basis.now.elements table.old.bits table.old.room tails.now
        (slice_index_or table.old.words number []) tail }
    requires tails { All (IsPackedWord table.old.bits table.old.room) tails.now }
    requires number { number < length table.old.words }
    requires few { length table.old.words ≤ most }
    requires most { most < 4294967296 }

    ensures reduced { IfOk result (λ r. IsReducedTo basis.now.elements (slice_index_or table.old.words number [])
        table.old.words table.new.words numbers.old.items numbers.new.items entries limit r.0 r.1) }
    ensures within { OnOk result (length table.new.words ≤ most) }
    ensures bits { OnOk result (table.new.bits ≡ table.old.bits) }
    ensures room { OnOk result (table.new.room ≡ table.old.room) }
    ensures many { IsErrOf result ColumnFault.TooMany → (given : List (List ℕ)) →
        ((w : List ℕ) → Contains table.old.words w → IsInClosure basis.now.elements given w) →
        HasMore most (IsInClosure basis.now.elements given) }
{
    let _len = table.len();
    match tail {
        Some(tail) => {
            let words = &tails[tail.start as usize..tail.end as usize];
            let entries = counted(entries, words.len() + 1, limit);
            let held = entries <= u64::from(limit);
            let start = place_behind(numbers.len())?;
            push_number(held, number, numbers)?;
            add_words(words, most, held, table, numbers)?;
            let end = place_behind(numbers.len())?;
            Ok((Some(Span { start, end, ..tail }), entries))
        }
        None => Ok((None, counted(entries, 0, limit))),
    }
}

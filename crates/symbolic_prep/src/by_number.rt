ghost use Rattle.std.specs.Prelude.{◌≡◌, ◌+◌, ◌^◌, ◌<◌, ◌≤◌, ◌↔◌, List, ℕ, All, Contains, IfOk, IsErrOf, IsTrue};
ghost use Rattle.std.specs.Prelude.{None, length, map, slice_index_or};
ghost use Rattle.std.specs.List.{AllZip};
ghost use Rattle.words.specs.Words.{IsOver, degree_of};
ghost use Rattle.free_poly.specs.declared.term.Term.{Term};
ghost use Rattle.ideal_laws.specs.Quantities.{words_of};
ghost use Rattle.symbolic_prep.specs.Closed.{AreRowsOf};
ghost use Rattle.symbolic_prep.specs.Columns.{IsListed, words_in};
ghost use Rattle.symbolic_prep.specs.Numbers.{IsNumberWalk, residues_of};
ghost use Rattle.symbolic_prep.specs.Orders.{HaveOneDegree, IsMoved, IsSpanIn, columns_at};
ghost use Rattle.symbolic_prep.specs.Packing.{HasDigits, IsPacking, IsPackingFor};
ghost use Rattle.symbolic_prep.specs.Walk.{HasMore, HasMoreColumns};

use crate::closing::keeps;
use crate::columns::ColumnWords;
use crate::lists::{Lists, Span, add_words};
use crate::multiples::packed_terms;
use crate::numbering::{Numbered, walk_by_number};
use crate::ordering::{columns_of, ordered, rename};
use crate::packing::Packing;
use crate::pending::ColumnFault;
use crate::residues::{ResidueLists, residues_of_basis};
use crate::table::WordTable;
use free_poly::Poly;
use ideal_laws::Basis;
use lead_index::LeadIndex;
use std::alloc::Global;
use words::NoMemory;

/// The columns of a closure, and how many entries rows and reducers have, where more than the limit are one more. The
/// reducers are listed where they do not pass it.
#[derive(Drop)]
pub(crate) struct ListedClosure {
    pub(crate) columns: ColumnWords,
    pub(crate) lists: Lists,
    pub(crate) entries: u64,
}

/// The closure of the words of the rows, by packed words.
pub(crate) fn closure_by_number(
    alloc: Global,
    basis: &Basis,
    index: &LeadIndex,
    rows: &[Poly],
    packing: Packing,
    entries: u64,
    d: u32,
    most: usize,
    limit: u32,
) -> Result<ListedClosure, ColumnFault>
    requires rows { AreRowsOf basis.now index.now rows.now d }
    requires packing { IsPackingFor (length basis.now.weights) d packing.bits packing.room }
    requires most { most < 4294967296 }
    requires entries { entries ≤ limit + 1 }

    ensures listed { IfOk result (IsListed basis.now.elements (words_of rows.now) entries limit) }
    ensures within { IfOk result (λ c. length (words_in c.columns) ≤ most) }
    ensures many { IsErrOf result ColumnFault.TooMany → HasMoreColumns basis.now.elements (words_of rows.now) most }
{
    let _done = basis.done();
    keeps(index);
    let table = table_of(alloc, rows, packing, most)?;
    let numbered = walk_by_number(alloc, basis, index, table, entries, d, most, limit)?;
    let residues = residues_of_basis(alloc, basis)?;
    Ok(in_order(alloc, numbered, residues, limit)?)
}

/// The words of the rows.
fn table_of(
    alloc: Global,
    rows: &[Poly],
    packing: Packing,
    most: usize,
) -> Result<WordTable, ColumnFault>
    requires packing { IsPacking packing.bits packing.room }
    requires over { All (All (λ t. HasDigits packing.bits t.word)) rows.now }
    requires fits { All (All (λ t. length t.word ≤ packing.room)) rows.now }
    requires most { most < 4294967296 }
    ensures words { IfOk result (λ t. (w : List ℕ) → Contains t.words w ↔ Contains (words_of rows.now) w) }
    ensures within { IfOk result (λ t. length t.words ≤ most) }
    ensures bits { IfOk result (λ t. t.bits ≡ packing.bits) }
    ensures room { IfOk result (λ t. t.room ≡ packing.room) }
    ensures many { IsErrOf result ColumnFault.TooMany → HasMore most (Contains (words_of rows.now)) }
{
    let mut table = WordTable::new(alloc, packing);
    let mut numbers = Vec::new(alloc);
    for row in rows {
        let words = packed_terms(alloc, packing, row.terms())?;
        add_words(words.as_slice(), most, false, &mut table, &mut numbers)?;
    }
    Ok(table)
}

/// The words of a walk by falling word, with what is listed under the numbers of these columns.
fn in_order(
    alloc: Global,
    numbered: Numbered,
    residues: ResidueLists,
    limit: u32,
) -> Result<ListedClosure, NoMemory>
    requires few { length numbered.table.words < 4294967296 }
    requires degree { HaveOneDegree numbered.table.words }
    requires walked { (G : List (List Term)) × (given : List (List ℕ)) × (from : ℕ)
        × IsNumberWalk G given numbered.table.words (length numbered.table.words) from limit numbered.spans.items
        numbered.numbers.items numbered.entries }
    ensures listed { IfOk result (λ c. (G : List (List Term)) (given : List (List ℕ)) (from : ℕ)
        → IsNumberWalk G given numbered.table.words (length numbered.table.words) from limit numbered.spans.items
        numbered.numbers.items numbered.entries → residues ≡ map residues_of G
        → IsListed G given from limit c) }
    ensures within { IfOk result (λ c. length (words_in c.columns) ≡ length numbered.table.words) }
{
    let numbers = numbered.numbers;
    let (words, order) = numbered.table.in_order(alloc)?;
    let columns = columns_of(alloc, order.as_slice())?;
    let held = numbered.entries <= u64::from(limit);
    let (spans, numbers) = ordered_if(
        alloc,
        held,
        numbered.spans.as_slice(),
        numbers,
        order.as_slice(),
        columns.as_slice(),
    )?;
    Ok(ListedClosure {
        columns: ColumnWords::Packed(words),
        lists: Lists {
            spans,
            numbers,
            residues,
        },
        entries: numbered.entries,
    })
}

/// The reducers in the order of the columns, where they are held, with the column of each number in its place.
fn ordered_if(
    alloc: Global,
    held: bool,
    spans: &[Option<Span>],
    numbers: Vec<u32>,
    order: &[u32],
    columns: &[u32],
) -> Result<(Vec<Option<Span>>, Vec<u32>), NoMemory>
    requires order { All (λ n. n < length spans.now) order.now }
    requires within { IsTrue held → All (IsSpanIn numbers.items) spans.now }
    requires columns { IsTrue held → All (λ n. n < length columns.now) numbers.items }
    ensures { IfOk result (λ parts. IsTrue held → AllZip (IsMoved (columns_at columns.now numbers.items) parts.1.items)
        (map (λ n. slice_index_or spans.now n None) order.now) parts.0.items) }
{
    if !held {
        return Ok((Vec::new(alloc), Vec::new(alloc)));
    }
    let mut renamed = numbers;
    rename(columns, &mut renamed);
    ordered(alloc, spans, renamed.as_slice(), order)
}

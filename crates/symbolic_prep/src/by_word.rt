ghost use Rattle.std.specs.Prelude.{◌≡◌, ◌+◌, ◌<◌, ◌≤◌, ◌++◌, ◌∷◌, List, ℕ, All, AllPairs, Contains, IfOk, IsErrOf};
ghost use Rattle.std.specs.Prelude.{IsTrue, OnOk, Option, length};
ghost use Rattle.std.specs.List.{AllZip};
ghost use Rattle.words.specs.Order.{IsLetterwiseGreater};
ghost use Rattle.free_poly.specs.declared.term.Term.{Term};
ghost use Rattle.ideal_laws.specs.Quantities.{words_of};
ghost use Rattle.symbolic_prep.specs.Closed.{AreRowsOf};
ghost use Rattle.symbolic_prep.specs.Columns.{IsListed, IsOnColumns, words_in};
ghost use Rattle.symbolic_prep.specs.Walk.{HasMoreColumns};
ghost use Rattle.symbolic_prep.specs.Numbers.{AreListed, IsLonger, IsSpanOf};

use crate::by_number::ListedClosure;
use crate::closing::keeps;
use crate::columns::{ColumnWords, place_of};
use crate::lists::{Lists, Span, place_behind};
use crate::pending::{ColumnFault, words_of_rows};
use crate::residues::ResidueLists;
use crate::walk::walk;
use free_poly::{Poly, Term};
use ideal_laws::Basis;
use lead_index::LeadIndex;
use std::alloc::Global;
use words::{NoMemory, Word};

/// The closure of the words of the rows, by words as they are.
pub(crate) fn closure_by_word(
    alloc: Global,
    basis: &Basis,
    index: &LeadIndex,
    rows: &[Poly],
    entries: u64,
    d: u32,
    most: usize,
    limit: u32,
) -> Result<ListedClosure, ColumnFault>
    requires rows { AreRowsOf basis.now index.now rows.now d }
    requires most { most < 4294967296 }
    requires entries { entries ≤ limit + 1 }

    ensures listed { IfOk result (IsListed basis.now.elements (words_of rows.now) entries limit) }
    ensures within { IfOk result (λ c. length (words_in c.columns) ≤ most) }
    ensures many { IsErrOf result ColumnFault.TooMany → HasMoreColumns basis.now.elements (words_of rows.now) most }
{
    let _done = basis.done();
    keeps(index);
    let pending = words_of_rows(alloc, rows, most)?;
    let walked = walk(alloc, basis, index, pending, entries, d, most, limit)?;
    let held = walked.entries <= u64::from(limit);
    let columns = walked.columns;
    let lists = listed_if(alloc, held, columns.as_slice(), walked.reducers.as_slice())?;
    Ok(ListedClosure {
        columns: ColumnWords::Plain(columns),
        lists,
        entries: walked.entries,
    })
}

/// The reducers one after another, where they are held.
fn listed_if(
    alloc: Global,
    held: bool,
    columns: &[Word],
    reducers: &[Option<Poly>],
) -> Result<Lists, NoMemory>
    requires few { length columns.now < 4294967296 }
    requires size { length reducers.now ≡ length columns.now }
    requires falling { AllPairs IsLetterwiseGreater columns.now }
    requires on_columns { IsTrue held → All (IsOnColumns columns.now) reducers.now }
    ensures { IfOk result (λ l. IsTrue held → AllZip (IsSpanOf columns.now l.numbers.items l.residues) l.spans.items
        reducers.now) }
{
    if held {
        listed(alloc, columns, reducers)
    } else {
        Ok(Lists {
            spans: Vec::new(alloc),
            numbers: Vec::new(alloc),
            residues: ResidueLists::new(alloc),
        })
    }
}

/// The reducers one after another.
fn listed(alloc: Global, columns: &[Word], reducers: &[Option<Poly>]) -> Result<Lists, NoMemory>
    requires few { length columns.now < 4294967296 }
    requires size { length reducers.now ≡ length columns.now }
    requires falling { AllPairs IsLetterwiseGreater columns.now }
    requires on_columns { All (IsOnColumns columns.now) reducers.now }
    ensures { IfOk result (λ l. AllZip (IsSpanOf columns.now l.numbers.items l.residues) l.spans.items
        reducers.now) }
{
    let mut spans = Vec::with_capacity(alloc, reducers.len())?;
    let mut numbers = Vec::new(alloc);
    let mut residues = ResidueLists::new(alloc);
    for reducer in reducers {
        let span = push_listed(alloc, columns, reducer, &mut numbers, &mut residues)?;
        spans.push(span)?;
    }
    Ok(Lists {
        spans,
        numbers,
        residues,
    })
}

/// Lists a reducer, if there is one, as a multiple of itself.
fn push_listed(
    alloc: Global,
    columns: &[Word],
    reducer: &Option<Poly>,
    numbers: &mut Vec<u32>,
    residues: &mut ResidueLists,
) -> Result<Option<Span>, NoMemory>
    requires few { length columns.now < 4294967296 }
    requires falling { AllPairs IsLetterwiseGreater columns.now }
    requires on_columns { IsOnColumns columns.now reducer.now }
    requires room { length residues.old < 4294967296 }
    ensures numbers { OnOk result (IsLonger numbers.old.items numbers.new.items) }
    ensures residues { OnOk result (IsLonger residues.old residues.new) }
    ensures one { OnOk result (length residues.new ≤ length residues.old + 1) }
    ensures stands { IfOk result (λ span. IsSpanOf columns.now numbers.new.items residues.new span reducer.now) }
{
    match reducer {
        Some(poly) => {
            let start = place_behind(numbers.len())?;
            push_numbers(columns, poly.terms(), numbers)?;
            let end = place_behind(numbers.len())?;
            let element = residues.len() as u32;
            residues.push(alloc, poly.terms())?;
            Ok(Some(Span {
                start,
                end,
                element,
            }))
        }
        None => {
            let _len = residues.len();
            Ok(None)
        }
    }
}

/// Lists the columns of the words of some terms.
fn push_numbers(columns: &[Word], terms: &[Term], numbers: &mut Vec<u32>) -> Result<(), NoMemory>
    requires few { length columns.now < 4294967296 }
    requires falling { AllPairs IsLetterwiseGreater columns.now }
    requires on_columns { All (λ t. Contains columns.now t.word) terms.now }
    ensures { OnOk result (AreListed columns.now numbers.old.items numbers.new.items terms.now) }
{
    for term in terms {
        let column = place_of(columns, term.word.letters());
        numbers.push(column as u32)?;
    }
    Ok(())
}

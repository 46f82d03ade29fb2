ghost use Rattle.std.specs.Prelude.{◌≡◌, ◌+◌, ◌<◌, ◌≤◌, List, ℕ, All, Err, IfOk, IsErrOf, OnOk, length, min};
ghost use Rattle.free_poly.specs.Poly.{IsPolynomial};
ghost use Rattle.free_poly.specs.Terms.{HasDegree, UsesLetters};
ghost use Rattle.ideal_laws.specs.declared.limits.LimitKind.{LimitKind};
ghost use Rattle.ideal_laws.specs.Quantities.{IsFirstPassing, NonePasses, terms_in, words_of};
ghost use Rattle.lead_index.specs.Leads.{IsIndex, IsIndexOf};
ghost use Rattle.symbolic_prep.specs.Walk.{HasMoreColumns, IsPassed};
ghost use Rattle.symbolic_prep.specs.Columns.{IsListed, words_in};
ghost use Rattle.symbolic_prep.specs.Closed.{AreRowsOf, IsClosed, IsClosedQuantity, closing_limits};

use crate::by_number::{ListedClosure, closure_by_number};
use crate::by_word::closure_by_word;
use crate::closed::Closed;
use crate::packing::packing_of;
use crate::pending::ColumnFault;
use crate::walk::counted;
use field_table::Field;
use free_poly::Poly;
use ideal_laws::{Basis, EngineFault, LimitKind, Limits};
use lead_index::LeadIndex;
use std::alloc::Global;

/// The closure of the words of the rows (Faugère 1999). More columns than the limit are refused before they are all
/// held, and so are more entries, which are the terms of rows and reducers; the columns are asked first.
pub fn close(
    alloc: Global,
    _field: &Field,
    basis: &Basis,
    index: &LeadIndex,
    rows: &[Poly],
    d: u32,
    limits: &Limits,
) -> Result<Closed, EngineFault>
    requires form { All IsPolynomial basis.now.elements }
    requires index { IsIndexOf basis.now.elements index.now }
    requires small { d ≤ 64 }
    requires degree { All (HasDegree basis.now.weights d) rows.now }
    requires letters { All (UsesLetters (length basis.now.weights)) rows.now }

    ensures closed { IfOk result (IsClosed basis.now.elements (words_of rows.now)) }
    ensures within { OnOk result (NonePasses (IsClosedQuantity basis.now.elements rows.now)
        (closing_limits limits.now)) }

    ensures limit { (kind : LimitKind) (degree value : ℕ) → result ≡ Err (EngineFault.Limit kind degree value)
        → (degree ≡ d) × IsFirstPassing (IsClosedQuantity basis.now.elements rows.now) (closing_limits limits.now)
        kind value }
{
    let _done = basis.done();
    let entries = entries_of(rows, limits.entries);
    let listed = match closure_of(alloc, basis, index, rows, entries, d, limits) {
        Ok(listed) => listed,
        Err(fault) => return Err(passed(fault, d, limits.columns)),
    };
    if listed.entries > u64::from(limits.entries) {
        return Err(EngineFault::Limit {
            kind: LimitKind::Entries,
            degree: d,
            value: listed.entries,
        });
    }
    Ok(Closed::of(alloc, listed.columns, listed.lists)?)
}

/// The closure of the words of the rows: by packed words, where they are short enough.
fn closure_of(
    alloc: Global,
    basis: &Basis,
    index: &LeadIndex,
    rows: &[Poly],
    entries: u64,
    d: u32,
    limits: &Limits,
) -> Result<ListedClosure, ColumnFault>
    requires rows { AreRowsOf basis.now index.now rows.now d }
    requires entries { entries ≤ limits.now.entries + 1 }

    ensures listed { IfOk result (IsListed basis.now.elements (words_of rows.now) entries limits.now.entries) }
    ensures within { IfOk result (λ c. length (words_in c.columns) ≤ limits.now.columns) }
    ensures few { IfOk result (λ c. length (words_in c.columns) < 4294967296) }
    ensures many { IsErrOf result ColumnFault.TooMany →
        HasMoreColumns basis.now.elements (words_of rows.now) limits.now.columns }
{
    let most = limits.columns as usize;
    let limit = limits.entries;
    match packing_of(basis.letters(), d) {
        Some(packing) => closure_by_number(
            alloc, basis, index, rows, packing, entries, d, most, limit,
        ),
        None => closure_by_word(alloc, basis, index, rows, entries, d, most, limit),
    }
}

/// What an index keeps, which each call on it says.
pub(crate) fn keeps(index: &LeadIndex)
    ensures { IsIndex index.now }
{
    let _none = index.starts(&[], 0);
}

/// The number of terms of all rows, or one more than the limit where they are more.
fn entries_of(rows: &[Poly], limit: u32) -> u64
    ensures { result ≡ min (terms_in rows.now) (limit + 1) }
{
    let mut entries = 0;
    for row in rows {
        entries = counted(entries, row.terms().len(), limit);
    }
    entries
}

fn passed(fault: ColumnFault, d: u32, columns: u32) -> EngineFault
    ensures { IsPassed fault d columns result }
{
    match fault {
        ColumnFault::TooMany => EngineFault::Limit {
            kind: LimitKind::Columns,
            degree: d,
            value: u64::from(columns) + 1,
        },
        ColumnFault::NoMemory => EngineFault::NoMemory,
    }
}

ghost use Rattle.std.specs.Prelude.{◌≡◌, ◌<◌, ℕ, All, IfOk, MatchOption, length, slice_index};
ghost use Rattle.field_table.specs.Residues.{negative_of, plus_multiple};
ghost use Rattle.back_reduce.specs.Entries.{IsLead};
ghost use Rattle.back_reduce.specs.Table.{IsFirstFree, IsInserted, IsLeader, IsPlusHeld, IsTable};

use crate::NoMemory;
use crate::row::Row;
use crate::scale::scale;
use field_table::Field;
use std::alloc::Global;

/// The row that leads at a column, from the row of the problem with this number.
#[derive(Debug, Drop)]
pub struct Held {
    pub holder: u32,
    pub row: Row,
}

/// Reduces the row by the rows of the table up to the first column that no row holds and where it is not 0, if there
/// is one. It is 0 before the column `from`.
pub(crate) fn free_column(
    field: &Field,
    table: &[Option<Held>],
    from: usize,
    row: &mut [u32],
) -> Option<usize>
    requires table { IsTable field.now (length row.old) table.now }
    requires residues { All (λ r. r < field.now) row.old }
    requires before { (k : ℕ) → k < from → slice_index row.old k ≡ 0 }
    ensures residues { All (λ r. r < field.now) row.new }
    ensures reduced { IsPlusHeld field.now table.now row.old row.new }
    ensures free { MatchOption result (All (λ r. r ≡ 0) row.new) (λ at. IsFirstFree table.now row.new at) }
{
    for at in from..row.len() {
        if row[at] == 0 {
            continue;
        }
        match &table[at] {
            Some(held) => clear_entry(field, row, at, &held.row),
            None => return Some(at),
        }
    }
    None
}

/// Adds the multiple of the row that leads at the column which makes the entry there 0. Before the column nothing
/// changes.
pub(crate) fn clear_entry(field: &Field, row: &mut [u32], at: usize, leader: &Row)
    requires row { All (λ r. r < field.now) row.old }
    requires leader { IsLeader field.now (length row.old) at leader.now }
    ensures sums { row.new ≡ plus_multiple field.now (negative_of field.now (slice_index row.old at)) row.old
        leader.now }
    ensures residues { All (λ r. r < field.now) row.new }
{
    let a = field.neg(row[at]);
    leader.add_multiple(field, at, a, row);
}

/// Reduces a row, and puts what is left of it into the table, monic, where anything is left. A row that leads at a
/// column which no row holds is not written into the buffer.
pub(crate) fn insert(
    alloc: Global,
    field: &Field,
    table: &mut [Option<Held>],
    holder: u32,
    row: &Row,
    buffer: &mut [u32],
) -> Result<(), NoMemory>
    requires table { IsTable field.now (length row.now) table.old }
    requires residues { All (λ r. r < field.now) row.now }
    requires width { length buffer.old ≡ length row.now }
    ensures table { IfOk result (λ _. IsTable field.now (length row.now) table.new) }
    ensures inserted { IfOk result (λ _. IsInserted field.now holder table.old row.now table.new) }
{
    let Some(at) = row.lead() else {
        return Ok(());
    };
    if table[at].is_some() {
        row.write(buffer);
        return insert_cleared(alloc, field, table, holder, at, buffer);
    }
    let a = field.inv(row.at(at));
    let row = row.scaled(alloc, field, a)?;
    table[at] = Some(Held { holder, row });
    Ok(())
}

/// Reduces a row that is 0 before a column.
fn insert_cleared(
    alloc: Global,
    field: &Field,
    table: &mut [Option<Held>],
    holder: u32,
    from: usize,
    row: &mut [u32],
) -> Result<(), NoMemory>
    requires table { IsTable field.now (length row.old) table.old }
    requires residues { All (λ r. r < field.now) row.old }
    requires before { (k : ℕ) → k < from → slice_index row.old k ≡ 0 }
    ensures table { IfOk result (λ _. IsTable field.now (length row.old) table.new) }
    ensures inserted { IfOk result (λ _. IsInserted field.now holder table.old row.old table.new) }
{
    if let Some(at) = free_column(field, table, from, row) {
        let a = field.inv(row[at]);
        scale(field, a, row);
        let row = Row::from_residues(alloc, row)?;
        table[at] = Some(Held { holder, row });
    }
    Ok(())
}

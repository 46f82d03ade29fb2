ghost use Rattle.std.specs.Prelude.{◌≡◌, ◌<◌, ◌≤◌, false, true, ℕ, All, AllPairs, IfOk, IsTrue, MatchOption, length};
ghost use Rattle.std.specs.Prelude.{map, replicate, slice_index, slice_index_or};
ghost use Rattle.field_table.specs.Residues.{plus_multiple, product_of};
ghost use Rattle.back_reduce.specs.Entries.{entries_row, IsLead};
ghost use Rattle.back_reduce.specs.Listings.{entries_of};

use crate::NoMemory;
use crate::entry::Entry;
use crate::form::{Form, Listed};
use crate::scale::scale;
use field_table::Field;
use lane_kernel::axpy_lanes;
use std::alloc::Global;
use std::marker::Model;

/// A row of residues over numbered columns. Where few of them are other than 0, these alone are held.
#[derive(Debug, Drop)]
pub struct Row {
    form: Form,
}

impl Model for Row {
    ghost use Rattle.std.specs.Prelude.{List, ℕ};

    ghost Value = { List ℕ };

    ghost use Rattle.back_reduce.specs.Forms.{row_in};

    ghost view = { λ row. row_in row.form };
}

impl Row {
    /// The row of m residues that are these at these rising columns, and 0 elsewhere.
    pub fn from_entries(m: u32, columns: Vec<u32>, residues: Vec<u32>) -> Row
        requires same { length residues.items ≡ length columns.items }
        requires rising { AllPairs (λ c d. c < d) columns.items }
        requires below { All (λ c. c < m) columns.items }
        ensures { result ≡ entries_row m columns.items residues.items }
    {
        Row {
            form: Form::Listed(Listed {
                width: m,
                columns,
                residues,
            }),
        }
    }

    /// The row of m residues that are all 0.
    pub fn zeros(alloc: Global, m: u32) -> Row
        ensures { result ≡ replicate m 0 }
    {
        Row::from_entries(m, Vec::new(alloc), Vec::new(alloc))
    }

    pub fn from_residues(alloc: Global, residues: &[u32]) -> Result<Row, NoMemory>
        ensures { IfOk result (λ row. row ≡ residues.now) }
    {
        let form = if residues.len() <= 4_294_967_295 && are_few(residues) {
            Form::Listed(Listed::from_residues(alloc, residues)?)
        } else {
            Form::Full(Vec::from_slice(alloc, residues)?)
        };
        Ok(Row { form })
    }

    pub fn len(&self) -> usize
        ensures { result ≡ length self.now }
    {
        match &self.form {
            Form::Full(residues) => residues.len(),
            Form::Listed(listed) => listed.width as usize,
        }
    }

    /// How many residues are held.
    pub fn size(&self) -> usize {
        match &self.form {
            Form::Full(residues) => residues.len(),
            Form::Listed(listed) => listed.columns.len(),
        }
    }

    /// The residue at a column.
    pub fn at(&self, column: usize) -> u32
        requires { column < length self.now }
        ensures { result ≡ slice_index self.now column }
    {
        match &self.form {
            Form::Full(residues) => residues[column],
            Form::Listed(listed) => listed.at(column),
        }
    }

    /// The first column where the row is not 0.
    pub fn lead(&self) -> Option<usize>
        ensures { MatchOption result (All (λ r. r ≡ 0) self.now) (IsLead self.now) }
    {
        match &self.form {
            Form::Full(residues) => lead_of(residues.as_slice()),
            Form::Listed(listed) => listed.lead(),
        }
    }

    /// Whether the row is 0 at each marked column behind this one.
    pub(crate) fn is_clear(&self, marks: &[bool], column: u32) -> bool
        requires { length marks.now ≡ length self.now }
        ensures { IsTrue result → (k : ℕ) → column < k → slice_index_or marks.now k false ≡ true
            → slice_index self.now k ≡ 0 }
    {
        match &self.form {
            Form::Full(residues) => is_clear(residues.as_slice(), marks, column),
            Form::Listed(listed) => listed.is_clear(marks, column),
        }
    }

    /// The residues that are not 0, with their columns, rising.
    pub fn entries(&self, alloc: Global) -> Result<Vec<Entry>, NoMemory>
        ensures { IfOk result (λ entries. entries.items ≡ entries_of self.now) }
    {
        match &self.form {
            Form::Full(residues) => entries_in(alloc, residues.as_slice()),
            Form::Listed(listed) => listed.entries(alloc),
        }
    }

    pub fn copy(&self, alloc: Global) -> Result<Row, NoMemory>
        ensures { IfOk result (λ row. row ≡ self.now) }
    {
        let form = match &self.form {
            Form::Full(residues) => Form::Full(Vec::from_slice(alloc, residues.as_slice())?),
            Form::Listed(listed) => Form::Listed(listed.copy(alloc)?),
        };
        Ok(Row { form })
    }

    /// The row times a residue.
    pub(crate) fn scaled(&self, alloc: Global, field: &Field, a: u32) -> Result<Row, NoMemory>
        requires factor { a < field.now }
        requires residues { All (λ r. r < field.now) self.now }
        ensures { IfOk result (λ row. row ≡ map (λ r. product_of field.now a r) self.now) }
    {
        let form = match &self.form {
            Form::Full(residues) => Form::Full(scaled(alloc, field, a, residues.as_slice())?),
            Form::Listed(listed) => Form::Listed(listed.scaled(alloc, field, a)?),
        };
        Ok(Row { form })
    }

    /// Writes the residues, those that are 0 too.
    pub fn write(&self, into: &mut [u32])
        requires { length into.old ≡ length self.now }
        ensures { into.new ≡ self.now }
    {
        match &self.form {
            Form::Full(residues) => into.copy_from_slice(residues.as_slice()),
            Form::Listed(listed) => listed.write(into),
        }
    }

    /// Adds a multiple of the row, which is 0 before a column.
    pub(crate) fn add_multiple(&self, field: &Field, from: usize, a: u32, into: &mut [u32])
        requires factor { a < field.now }
        requires width { length into.old ≡ length self.now }
        requires residues { All (λ r. r < field.now) self.now }
        requires into_residues { All (λ r. r < field.now) into.old }
        requires within { from ≤ length self.now }
        requires before { (k : ℕ) → k < from → slice_index self.now k ≡ 0 }
        ensures { into.new ≡ plus_multiple field.now a into.old self.now }
    {
        match &self.form {
            Form::Full(residues) => add_from(field, from, a, residues.as_slice(), into),
            Form::Listed(listed) => listed.add_multiple(field, a, into),
        }
    }
}

/// Whether few residues are other than 0, so that a list of these is smaller and faster.
fn are_few(residues: &[u32]) -> bool {
    residues.iter().filter(|residue| **residue != 0).count() <= residues.len() / 6
}

/// The first column where the row is not 0.
fn lead_of(row: &[u32]) -> Option<usize>
    ensures { MatchOption result (All (λ r. r ≡ 0) row.now) (IsLead row.now) }
{
    for at in 0..row.len() {
        if row[at] != 0 {
            return Some(at);
        }
    }
    None
}

/// The residues that are not 0, with their columns.
fn entries_in(alloc: Global, row: &[u32]) -> Result<Vec<Entry>, NoMemory>
    ensures { IfOk result (λ entries. entries.items ≡ entries_of row.now) }
{
    let mut entries = Vec::new(alloc);
    for column in 0..row.len() {
        let residue = row[column];
        if residue != 0 {
            entries.push(Entry { column, residue })?;
        }
    }
    Ok(entries)
}

/// Whether the row is 0 at each marked column behind this one.
fn is_clear(row: &[u32], marks: &[bool], column: u32) -> bool
    requires { length marks.now ≡ length row.now }
    ensures { IsTrue result → (k : ℕ) → column < k → slice_index_or marks.now k false ≡ true
        → slice_index row.now k ≡ 0 }
{
    for at in 0..row.len() {
        if at > column as usize && marks[at] && row[at] != 0 {
            return false;
        }
    }
    true
}

/// The residues times another.
fn scaled(alloc: Global, field: &Field, a: u32, row: &[u32]) -> Result<Vec<u32>, NoMemory>
    requires factor { a < field.now }
    requires residues { All (λ r. r < field.now) row.now }
    ensures { IfOk result (λ products. products.items ≡ map (λ r. product_of field.now a r) row.now) }
{
    let mut products = Vec::from_slice(alloc, row)?;
    scale(field, a, products.as_mut_slice());
    Ok(products)
}

/// Adds a multiple of a row that is 0 before a column. There nothing changes, so the sums begin at it.
fn add_from(field: &Field, from: usize, a: u32, row: &[u32], into: &mut [u32])
    requires factor { a < field.now }
    requires width { length into.old ≡ length row.now }
    requires residues { All (λ r. r < field.now) row.now }
    requires into_residues { All (λ r. r < field.now) into.old }
    requires within { from ≤ length row.now }
    requires before { (k : ℕ) → k < from → slice_index row.now k ≡ 0 }
    ensures { into.new ≡ plus_multiple field.now a into.old row.now }
{
    axpy_lanes(field, &mut into[from..], a, &row[from..]);
}

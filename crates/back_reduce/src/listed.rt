ghost use Rattle.std.specs.Prelude.{◌≡◌, ◌<◌, false, true, ℕ, All, IfOk, IsTrue, MatchOption, length, map};
ghost use Rattle.std.specs.Prelude.{slice_index, slice_index_or};
ghost use Rattle.field_table.specs.Residues.{plus_multiple, product_of};
ghost use Rattle.back_reduce.specs.Entries.{IsLead};
ghost use Rattle.back_reduce.specs.Forms.{listed_row};
ghost use Rattle.back_reduce.specs.Listings.{entries_of};

use crate::NoMemory;
use crate::entry::Entry;
use crate::form::Listed;
use crate::scale::scale;
use field_table::Field;
use std::alloc::Global;

impl Listed {
    /// Lists the residues other than 0.
    pub(crate) fn from_residues(alloc: Global, row: &[u32]) -> Result<Listed, NoMemory>
        requires { length row.now < 4294967296 }
        ensures { IfOk result (λ listed. listed_row listed ≡ row.now) }
    {
        let mut columns = Vec::new(alloc);
        let mut residues = Vec::new(alloc);
        for at in 0..row.len() {
            if row[at] != 0 {
                columns.push(at as u32)?;
                residues.push(row[at])?;
            }
        }
        Ok(Listed {
            width: row.len() as u32,
            columns,
            residues,
        })
    }

    pub(crate) fn at(&self, column: usize) -> u32
        requires { column < self.now.width }
        ensures { result ≡ slice_index (listed_row self.now) column }
    {
        let _width = self.width;
        match self.columns.binary_search(&(column as u32)) {
            Ok(place) => self.residues[place],
            Err(_) => 0,
        }
    }

    pub(crate) fn lead(&self) -> Option<usize>
        ensures { MatchOption result (All (λ r. r ≡ 0) (listed_row self.now)) (IsLead (listed_row self.now)) }
    {
        for place in 0..self.columns.len() {
            if self.residues[place] != 0 {
                return Some(self.columns[place] as usize);
            }
        }
        None
    }

    /// Whether the row is 0 at each marked column behind this one.
    pub(crate) fn is_clear(&self, marks: &[bool], column: u32) -> bool
        requires { length marks.now ≡ self.now.width }
        ensures { IsTrue result → (k : ℕ) → column < k → slice_index_or marks.now k false ≡ true
            → slice_index (listed_row self.now) k ≡ 0 }
    {
        for place in 0..self.columns.len() {
            let at = self.columns[place];
            if at > column && marks[at as usize] && self.residues[place] != 0 {
                return false;
            }
        }
        true
    }

    pub(crate) fn entries(&self, alloc: Global) -> Result<Vec<Entry>, NoMemory>
        ensures { IfOk result (λ entries. entries.items ≡ entries_of (listed_row self.now)) }
    {
        let mut entries = Vec::with_capacity(alloc, self.columns.len())?;
        for place in 0..self.columns.len() {
            let column = self.columns[place] as usize;
            let residue = self.residues[place];
            if residue != 0 {
                entries.push(Entry { column, residue })?;
            }
        }
        Ok(entries)
    }

    /// The row times a residue.
    pub(crate) fn scaled(&self, alloc: Global, field: &Field, a: u32) -> Result<Listed, NoMemory>
        requires factor { a < field.now }
        requires residues { All (λ r. r < field.now) (listed_row self.now) }
        ensures { IfOk result (λ row. listed_row row ≡ map (λ r. product_of field.now a r) (listed_row self.now)) }
    {
        let columns = Vec::from_slice(alloc, self.columns.as_slice())?;
        let mut residues = Vec::from_slice(alloc, self.residues.as_slice())?;
        scale(field, a, residues.as_mut_slice());
        Ok(Listed {
            width: self.width,
            columns,
            residues,
        })
    }

    pub(crate) fn copy(&self, alloc: Global) -> Result<Listed, NoMemory>
        ensures { IfOk result (λ row. listed_row row ≡ listed_row self.now) }
    {
        Ok(Listed {
            width: self.width,
            columns: Vec::from_slice(alloc, self.columns.as_slice())?,
            residues: Vec::from_slice(alloc, self.residues.as_slice())?,
        })
    }

    pub(crate) fn write(&self, into: &mut [u32])
        requires { length into.old ≡ self.now.width }
        ensures { into.new ≡ listed_row self.now }
    {
        into.fill(0);
        for place in 0..self.columns.len() {
            into[self.columns[place] as usize] = self.residues[place];
        }
    }

    /// Adds a multiple of the row, at its columns alone.
    pub(crate) fn add_multiple(&self, field: &Field, a: u32, into: &mut [u32])
        requires factor { a < field.now }
        requires width { length into.old ≡ self.now.width }
        requires residues { All (λ r. r < field.now) (listed_row self.now) }
        requires into_residues { All (λ r. r < field.now) into.old }
        ensures { into.new ≡ plus_multiple field.now a into.old (listed_row self.now) }
    {
        for place in 0..self.columns.len() {
            let at = self.columns[place] as usize;
            into[at] = field.add(into[at], field.mul(a, self.residues[place]));
        }
    }
}

ghost use Rattle.std.specs.Prelude.{◌≡◌, [], ◌∷◌, ◌++◌, IfOk, OnOk};
ghost use Rattle.back_reduce.specs.Entries.{AreEntries};
ghost use Rattle.row_store.specs.Sums.{cells_of};

use back_reduce::Row;
use field_table::NoMemory;
use std::alloc::Global;

/// What a row leaves: its residues other than 0, each beside its place among the contested columns.
#[derive(Drop)]
pub(crate) struct Left {
    pub places: Vec<u32>,
    pub residues: Vec<u32>,
}

impl Left {
    pub(crate) fn new(alloc: Global) -> Left
        ensures places { result.places.items ≡ [] }
        ensures residues { result.residues.items ≡ [] }
    {
        Left {
            places: Vec::new(alloc),
            residues: Vec::new(alloc),
        }
    }

    #[inline(always)]
    pub(crate) fn push(&mut self, place: u32, residue: u32) -> Result<(), NoMemory>
        ensures places { OnOk result (self.new.places.items ≡ self.old.places.items ++ place ∷ []) }
        ensures residues { OnOk result (self.new.residues.items ≡ self.old.residues.items ++ residue ∷ []) }
    {
        self.places.push(place)?;
        self.residues.push(residue)?;
        Ok(())
    }

    /// The row of m residues that these are. Where they are many, all are held.
    pub(crate) fn into_row(self, alloc: Global, m: u32) -> Result<Row, NoMemory>
        requires { AreEntries m self.places.items self.residues.items }
        ensures { IfOk result (λ row. row ≡ cells_of m self) }
    {
        let few = self.places.len() <= m as usize / 6;
        let row = Row::from_entries(m, self.places, self.residues);
        if few {
            return Ok(row);
        }
        let mut residues = vec![in alloc; 0u32; m as usize]?;
        row.write(residues.as_mut_slice());
        Row::from_residues(alloc, residues.as_slice())
    }
}

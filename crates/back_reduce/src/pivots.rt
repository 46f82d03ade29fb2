ghost use Rattle.std.specs.Prelude.{◌≡◌, ◌<◌, ℕ, IfOk, Option};
ghost use Rattle.back_reduce.specs.declared.problem.Problem.{Problem};
ghost use Rattle.back_reduce.specs.Pivots.{held_row, ArePivots};

use crate::NoMemory;
use crate::problem::Problem;
use crate::row::Row;
use std::alloc::Global;

/// Rows that lead at the columns of a problem, at most one at each, with the span of the problem's rows.
pub trait PivotRows: Sync {
    // The problem.
    ghost given: { Self → Problem };

    // The number of the row that holds a column, where one does.
    ghost holders: { Self → ℕ → Option ℕ };

    // The residue of the row of a column at another, and 0 where the column is not held.
    ghost values: { Self → ℕ → ℕ → ℕ };

    fn problem(&self) -> &Problem
        ensures problem { result.now ≡ given self.now }
        ensures pivots { ArePivots (given self.now) (holders self.now) (values self.now) };

    /// The row that holds the column.
    fn holder(&self, column: u32) -> Option<u32>
        requires { column < (given self.now).m }
        ensures { result ≡ holders self.now column };

    /// The residue of the row that leads at the column, and 0 where none does.
    fn value(&self, column: u32, at: u32) -> u32
        requires column { column < (given self.now).m }
        requires at { at < (given self.now).m }
        ensures { result ≡ values self.now column at };

    /// The row that leads at the column, and a row of 0 where none does.
    fn row(&self, alloc: Global, column: u32) -> Result<Row, NoMemory>
        requires { column < (given self.now).m }
        ensures { IfOk result (λ row. row ≡ held_row (given self.now).m (values self.now) column) }
    {
        let m = self.problem().m;
        let mut residues = Vec::with_capacity(alloc, m as usize)?;
        for at in 0..m {
            residues.push(self.value(column, at))?;
        }
        Row::from_residues(alloc, residues.as_slice())
    }
}

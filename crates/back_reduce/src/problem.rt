ghost use Rattle.std.specs.Prelude.{◌≡◌, ◌*◌, ◌<◌, ◌≤◌, All, IfOk, length};
ghost use Rattle.back_reduce.specs.Rows.{cut_rows, IsRow};

use crate::NoMemory;
use crate::row::Row;
use std::alloc::Global;

/// Rows of residues over the contested columns of a degree: n rows of m residues.
#[derive(Debug, Drop)]
pub struct Problem {
    pub degree: u32,
    pub modulus: u32,
    pub m: u32,
    pub n: u32,
    pub rows: Vec<Row>,
    pub ghost count: { length rows.items ≡ n },
    pub ghost each: { All (IsRow modulus m) rows.items },
    pub ghost few: { n * m ≤ 67108864 },
}

impl Problem {
    /// The problem whose rows have these residues, row after row.
    pub fn from_cells(
        alloc: Global,
        degree: u32,
        modulus: u32,
        m: u32,
        n: u32,
        cells: &[u32],
    ) -> Result<Problem, NoMemory>
        requires shape { length cells.now ≡ n * m }
        requires residues { All (λ a. a < modulus) cells.now }
        requires few { n * m ≤ 67108864 }
        ensures degree { IfOk result (λ problem. problem.degree ≡ degree) }
        ensures modulus { IfOk result (λ problem. problem.modulus ≡ modulus) }
        ensures shape { IfOk result (λ problem. (problem.m ≡ m) × (problem.n ≡ n)) }
        ensures rows { IfOk result (λ problem. problem.rows.items ≡ cut_rows m n cells.now) }
    {
        let rows = rows_in(alloc, m, n, cells)?;
        Ok(Problem {
            degree,
            modulus,
            m,
            n,
            rows,
        })
    }
}

/// The rows of m residues, one after another.
fn rows_in(alloc: Global, m: u32, n: u32, cells: &[u32]) -> Result<Vec<Row>, NoMemory>
    requires { length cells.now ≡ n * m }
    ensures { IfOk result (λ rows. rows.items ≡ cut_rows m n cells.now) }
{
    let width = m as usize;
    let mut rows = Vec::with_capacity(alloc, n as usize)?;
    for r in 0..n as usize {
        let from = r * width;
        rows.push(Row::from_residues(alloc, &cells[from..from + width])?)?;
    }
    Ok(rows)
}

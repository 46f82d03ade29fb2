ghost use Rattle.std.specs.Prelude.{◌≡◌, IfOk, IfSome};

use crate::NoMemory;
use crate::echelon::reduced;
use crate::elimination::eliminate;
use crate::pivots::PivotRows;
use crate::problem::Problem;
use crate::row::Row;
use field_table::{Field, listed_moduli_law};
use std::alloc::Global;
use std::test::Fail;

/// The problem of n rows of m residues modulo 101, where the cells are that.
fn problem_of(alloc: Global, m: u32, n: u32, cells: &[u32]) -> Result<Option<Problem>, NoMemory>
    ensures { IfOk result (λ found. IfSome found (λ problem. problem.modulus ≡ 101)) }
{
    if m > 8 || n > 8 || cells.len() != (n * m) as usize || !cells.iter().all(|a| *a < 101) {
        return Ok(None);
    }
    Ok(Some(Problem::from_cells(alloc, 0, 101, m, n, cells)?))
}

/// The rows, one after another.
fn joined(alloc: Global, rows: &[Row]) -> Result<Vec<u32>, NoMemory> {
    let mut all = Vec::new(alloc);
    for row in rows {
        let mut residues = vec![in alloc; 0u32; row.len()]?;
        row.write(residues.as_mut_slice());
        all.extend_from_slice(residues.as_slice())?;
    }
    Ok(all)
}

#[test]
fn rows_have_their_echelon_form(rt: HostRuntime) -> Result<(), Fail> {
    listed_moduli_law();
    let alloc = rt.alloc();
    let field = Field::new(alloc, 101)?;
    let none: &[u32] = &[];
    let cases: [(u32, u32, &[u32], &[u32]); 7] = [
        (3, 3, &[1, 2, 3, 2, 4, 7, 0, 0, 1], &[1, 2, 0, 0, 0, 1]),
        (3, 2, &[0, 3, 6, 5, 10, 20], &[1, 0, 0, 0, 1, 2]),
        (
            3,
            3,
            &[1, 100, 0, 1, 0, 100, 0, 1, 100],
            &[1, 0, 100, 0, 1, 100],
        ),
        (2, 2, &[50, 1, 100, 2], &[1, 99]),
        (2, 3, &[0, 0, 0, 7, 0, 0], &[0, 1]),
        // The first row has one residue of seven, and the second one when it is cleared.
        (
            7,
            2,
            &[0, 0, 3, 0, 0, 0, 0, 0, 0, 6, 0, 0, 5, 0],
            &[0, 0, 1, 0, 0, 0, 0, 0, 0, 0, 0, 0, 1, 0],
        ),
        (4, 0, none, none),
    ];
    for (m, n, cells, form) in cases {
        let Some(problem) = problem_of(alloc, m, n, cells)? else {
            return Err(Fail::new("no problem"));
        };
        let pivots = eliminate(alloc, &field, problem)?;
        let echelon = reduced(&rt, alloc, &field, &pivots)?;
        let found = joined(alloc, echelon.as_slice())?;
        assert_eq!(rt; found.as_slice(), form, "of {cells:?}");
        let given = joined(alloc, pivots.problem().rows.as_slice())?;
        assert_eq!(rt; given.as_slice(), cells);
    }
    Ok(())
}

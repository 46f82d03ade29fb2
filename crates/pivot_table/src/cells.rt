ghost use Rattle.std.specs.Prelude.{◌≡◌, ◌<◌, length, slice_set};
ghost use Rattle.pivot_core.specs.Phases.{IsPhase};
ghost use Rattle.pivot_core.specs.Steps.{spot_of};
ghost use Rattle.pivot_core.specs.Words.{row_word};
ghost use Rattle.pivot_table.specs.Cells.{cell_of, half_at, pair_at};

use back_reduce::Problem;
use pivot_core::Phase;

/// The cell of the word of a row at a column, which it shares with the word beside.
pub(crate) fn row_cell(problem: &Problem, row: u32, at: u32) -> usize
    requires row { row < problem.now.n }
    requires at { at < problem.now.m }
    ensures { result ≡ cell_of problem.now.m (row_word row at) }
{
    let m = problem.m as usize;
    1 + m + row as usize * ((m + 1) / 2) + at as usize / 2
}

/// The cell that the next step of a view in this phase meets.
pub(crate) fn cell_met(problem: &Problem, phase: Phase) -> usize
    requires { IsPhase problem.now.m problem.now.n phase }
    ensures { result ≡ cell_of problem.now.m (spot_of phase) }
{
    match phase {
        Phase::Fresh => 0,
        Phase::Looking { column, .. } => 1 + column as usize,
        Phase::Putting { row, at, .. } => row_cell(problem, row, at),
        Phase::Claiming { column, .. } => 1 + column as usize,
        Phase::Reading { holder, at, .. } => row_cell(problem, holder, at),
        Phase::Ended => 0,
    }
}

/// The half of a cell that the word at a column has.
pub(crate) fn half_told(at: u32, cell: u64) -> u32
    ensures { result ≡ half_at at cell }
{
    if at % 2 == 0 {
        return (cell % 4294967296) as u32;
    }
    (cell / 4294967296) as u32
}

/// The cell of the words of a row at a column and beside it.
pub(crate) fn pair_told(row: &[u32], at: u32) -> u64
    requires { at < length row.now }
    ensures { result ≡ pair_at row.now at }
{
    let low = at as usize / 2 * 2;
    if low + 1 < row.len() {
        return u64::from(row[low]) + u64::from(row[low + 1]) * 4294967296;
    }
    u64::from(row[low])
}

ghost use Rattle.std.specs.Prelude.{◌≡◌, ◌<◌, ◌≤◌, All, MatchOption, length, map};
ghost use Rattle.field_table.specs.Residues.{product_of};
ghost use Rattle.back_reduce.specs.Problems.{row_of};
ghost use Rattle.pivot_core.specs.Views.{lead_at, zeros};
ghost use Rattle.pivot_core.specs.Words.{holder_in, row_in, stamp_in};

use back_reduce::Problem;
use field_table::Field;
use lane_kernel::axpy_lanes;

/// The first column at which a row is not 0.
pub(crate) fn lead(row: &[u32]) -> Option<usize>
    ensures { MatchOption result (length row.now ≤ lead_at row.now)
        (λ at. (at ≡ lead_at row.now) × (at < length row.now)) }
{
    for at in 0..row.len() {
        if row[at] != 0 {
            return Some(at);
        }
    }
    None
}

/// Writes a multiple of a row that is 0 before a place over another.
pub(crate) fn scale(field: &Field, a: u32, from: usize, row: &[u32], multiple: &mut [u32])
    requires factor { a < field.now }
    requires residues { All (λ r. r < field.now) row.now }
    requires before { from ≤ lead_at row.now }
    requires within { from ≤ length row.now }
    requires length { length multiple.old ≡ length row.now }
    ensures { multiple.new ≡ map (λ r. product_of field.now a r) row.now }
{
    clear(multiple);
    axpy_lanes(field, &mut multiple[from..], a, &row[from..]);
}

/// Writes a row of the problem over another.
pub(crate) fn copy_row(problem: &Problem, r: u32, row: &mut [u32])
    requires row { r < problem.now.n }
    requires length { length row.old ≡ problem.now.m }
    ensures { row.new ≡ row_of problem.now.rows.items r }
{
    problem.rows[r as usize].write(row);
}

/// Makes a list zeros.
pub fn clear(row: &mut [u32])
    ensures { row.new ≡ zeros (length row.old) }
{
    row.fill(0);
}

/// Makes a row that is 0 before a place zeros.
pub(crate) fn clear_from(from: usize, row: &mut [u32])
    requires before { from ≤ lead_at row.old }
    requires within { from ≤ length row.old }
    ensures { row.new ≡ zeros (length row.old) }
{
    clear(&mut row[from..]);
}

/// The stamp in a claim word.
pub(crate) fn stamp_told(word: u64) -> u32
    ensures { result ≡ stamp_in word }
{
    (word / 4294967296) as u32
}

/// The row in a claim word other than 0.
pub(crate) fn row_told(word: u64) -> u32
    ensures { result ≡ row_in word }
{
    let low = (word % 4294967296) as u32;
    if low == 0 {
        return 0;
    }
    low - 1
}

/// The row that holds the column of a claim word, where one does.
pub fn holder_told(word: u64) -> Option<u32>
    ensures { result ≡ holder_in word }
{
    if word == 0 {
        return None;
    }
    Some(row_told(word))
}

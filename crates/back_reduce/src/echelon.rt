ghost use Rattle.std.specs.Prelude.{◌≡◌, ◌<◌, All, IfOk, length, replicate, true};
ghost use Rattle.std.specs.List.{AllZip};
ghost use Rattle.back_reduce.specs.Leaders.{AreLeaders, AreLeadersOf, AreMarked, IsLeaderAmong, IsReducedRow};
ghost use Rattle.back_reduce.specs.Problems.{rows_of};
ghost use Rattle.back_reduce.specs.Rref.{IsRref};
ghost use Rattle.back_reduce.specs.Table.{IsLeader};

use crate::NoMemory;
use crate::pivots::PivotRows;
use crate::row::Row;
use crate::table::clear_entry;
use field_table::Field;
use rayon::prelude::*;
use std::alloc::Global;
use std::thread::Threads;

/// A column that is held, and its row.
#[derive(Debug, Drop)]
pub struct Leader {
    pub column: u32,
    pub row: Row,
}

/// The reduced row echelon form of the span of the problem's rows, by rising leading column. The rows are reduced
/// side by side, in threads.
pub fn reduced<R: Threads + Sync, P: PivotRows>(
    rt: &R,
    alloc: Global,
    field: &Field,
    pivots: &P,
) -> Result<Vec<Row>, NoMemory>
    requires { (P.given pivots.now).modulus ≡ field.now }
    ensures { let problem = P.given pivots.now in
        IfOk result (λ echelon. IsRref problem.modulus problem.m (rows_of problem) echelon.items) }
{
    let leaders = leaders_of(alloc, pivots)?;
    let marks = marks_of(alloc, pivots.problem().m, leaders.as_slice())?;
    reduced_rows(rt, alloc, field, leaders.as_slice(), marks.as_slice())
}

/// The held columns, rising, with their rows.
fn leaders_of<P: PivotRows>(alloc: Global, pivots: &P) -> Result<Vec<Leader>, NoMemory>
    ensures { IfOk result (λ leaders. AreLeadersOf (P.given pivots.now) leaders.items) }
{
    let m = pivots.problem().m;
    let mut leaders = Vec::new(alloc);
    for column in 0..m {
        if pivots.holder(column).is_some() {
            let row = pivots.row(alloc, column)?;
            leaders.push(Leader { column, row })?;
        }
    }
    Ok(leaders)
}

/// A mark for each column, which is set at those that are held.
fn marks_of(alloc: Global, m: u32, leaders: &[Leader]) -> Result<Vec<bool>, NoMemory>
    requires { All (λ leader. leader.column < m) leaders.now }
    ensures size { IfOk result (λ marks. length marks.items ≡ m) }
    ensures marked { IfOk result (λ marks. AreMarked leaders.now marks.items) }
{
    let mut marks = vec![in alloc; false; m as usize]?;
    for leader in leaders {
        marks[leader.column as usize] = true;
    }
    Ok(marks)
}

/// Each row, reduced by those of later columns. Each part of the rows has a buffer.
fn reduced_rows<R: Threads + Sync>(
    rt: &R,
    alloc: Global,
    field: &Field,
    leaders: &[Leader],
    marks: &[bool],
) -> Result<Vec<Row>, NoMemory>
    requires { All (IsLeaderAmong field.now leaders.now marks.now) leaders.now }
    ensures { IfOk result (λ echelon. AllZip (λ own row. IsReducedRow field.now leaders.now own.column own.row row)
        leaders.now echelon.items) }
{
    leaders
        .par_iter()
        .with_min_len(rows_a_part(leaders))
        .map_init(
            move || Vec::new(alloc),
            move |buffer: &mut Vec<u32>, own: &Leader| -> Result<Row, NoMemory>
                requires { IsLeaderAmong field.now leaders.now marks.now own.now }
                ensures { IfOk result (λ row. IsReducedRow field.entry.now leaders.entry.now own.now.column
                    own.now.row row) }
            { reduced_row(alloc, field, leaders, marks, buffer, own) },
        )
        .collect::<Result<Vec<Row>, NoMemory>>(rt, alloc)?
}

/// How many rows a thread is to have at least. Where rows are few and short, they are done before threads have begun;
/// the rows are the same in any parts.
fn rows_a_part(leaders: &[Leader]) -> usize {
    let mut residues = 0usize;
    for leader in leaders {
        residues = residues.saturating_add(leader.row.size());
    }
    (4_194_304 / residues.max(1)).max(1)
}

/// The row, reduced by those of later columns. One that is 0 at these is copied.
fn reduced_row(
    alloc: Global,
    field: &Field,
    leaders: &[Leader],
    marks: &[bool],
    buffer: &mut Vec<u32>,
    own: &Leader,
) -> Result<Row, NoMemory>
    requires { IsLeaderAmong field.now leaders.now marks.now own.now }
    ensures { IfOk result (λ row. IsReducedRow field.now leaders.now own.now.column own.now.row row) }
{
    if own.row.is_clear(marks, own.column) {
        return own.row.copy(alloc);
    }
    make_long(alloc, buffer, own.row.len())?;
    own.row.write(buffer.as_mut_slice());
    clear_later(field, leaders, own.column, buffer.as_mut_slice());
    Row::from_residues(alloc, buffer.as_slice())
}

/// Gives a buffer its length, where it has another.
fn make_long(alloc: Global, buffer: &mut Vec<u32>, n: usize) -> Result<(), NoMemory>
    ensures { IfOk result (λ _. length buffer.new.items ≡ n) }
{
    if buffer.len() != n {
        *buffer = vec![in alloc; 0u32; n]?;
    }
    Ok(())
}

/// Adds multiples of the rows of later columns, so that the row is 0 at each of these. Column by column from the left,
/// since a multiple changes nothing before its column.
fn clear_later(field: &Field, leaders: &[Leader], column: u32, row: &mut [u32])
    requires leaders { AreLeaders field.now (length row.old) leaders.now }
    requires own { IsLeader field.now (length row.old) column row.old }
    ensures { IsReducedRow field.now leaders.now column row.old row.new }
{
    for later in leaders {
        if later.column <= column {
            continue;
        }
        let at = later.column as usize;
        if row[at] == 0 {
            continue;
        }
        clear_entry(field, row, at, &later.row);
    }
}

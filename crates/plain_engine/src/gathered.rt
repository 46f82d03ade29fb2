ghost use Rattle.std.specs.Prelude.{◌*◌, ◌≤◌, All, IfOk, OnOk, length};
ghost use Rattle.back_reduce.specs.Rows.{IsRow};
ghost use Rattle.back_reduce.specs.Rref.{IsRref};
ghost use Rattle.plain_engine.specs.Spans.{HaveOneSpan, IsGathered};

use back_reduce::{Problem, Row, eliminate, reduced};
use field_table::Field;
use std::alloc::Global;
use std::mem;
use std::thread::Threads;
use words::NoMemory;

/// Rows over the words of a degree, of which those that were reduced come first, and whether one leads at each word.
#[derive(Debug, Drop)]
pub(crate) struct Gathered {
    pub degree: u32,
    pub rows: Vec<Row>,
    pub full: bool,
}

/// Puts the echelon form of the rows into their place, where there are more than twice as many as columns.
pub(crate) fn make_room<R: Threads + Sync>(
    rt: &R,
    alloc: Global,
    field: &Field,
    m: u32,
    gathered: &mut Gathered,
) -> Result<(), NoMemory>
    requires narrow { m ≤ 4096 }
    requires gathered { IsGathered field.now m gathered.old }
    ensures gathered { OnOk result (IsGathered field.now m gathered.new) }
    ensures room { OnOk result (length gathered.new.rows.items ≤ 2 * m) }
    ensures span { OnOk result (HaveOneSpan field.now gathered.old.rows.items gathered.new.rows.items) }
{
    if gathered.rows.len() <= 2 * m as usize {
        return Ok(());
    }
    let rows = mem::replace(&mut gathered.rows, Vec::new(alloc));
    let echelon = echelon_of(rt, alloc, field, gathered.degree, m, rows)?;
    gathered.full = echelon.len() == m as usize;
    gathered.rows = echelon;
    Ok(())
}

/// The reduced row echelon form of rows over the m words of degree d.
pub(crate) fn echelon_of<R: Threads + Sync>(
    rt: &R,
    alloc: Global,
    field: &Field,
    d: u32,
    m: u32,
    rows: Vec<Row>,
) -> Result<Vec<Row>, NoMemory>
    requires narrow { m ≤ 4096 }
    requires each { All (IsRow field.now m) rows.items }
    requires few { length rows.items ≤ 8193 }
    ensures form { IfOk result (λ echelon. IsRref field.now m rows.items echelon.items) }
    ensures few { IfOk result (λ echelon. length echelon.items ≤ m) }
{
    let problem = Problem {
        degree: d,
        modulus: field.modulus(),
        m,
        n: rows.len() as u32,
        rows,
    };
    let pivots = eliminate(alloc, field, problem)?;
    reduced(rt, alloc, field, &pivots)
}

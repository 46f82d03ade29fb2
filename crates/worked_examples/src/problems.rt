ghost use Rattle.std.specs.Prelude.{◌≡◌, ◌<◌, ◌≤◌, IfOk, IfSome};

use crate::presented::{Algebra, algebra_of, assert_words, residues};
use back_reduce::{PivotRows, Problem, Row, eliminate, reduced};
use degree_loop::{Matrix, matrix_of};
use field_table::{Field, NoMemory};
use ideal_laws::Limits;
use lane_kernel::axpy_lanes;
use pivot_core::{Core, CorePivots, Event, Kind};
use std::alloc::Global;
use std::process::Abort;
use std::test::Fail;
use std::thread::Threads;

/// The problem of n rows of m residues, where the cells are that.
fn problem_of(
    alloc: Global,
    field: &Field,
    m: u32,
    n: u32,
    cells: &[u32],
) -> Result<Option<Problem>, NoMemory>
    ensures { IfOk result (λ found. IfSome found (λ problem. problem.modulus ≡ field.now)) }
{
    let modulus = field.modulus();
    if m > 8 || n > 8 || cells.len() != (n * m) as usize || !cells.iter().all(|a| *a < modulus) {
        return Ok(None);
    }
    Ok(Some(Problem::from_cells(alloc, 0, modulus, m, n, cells)?))
}

/// The residues of a row, those that are 0 too.
fn residues_of(alloc: Global, row: &Row) -> Result<Vec<u32>, NoMemory> {
    let mut found = vec![in alloc; 0u32; row.len()]?;
    row.write(found.as_mut_slice());
    Ok(found)
}

/// The rows have these residues.
pub fn assert_rows(
    rt: &impl Abort,
    alloc: Global,
    rows: &[Row],
    wanted: &[&[u32]],
) -> Result<(), Fail> {
    assert_eq!(rt; rows.len(), wanted.len());
    for (row, residues) in rows.iter().zip(wanted) {
        let found = residues_of(alloc, row)?;
        assert_eq!(rt; found.as_slice(), *residues);
    }
    Ok(())
}

/// In degree 4 both rows of x^2-y*x leave x*y^2*x-y^3*x, and the first one holds its column.
#[test]
fn equal_rows_have_one_pivot(rt: HostRuntime) -> Result<(), Fail> {
    let alloc = rt.alloc();
    let algebra = algebra_of(&rt, alloc, "vars x,y; x^2-y*x;", 3)?;
    let Algebra {
        field,
        given,
        basis,
    } = algebra;
    let matrix = matrix_of(&rt, alloc, &field, &given, &basis, 4, &Limits::standard())?;
    let Matrix { closed, problem } = matrix;
    assert_words(&rt, closed.contested(), &[&[0, 1, 1, 0], &[1, 1, 1, 0]]);
    assert_eq!(rt; (problem.n, problem.m), (2, 2));
    assert_rows(&rt, alloc, problem.rows.as_slice(), &[&[1, 100], &[1, 100]])?;
    let pivots = eliminate(alloc, &field, problem)?;
    assert_eq!(rt; [pivots.holder(0), pivots.holder(1)], [Some(0), None]);
    assert_eq!(rt; pivots.value(0, 1), 100);
    Ok(())
}

#[test]
fn a_row_is_reduced_by_the_one_below(rt: HostRuntime) -> Result<(), Fail> {
    let alloc = rt.alloc();
    let field = residues(&rt, alloc, 7)?;
    let Some(problem) = problem_of(alloc, &field, 3, 2, &[1, 2, 3, 0, 1, 4])? else {
        return Err(Fail::new("no problem"));
    };
    let pivots = eliminate(alloc, &field, problem)?;
    let echelon = reduced(&rt, alloc, &field, &pivots)?;
    assert_rows(&rt, alloc, echelon.as_slice(), &[&[1, 0, 2], &[0, 1, 4]])
}

/// A list and a multiple of another, where these are residues and both have one length.
fn added(
    alloc: Global,
    field: &Field,
    y: &[u32],
    a: u32,
    x: &[u32],
) -> Result<Option<Vec<u32>>, NoMemory> {
    let p = field.modulus();
    if a >= p || x.len() != y.len() || !x.iter().all(|r| *r < p) || !y.iter().all(|r| *r < p) {
        return Ok(None);
    }
    let mut sum = Vec::from_slice(alloc, y)?;
    axpy_lanes(field, sum.as_mut_slice(), a, x);
    Ok(Some(sum))
}

#[test]
fn multiples_are_added_modulo_7(rt: HostRuntime) -> Result<(), Fail> {
    let alloc = rt.alloc();
    let field = residues(&rt, alloc, 7)?;
    let cases: [(&[u32], u32, &[u32], &[u32]); 3] = [
        (&[1, 2], 3, &[4, 5], &[6, 3]),
        (&[], 3, &[], &[]),
        (&[1; 9], 6, &[1; 9], &[0; 9]),
    ];
    for (y, a, x, wanted) in cases {
        match added(alloc, &field, y, a, x)? {
            Some(sum) => assert_eq!(rt; sum.as_slice(), wanted),
            None => panic!(rt; "no residues"),
        }
    }
    Ok(())
}

/// The pivots that a crew finds, whose seats take their steps in the order of a generator that begins with this number.
fn raced(
    alloc: Global,
    field: &Field,
    problem: Problem,
    crew: u32,
    begin: u32,
) -> Result<Option<CorePivots>, NoMemory>
    requires some { 0 < crew }
    requires few { crew ≤ 64 }
    requires field { field.now ≡ problem.modulus }
    ensures { IfOk result (λ found. IfSome found (λ pivots. pivots.problem ≡ problem)) }
{
    let mut core = Core::new(alloc, field, problem, crew)?;
    let mut number = begin;
    for _ in 0..100_000 {
        if core.ended() {
            return Ok(Some(core.finish()));
        }
        number = number.wrapping_mul(1_664_525).wrapping_add(1_013_904_223);
        step(&mut core, number / 65_536 % crew);
    }
    Ok(None)
}

/// Makes the next step of a seat, where it has one.
fn step(core: &mut Core, seat: u32)
    ensures { core.new.problem ≡ core.old.problem }
{
    for kind in [Kind::Draw, Kind::Look, Kind::Put, Kind::Claim, Kind::Read] {
        if core.step(Event { seat, kind }).is_some() {
            return;
        }
    }
}

/// Whatever order the steps take, a crew finds the echelon form that one thread finds.
fn assert_one_form<R: Abort + Threads + Sync>(
    rt: &R,
    alloc: Global,
    field: &Field,
    m: u32,
    n: u32,
    cells: &[u32],
) -> Result<(), Fail> {
    let Some(problem) = problem_of(alloc, field, m, n, cells)? else {
        return Err(Fail::new("no problem"));
    };
    let pivots = eliminate(alloc, field, problem)?;
    let wanted = reduced(rt, alloc, field, &pivots)?;
    for crew in 1..9 {
        for begin in 0..20 {
            let Some(problem) = problem_of(alloc, field, m, n, cells)? else {
                return Err(Fail::new("no problem"));
            };
            let Some(pivots) = raced(alloc, field, problem, crew, begin)? else {
                return Err(Fail::new("the seats go on"));
            };
            let found = reduced(rt, alloc, field, &pivots)?;
            assert_eq!(rt; found.len(), wanted.len(), "{crew} from {begin}");
            for (row, other) in found.iter().zip(wanted.as_slice()) {
                let residues = residues_of(alloc, row)?;
                let others = residues_of(alloc, other)?;
                assert_eq!(rt;
                    residues.as_slice(),
                    others.as_slice(),
                    "{crew} from {begin}"
                );
            }
        }
    }
    Ok(())
}

/// Equal rows, a row of 0 and rows that are sums of others among them.
#[test]
fn each_schedule_finds_one_echelon_form(rt: HostRuntime) -> Result<(), Fail> {
    let alloc = rt.alloc();
    let cases: [(u32, u32, u32, &[u32]); 5] = [
        (101, 2, 2, &[1, 100, 1, 100]),
        (101, 3, 2, &[1, 2, 3, 2, 4, 7]),
        (7, 3, 4, &[1, 2, 3, 2, 4, 6, 0, 1, 4, 0, 0, 0]),
        (
            2,
            4,
            7,
            &[
                1, 1, 0, 0, 0, 1, 1, 0, 0, 0, 1, 1, 1, 0, 0, 1, 1, 1, 1, 1, 1, 0, 1, 0, 0, 1, 0, 1,
            ],
        ),
        (
            1000003,
            4,
            5,
            &[
                1, 1, 1, 1, 1, 2, 4, 8, 1, 3, 9, 27, 1, 4, 16, 64, 1, 5, 25, 125,
            ],
        ),
    ];
    for (modulus, m, n, cells) in cases {
        let field = residues(&rt, alloc, modulus)?;
        assert_one_form(&rt, alloc, &field, m, n, cells)?;
    }
    Ok(())
}

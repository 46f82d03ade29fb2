ghost use Rattle.std.specs.Prelude.{All};
ghost use Rattle.free_poly.specs.Terms.{HasResidues};
ghost use Rattle.ideal_laws.specs.Engine.{IsNextDegree};
ghost use Rattle.ideal_laws.specs.Limits.{AreLimits};

use crate::presented::{Algebra, algebra_of, assert_elements, assert_words, presented, residues};
use bg_io::PlannedGate;
use degree_loop::{CoreEngine, RaceEngine, SeqEngine};
use field_table::Field;
use ideal_laws::{
    Answer, Basis, Call, DegreeEngine, EngineFault, LimitKind, Limits, Presentation, advance,
};
use plain_engine::PlainEngine;
use std::alloc::Global;
use std::process::Abort;
use std::test::Fail;
use std::thread::Threads;

/// The standard limits but for one, which is at most 4096.
fn limited(kind: LimitKind, most: u32) -> Limits
    ensures { AreLimits result }
{
    let most = most.min(4096);
    let mut limits = Limits::standard();
    match kind {
        LimitKind::PlainWords => limits.plain_words = most,
        LimitKind::Rows => limits.rows = most,
        LimitKind::Columns => limits.columns = most,
        LimitKind::Entries => limits.entries = most,
        LimitKind::Cells => limits.cells = most,
        LimitKind::Terms => limits.terms = most,
        LimitKind::NormalWords => limits.normal_words = most,
    }
    limits
}

/// The engine finds the one element of degree 4, or refuses this quantity.
fn assert_degree<R: Abort + Threads + Sync, E: DegreeEngine>(
    rt: &R,
    alloc: Global,
    engine: &mut E,
    algebra: &Algebra,
    refused: Option<(LimitKind, u64)>,
) -> Result<(), Fail>
    requires next { IsNextDegree algebra.now.field algebra.now.given algebra.now.basis 4 }
{
    match engine.degree(rt, alloc, &algebra.field, &algebra.given, &algebra.basis, 4) {
        Ok(report) => {
            assert_eq!(rt; None, refused);
            let elements = report.elements.as_slice();
            assert_elements(
                rt,
                alloc,
                &algebra.field,
                elements,
                "vars x,y; x*y^2*x-y^3*x;",
                "4",
            )
        }
        Err(fault) => {
            assert_refused(rt, fault, refused);
            Ok(())
        }
    }
}

/// The fault is that this quantity of degree 4 passes its limit.
pub fn assert_refused(rt: &impl Abort, fault: EngineFault, refused: Option<(LimitKind, u64)>) {
    match fault {
        EngineFault::Limit {
            kind,
            degree,
            value,
        } => assert_eq!(rt; (degree, Some((kind, value))), (4, refused)),
        EngineFault::NoMemory => panic!(rt; "no memory"),
    }
}

/// The same of the race of one, two and four workers.
fn assert_races<R: Abort + Threads + Sync>(
    rt: &R,
    alloc: Global,
    limits: Limits,
    algebra: &Algebra,
    refused: Option<(LimitKind, u64)>,
) -> Result<(), Fail>
    requires limits { AreLimits limits }
    requires next { IsNextDegree algebra.now.field algebra.now.given algebra.now.basis 4 }
{
    let gate = PlannedGate::open(alloc);
    for workers in [1, 2, 4] {
        assert!(rt; 1 <= workers && workers <= 64);
        let mut race = RaceEngine::new(limits, workers, &gate);
        assert_degree(rt, alloc, &mut race, algebra, refused)?;
    }
    Ok(())
}

/// In degree 4 the algebra of x^2-y*x has 16 words, 2 rows, 4 columns, 8 entries and 4 cells, and with it the basis has
/// 6 terms.
#[test]
fn a_quantity_above_its_limit_is_refused(rt: HostRuntime) -> Result<(), Fail> {
    let alloc = rt.alloc();
    let algebra = algebra_of(&rt, alloc, "vars x,y; x^2-y*x;", 3)?;
    for (kind, quantity) in [
        (LimitKind::PlainWords, 16),
        (LimitKind::Rows, 2),
        (LimitKind::Columns, 4),
        (LimitKind::Entries, 8),
        (LimitKind::Cells, 4),
        (LimitKind::Terms, 6),
    ] {
        let is_plain = kind == LimitKind::PlainWords;
        for below in [0, 1] {
            let limits = limited(kind, quantity - below);
            let passed = if below == 0 {
                None
            } else {
                Some((kind, u64::from(quantity)))
            };
            let (plain, others) = if is_plain {
                (passed, None)
            } else {
                (None, passed)
            };
            assert_degree(&rt, alloc, &mut PlainEngine::new(limits), &algebra, plain)?;
            assert_degree(&rt, alloc, &mut SeqEngine::new(limits), &algebra, others)?;
            let mut core = CoreEngine::new(limits, 2, 0);
            assert_degree(&rt, alloc, &mut core, &algebra, others)?;
            assert_races(&rt, alloc, limits, &algebra, others)?;
        }
    }
    Ok(())
}

/// The accounts of the sequential engine, degree by degree, tell so many rows and contested columns.
fn assert_accounts<R: Abort + Threads + Sync>(
    rt: &R,
    alloc: Global,
    field: &Field,
    given: &Presentation,
    told: &[(u32, usize)],
) -> Result<(), Fail>
    requires { All (HasResidues field.now) given.now.relations }
{
    assert!(rt; told.len() <= 64);
    let mut engine = SeqEngine::new(Limits::standard());
    let mut basis = Basis::new(alloc, &given.alphabet);
    for (rows, columns) in told {
        let account = advance(rt, alloc, &mut engine, field, given, &mut basis)?;
        let columns_found = account.columns.as_slice().len();
        let calls = account.calls.as_slice().len();
        let degree = basis.done();
        assert_eq!(rt;
            (account.rows, columns_found, calls),
            (*rows, *columns, 0),
            "degree {degree}"
        );
    }
    assert_eq!(rt; basis.done() as usize, told.len());
    Ok(())
}

/// Rows and contested columns of each degree, by hand.
#[test]
fn accounts_tell_rows_and_contested_columns(rt: HostRuntime) -> Result<(), Fail> {
    let alloc = rt.alloc();
    let field = residues(&rt, alloc, 101)?;
    let square = presented(&rt, alloc, &field, "vars x,y; x^2-y*x;")?;
    let told = &[(0, 0), (1, 2), (1, 2), (2, 2), (3, 2), (4, 2)];
    assert_accounts(&rt, alloc, &field, &square, told)?;
    let heavy = presented(&rt, alloc, &field, "vars x:2,y; x^2-y^4;")?;
    let told = &[(0, 0), (0, 0), (0, 0), (1, 2), (0, 0), (1, 2)];
    assert_accounts(&rt, alloc, &field, &heavy, told)
}

/// Both rows of degree 4 are drawn, and the one of seat 0 wins their column before the other comes there.
#[test]
fn an_account_tells_the_calls_of_its_schedule(rt: HostRuntime) -> Result<(), Fail> {
    let alloc = rt.alloc();
    let algebra = algebra_of(&rt, alloc, "vars x,y; x^2-y*x;", 3)?;
    let Algebra {
        field,
        given,
        basis,
    } = algebra;
    let mut core = CoreEngine::new(Limits::standard(), 2, 0);
    let report = core.degree(&rt, alloc, &field, &given, &basis, 4)?;
    let account = report.account;
    assert_eq!(rt; account.rows, 2);
    assert_words(
        &rt,
        account.columns.as_slice(),
        &[&[0, 1, 1, 0], &[1, 1, 1, 0]],
    );
    let won = Call {
        seat: 0,
        stamp: 1,
        column: 0,
        row: 0,
        answer: Answer::Won,
    };
    assert_eq!(rt; account.calls.as_slice(), [won].as_slice());
    Ok(())
}

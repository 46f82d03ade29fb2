ghost use Rattle.std.specs.Prelude.{◌≡◌, ◌≤◌, All, IfOk};
ghost use Rattle.free_poly.specs.Terms.{HasResidues};
ghost use Rattle.ideal_laws.specs.Engine.{IsReducedUpto};

use crate::presented::{algebra_of, assert_basis, assert_same, presented, residues};
use bg_io::PlannedGate;
use degree_loop::{CoreEngine, RaceEngine, SeqEngine};
use field_table::Field;
use hilbert::{SeriesFault, series};
use ideal_laws::{Basis, EngineFault, Limits, Presentation, lower_law, run, setting_law};
use plain_engine::PlainEngine;
use std::alloc::Global;
use std::process::Abort;
use std::test::Fail;
use std::thread::Threads;

/// The reduced basis up to a degree, which all engines find.
pub fn basis_of<R: Abort + Threads + Sync>(
    rt: &R,
    alloc: Global,
    field: &Field,
    given: &Presentation,
    done: u32,
    case: &str,
) -> Result<Basis, Fail>
    requires some { 1 ≤ done }
    requires small { done ≤ 64 }
    requires residues { All (HasResidues field.now) given.now.relations }
    ensures done { IfOk result (λ basis. basis.done ≡ done) }
    ensures weights { IfOk result (λ basis. basis.weights ≡ given.now.alphabet.weights) }
    ensures reduced { IfOk result (IsReducedUpto field.now given.now.relations) }
{
    let mut plain = PlainEngine::new(Limits::standard());
    let basis = run(rt, alloc, &mut plain, field, given, done)?;
    let mut sequential = SeqEngine::new(Limits::standard());
    let found = run(rt, alloc, &mut sequential, field, given, done)?;
    assert_equal(rt, &found, &basis, case);
    for workers in [1, 2, 3, 8] {
        assert!(rt; 1 <= workers && workers <= 64);
        for schedule in [0, 1, 7] {
            let mut core = CoreEngine::new(Limits::standard(), workers, schedule);
            let found = run(rt, alloc, &mut core, field, given, done)?;
            assert_equal(rt, &found, &basis, case);
        }
    }
    for workers in [1, 2, 4] {
        assert!(rt; 1 <= workers && workers <= 64);
        let found = raced_basis(rt, alloc, field, given, done, workers)?;
        assert_equal(rt, &found, &basis, case);
    }
    Ok(basis)
}

/// The basis that so many workers find, each passing an open gate.
fn raced_basis<R: Threads + Sync>(
    rt: &R,
    alloc: Global,
    field: &Field,
    given: &Presentation,
    done: u32,
    workers: u32,
) -> Result<Basis, EngineFault>
    requires some { 1 ≤ done }
    requires small { done ≤ 64 }
    requires worker { 1 ≤ workers }
    requires few { workers ≤ 64 }
    requires residues { All (HasResidues field.now) given.now.relations }
{
    let gate = PlannedGate::open(alloc);
    let mut race = RaceEngine::new(Limits::standard(), workers, &gate);
    run(rt, alloc, &mut race, field, given, done)
}

/// Both bases have the same elements.
fn assert_equal(rt: &impl Abort, found: &Basis, wanted: &Basis, case: &str) {
    assert_eq!(rt; found.len(), wanted.len(), "{case}");
    for place in 0..found.len() {
        assert_same(rt, found.element(place), wanted.element(place), case);
    }
}

/// The coefficients up to the last degree of a reduced basis.
fn numbers_of(
    alloc: Global,
    field: &Field,
    given: &Presentation,
    basis: &Basis,
    limits: &Limits,
) -> Result<Vec<u64>, SeriesFault>
    requires residues { All (HasResidues field.now) given.now.relations }
    requires weights { basis.now.weights ≡ given.now.alphabet.weights }
    requires reduced { IsReducedUpto field.now given.now.relations basis.now }
{
    setting_law(field, given);
    lower_law();
    series(alloc, &given.alphabet, basis, basis.done(), limits)
}

/// All engines find this basis, and its coefficients up to the last degree are these.
fn assert_algebra<R: Abort + Threads + Sync>(
    rt: &R,
    alloc: Global,
    modulus: u32,
    text: &str,
    elements: Option<&str>,
    numbers: &[u64],
) -> Result<(), Fail> {
    assert!(rt; 2 <= numbers.len() && numbers.len() <= 65);
    let bound = numbers.len() as u32 - 1;
    let field = residues(rt, alloc, modulus)?;
    let given = presented(rt, alloc, &field, text)?;
    let basis = basis_of(rt, alloc, &field, &given, bound, text)?;
    if let Some(elements) = elements {
        assert_basis(rt, alloc, &field, &basis, elements, text)?;
    }
    let counted = numbers_of(alloc, &field, &given, &basis, &Limits::standard())?;
    assert_eq!(rt; counted.as_slice(), numbers, "{text}");
    Ok(())
}

/// Presentations modulo a number with their bases and coefficients, by hand.
#[test]
fn small_algebras_have_their_bases(rt: HostRuntime) -> Result<(), Fail> {
    let alloc = rt.alloc();
    let cases: [(u32, &str, &str, &[u64]); 16] = [
        (
            101,
            "vars x,y; x*y-y*x;",
            "vars x,y; x*y-y*x;",
            &[1, 2, 3, 4],
        ),
        (
            101,
            "vars x,y,z; x^2, y^2, z^2, x*y+y*x, x*z+z*x, y*z+z*y;",
            "vars x,y,z; x^2, x*y+y*x, x*z+z*x, y^2, y*z+z*y, z^2;",
            &[1, 3, 3, 1, 0],
        ),
        (
            101,
            "vars x,y; x^2-y*x;",
            "vars x,y; x^2-y*x, x*y*x-y^2*x, x*y^2*x-y^3*x;",
            &[1, 2, 3, 4, 5],
        ),
        (101, "vars x,y; x-y;", "vars x,y; x-y;", &[1, 1, 1, 1]),
        (101, "vars x; x^3;", "vars x; x^3;", &[1, 1, 1, 0, 0]),
        (101, "vars x; x^3;", "vars x; ;", &[1, 1, 1]),
        (
            101,
            "vars x,y; x*y+y*x, x*y-y*x;",
            "vars x,y; x*y, y*x;",
            &[1, 2, 2, 2],
        ),
        (101, "vars x,y; ;", "vars x,y; ;", &[1, 2, 4, 8]),
        // In degree 10 there are 10,240 products over 1,024 words.
        (
            101,
            "vars x,y; x, y;",
            "vars x,y; x, y;",
            &[1, 0, 0, 0, 0, 0, 0, 0, 0, 0, 0],
        ),
        // The nilCoxeter algebra of the permutations of three places.
        (
            101,
            "vars x,y; x*y*x-y*x*y, x^2, y^2;",
            "vars x,y; x^2, y^2, x*y*x-y*x*y;",
            &[1, 2, 2, 1, 0, 0],
        ),
        // The two overlaps of x*y*x*y*x with itself have degrees 7 and 9.
        (
            101,
            "vars x,y; x*y*x*y*x-y^5;",
            "vars x,y; x*y*x*y*x-y^5, x*y^6-y^6*x;",
            &[1, 2, 4, 8, 16, 31, 60, 116],
        ),
        (
            101,
            "vars x:2,y; x^2-y^4;",
            "vars x:2,y; x^2-y^4, x*y^4-y^4*x;",
            &[1, 1, 2, 3, 4, 6, 8],
        ),
        (
            101,
            "vars x:3,y:2; x^2-y^3;",
            "vars x:3,y:2; x^2-y^3, x*y^3-y^3*x;",
            &[1, 0, 1, 1, 1, 2, 1, 3, 2, 3],
        ),
        (2, "vars x,y; x*y+y*x;", "vars x,y; x*y+y*x;", &[1, 2, 3]),
        (
            7,
            "vars x,y; 2*x*y-3*y*x;",
            "vars x,y; x*y+2*y*x;",
            &[1, 2, 3],
        ),
        (
            1000003,
            "vars x,y; 2*x*y-3*y*x;",
            "vars x,y; x*y+500000*y*x;",
            &[1, 2, 3],
        ),
    ];
    for (modulus, text, elements, numbers) in cases {
        assert_algebra(&rt, alloc, modulus, text, Some(elements), numbers)?;
    }
    Ok(())
}

/// Two regular algebras of dimension 3 (Artin and Schelter 1987), with the series 1/((1-t)^2(1-t^2)) and 1/(1-t)^3: the
/// enveloping algebra of the Heisenberg Lie algebra, and one of Sklyanin's.
#[test]
fn regular_algebras_have_their_coefficients(rt: HostRuntime) -> Result<(), Fail> {
    let alloc = rt.alloc();
    let cubic = "vars x,y; x^2*y-2*x*y*x+y*x^2, x*y^2-2*y*x*y+y^2*x;";
    let quadratic = "vars x,y,z; x*y+2*y*x+3*z^2, y*z+2*z*y+3*x^2, z*x+2*x*z+3*y^2;";
    for modulus in [101, 32003, 1000003] {
        assert_algebra(&rt, alloc, modulus, cubic, None, &[1, 2, 4, 6, 9, 12, 16])?;
        assert_algebra(&rt, alloc, modulus, quadratic, None, &[1, 3, 6, 10, 15, 21])?;
    }
    Ok(())
}

/// Words of degree 22 over five letters are too long to be packed into 64 bits.
#[test]
fn long_words_have_their_bases(rt: HostRuntime) -> Result<(), Fail> {
    let alloc = rt.alloc();
    let field = residues(&rt, alloc, 101)?;
    let given = presented(&rt, alloc, &field, "vars a,b,c,d,e; a^22-b^22;")?;
    let mut engine = SeqEngine::new(Limits::standard());
    let basis = run(&rt, alloc, &mut engine, &field, &given, 23)?;
    let elements = "vars a,b,c,d,e; a^22-b^22, a*b^22-b^22*a;";
    assert_basis(&rt, alloc, &field, &basis, elements, "long")
}

/// In degree 4 the algebra of x^2-y*x has 5 normal words.
#[test]
fn too_many_normal_words_are_refused(rt: HostRuntime) -> Result<(), Fail> {
    let alloc = rt.alloc();
    let algebra = algebra_of(&rt, alloc, "vars x,y; x^2-y*x;", 4)?;
    let mut limits = Limits::standard();
    limits.normal_words = 4;
    match numbers_of(
        alloc,
        &algebra.field,
        &algebra.given,
        &algebra.basis,
        &limits,
    ) {
        Err(
            SeriesFault::Limit {
                degree,
                value,
                below,
            },
        ) => {
            assert_eq!(rt; (degree, value), (4, 5));
            assert_eq!(rt; below.as_slice(), [1, 2, 3, 4].as_slice());
        }
        _ => panic!(rt; "no limit"),
    }
    Ok(())
}

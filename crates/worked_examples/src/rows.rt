ghost use Rattle.std.specs.Prelude.{◌≡◌, [], All, IfOk, IsTrue, Some, length};
ghost use Rattle.std.specs.List.{AllZip};
ghost use Rattle.free_poly.specs.Poly.{lead_of};
ghost use Rattle.free_poly.specs.Terms.{HasDegree, UsesLetters};
ghost use Rattle.ideal_laws.specs.Engine.{IsNextDegree, of_degree};
ghost use Rattle.ideal_laws.specs.Ideal.{ideal_of};
ghost use Rattle.ideal_laws.specs.Quantities.{AreRows, words_of};
ghost use Rattle.overlaps.specs.Listed.{AreListed, IsOf, IsRowFor};
ghost use Rattle.symbolic_prep.specs.Closed.{IsClosed};

use crate::engines::assert_refused;
use crate::monomials::assert_overlaps;
use crate::presented::{Algebra, algebra_of, assert_elements, assert_words};
use crate::problems::assert_rows;
use degree_loop::obstruction_rows;
use field_table::Field;
use free_poly::Poly;
use ideal_laws::{Basis, LimitKind, Limits, Presentation, next_degree_law};
use lead_index::index_of;
use overlaps::{Obstruction, obstructions};
use row_store::contested_rows;
use std::alloc::Global;
use std::process::Abort;
use std::test::Fail;
use std::thread::Threads;
use symbolic_prep::{Closed, close};
use words::NoMemory;

/// The columns are these words, told by their letters.
fn assert_columns(
    rt: &impl Abort,
    alloc: Global,
    closed: &Closed,
    wanted: &[&[u8]],
) -> Result<(), Fail> {
    let count = closed.len();
    assert!(rt; count as usize == wanted.len());
    for column in 0..count {
        let word = closed.word(alloc, column)?;
        assert_eq!(rt; word.letters(), wanted[column as usize]);
    }
    Ok(())
}

/// Of four columns the second and the third have reducers that go on with -1 at the last, and the others have none.
fn assert_tails(rt: &impl Abort, closed: &Closed) {
    assert!(rt; closed.len() == 4);
    for column in [1, 2] {
        match closed.tail(column) {
            Some((columns, residues)) => assert!(rt;
                columns == [3].as_slice() && residues == [100].as_slice()
            ),
            None => panic!(rt; "{column}"),
        }
    }
    assert!(rt; closed.tail(0).is_none() && closed.tail(3).is_none());
}

/// The rows of the degree above those of a reduced basis, where no relation has this degree.
fn rows_above<R: Threads + Sync>(
    rt: &R,
    alloc: Global,
    field: &Field,
    given: &Presentation,
    basis: &Basis,
    d: u32,
    found: &[Obstruction],
) -> Result<Vec<Poly>, NoMemory>
    requires next { IsNextDegree field.now given.now basis.now d }
    requires none { of_degree given.now.alphabet.weights d given.now.relations ≡ [] }
    requires listed { AreListed basis.now.weights basis.now.elements d found.now }
    ensures rows { IfOk result (λ rows. AreRows (ideal_of field.now given.now) basis.now.elements d rows.items) }
    ensures degree { IfOk result (λ rows. All (HasDegree basis.now.weights d) rows.items) }
    ensures letters { IfOk result (λ rows. All (UsesLetters (length basis.now.weights)) rows.items) }
{
    next_degree_law(field, given, basis, d);
    let rows = obstruction_rows(rt, alloc, field, basis, found)?;
    Ok(rows)
}

/// Whether the one relation leads with x*x, where x has weight 1.
fn is_quadratic(given: &Presentation) -> bool
    ensures { IsTrue result → of_degree given.now.alphabet.weights 4 given.now.relations ≡ [] }
{
    let relations = given.relations.as_slice();
    if relations.len() != 1 || given.alphabet.len() == 0 {
        return false;
    }
    given.alphabet.weight(0) == 1 && leads_with(&relations[0], &[0, 0])
}

fn leads_with(f: &Poly, word: &[u8]) -> bool
    ensures { IsTrue result → lead_of f.now ≡ Some word.now }
{
    match f.lead() {
        Some(lead) => lead.letters() == word,
        None => false,
    }
}

/// The rows of degree 4 leave x*y^2*x-y^3*x twice at the contested columns, which makes four cells.
fn assert_cells<R: Abort + Threads + Sync>(
    rt: &R,
    alloc: Global,
    algebra: &Algebra,
    rows: &[Poly],
    closed: &Closed,
) -> Result<(), Fail>
    requires next { IsNextDegree algebra.now.field algebra.now.given algebra.now.basis 4 }
    requires rows { AreRows (ideal_of algebra.now.field algebra.now.given) algebra.now.basis.elements 4 rows.now }
    requires closed { IsClosed algebra.now.basis.elements (words_of rows.now) closed.now }
{
    next_degree_law(&algebra.field, &algebra.given, &algebra.basis, 4);
    assert_eq!(rt; (rows.len(), closed.len()), (2, 4));
    for (cells, refused) in [(3, Some((LimitKind::Cells, 4))), (4, None)] {
        let mut limits = Limits::standard();
        limits.cells = cells;
        match contested_rows(rt, alloc, &algebra.field, closed, rows, 4, &limits) {
            Ok(problem) => {
                assert_eq!(rt; refused, None);
                assert_eq!(rt; (problem.n, problem.m), (2, 2));
                assert_rows(rt, alloc, problem.rows.as_slice(), &[&[1, 100], &[1, 100]])?;
            }
            Err(fault) => assert_refused(rt, fault, refused),
        }
    }
    Ok(())
}

/// The rows of degree 4 have a closure of four columns and eight entries.
fn assert_closures<R: Abort + Threads + Sync>(
    rt: &R,
    alloc: Global,
    algebra: &Algebra,
    rows: &[Poly],
) -> Result<(), Fail>
    requires next { IsNextDegree algebra.now.field algebra.now.given algebra.now.basis 4 }
    requires rows { AreRows (ideal_of algebra.now.field algebra.now.given) algebra.now.basis.elements 4 rows.now }
    requires degree { All (HasDegree algebra.now.basis.weights 4) rows.now }
    requires letters { All (UsesLetters (length algebra.now.basis.weights)) rows.now }
{
    next_degree_law(&algebra.field, &algebra.given, &algebra.basis, 4);
    let index = index_of(alloc, &algebra.basis)?;
    for (columns, entries, refused) in [
        (3, 8, Some((LimitKind::Columns, 4))),
        (4, 7, Some((LimitKind::Entries, 8))),
        (4, 8, None),
    ] {
        let mut limits = Limits::standard();
        limits.columns = columns;
        limits.entries = entries;
        match close(
            alloc,
            &algebra.field,
            &algebra.basis,
            &index,
            rows,
            4,
            &limits,
        ) {
            Ok(closed) => {
                assert_eq!(rt; refused, None);
                assert_columns(
                    rt,
                    alloc,
                    &closed,
                    &[&[0, 1, 1, 0], &[1, 0, 1, 0], &[1, 1, 0, 0], &[1, 1, 1, 0]],
                )?;
                assert_words(rt, closed.contested(), &[&[0, 1, 1, 0], &[1, 1, 1, 0]]);
                assert_tails(rt, &closed);
                assert_cells(rt, alloc, algebra, rows, &closed)?;
            }
            Err(fault) => assert_refused(rt, fault, refused),
        }
    }
    Ok(())
}

/// The leading words of x^2-y*x and x*y*x-y^2*x overlap twice in degree 4.
#[test]
fn rows_of_obstructions_close(rt: HostRuntime) -> Result<(), Fail> {
    let alloc = rt.alloc();
    let text = "vars x,y; x^2-y*x;";
    let algebra = algebra_of(&rt, alloc, text, 3)?;
    let basis = &algebra.basis;
    let first = (&[0, 0, 1, 0][..], 0, 1, 1);
    let second = (&[0, 1, 0, 0][..], 1, 0, 1);
    assert_overlaps(&rt, alloc, text, 3, 4, &[first, second])?;

    let found = obstructions(alloc, basis, 4, 2)?;
    assert!(rt; is_quadratic(&algebra.given));
    let rows = rows_above(
        &rt,
        alloc,
        &algebra.field,
        &algebra.given,
        basis,
        4,
        found.as_slice(),
    )?;
    assert_elements(
        &rt,
        alloc,
        &algebra.field,
        rows.as_slice(),
        "vars x,y; x*y^2*x-y*x*y*x, x*y^2*x-y^2*x^2;",
        "rows",
    )?;
    assert_closures(&rt, alloc, &algebra, rows.as_slice())
}

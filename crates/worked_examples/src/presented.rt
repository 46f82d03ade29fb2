ghost use Rattle.std.specs.Prelude.{◌+◌, All, IfOk};
ghost use Rattle.free_poly.specs.Terms.{HasResidues};
ghost use Rattle.ideal_laws.specs.Closure.{IsFactorFree};
ghost use Rattle.ideal_laws.specs.Engine.{IsNextDegree};

use field_table::{Field, listed_moduli_law};
use free_poly::Poly;
use ideal_laws::{Basis, Limits, Presentation, next_degree_law, run};
use plain_engine::PlainEngine;
use relation_reader::read;
use std::alloc::Global;
use std::process::Abort;
use std::test::Fail;
use std::thread::Threads;
use words::Word;

/// A presentation with its reduced basis up to some degree.
#[derive(Drop)]
pub struct Algebra {
    pub field: Field,
    pub given: Presentation,
    pub basis: Basis,
}

/// The residues of a listed modulus.
pub fn residues(rt: &impl Abort, alloc: Global, modulus: u32) -> Result<Field, Fail> {
    listed_moduli_law();
    let moduli = [2, 3, 5, 7, 11, 13, 101, 32003, 65521, 1000003];
    for place in 0..10 {
        if moduli[place] == modulus {
            return Ok(Field::new(alloc, moduli[place])?);
        }
    }
    panic!(rt; "{modulus} is not listed")
}

/// The letters and relations of a text.
pub fn presented(
    rt: &impl Abort,
    alloc: Global,
    field: &Field,
    text: &str,
) -> Result<Presentation, Fail>
    ensures { IfOk result (λ given. All (HasResidues field.now) given.relations) }
{
    assert!(rt; text.len() < 1000);
    Ok(read(alloc, field, text.as_bytes())?)
}

/// The algebra of a text modulo 101, with its basis up to a degree.
pub fn algebra_of<R: Abort + Threads + Sync>(
    rt: &R,
    alloc: Global,
    text: &str,
    done: u32,
) -> Result<Algebra, Fail>
    ensures next { IfOk result (λ a. IsNextDegree a.field a.given a.basis (done + 1)) }
    ensures factor_free { IfOk result (λ a. IsFactorFree a.basis.elements) }
{
    assert!(rt; 0 < done && done < 64);
    let field = residues(rt, alloc, 101)?;
    let given = presented(rt, alloc, &field, text)?;
    let mut plain = PlainEngine::new(Limits::standard());
    let basis = run(rt, alloc, &mut plain, &field, &given, done)?;
    next_degree_law(&field, &given, &basis, done + 1);
    Ok(Algebra {
        field,
        given,
        basis,
    })
}

/// The elements are the relations of the text.
pub fn assert_elements(
    rt: &impl Abort,
    alloc: Global,
    field: &Field,
    found: &[Poly],
    text: &str,
    case: &str,
) -> Result<(), Fail> {
    let wanted = presented(rt, alloc, field, text)?;
    let wanted = wanted.relations.as_slice();
    assert_eq!(rt; found.len(), wanted.len(), "{case}");
    for (one, other) in found.iter().zip(wanted) {
        assert_same(rt, one, other, case);
    }
    Ok(())
}

/// The elements of the basis are the relations of the text.
pub fn assert_basis(
    rt: &impl Abort,
    alloc: Global,
    field: &Field,
    basis: &Basis,
    text: &str,
    case: &str,
) -> Result<(), Fail> {
    let wanted = presented(rt, alloc, field, text)?;
    let wanted = wanted.relations.as_slice();
    assert_eq!(rt; basis.len() as usize, wanted.len(), "{case}");
    for place in 0..basis.len() {
        assert_same(rt, basis.element(place), &wanted[place as usize], case);
    }
    Ok(())
}

pub fn assert_same(rt: &impl Abort, found: &Poly, wanted: &Poly, case: &str) {
    let found = found.terms();
    let wanted = wanted.terms();
    assert_eq!(rt; found.len(), wanted.len(), "{case}");
    for (a, b) in found.iter().zip(wanted) {
        assert_eq!(rt; a.coefficient, b.coefficient, "{case}");
        assert_eq!(rt; a.word.letters(), b.word.letters(), "{case}");
    }
}

/// The words are these, told by their letters.
pub fn assert_words(rt: &impl Abort, found: &[Word], wanted: &[&[u8]]) {
    assert_eq!(rt; found.len(), wanted.len());
    for (word, letters) in found.iter().zip(wanted) {
        assert_eq!(rt; word.letters(), *letters);
    }
}

ghost use Rattle.std.specs.Prelude.{All, IsTrue};
ghost use Rattle.free_poly.specs.Poly.{IsMonic};

use crate::presented::{presented, residues};
use free_poly::Poly;
use poly_writer::degree_text;
use std::alloc::Global;
use std::process::Abort;
use std::test::Fail;

fn is_monic(element: &Poly) -> bool
    ensures { IsTrue result → IsMonic element.now }
{
    match element.terms() {
        [] => false,
        [first, ..] => first.coefficient == 1,
    }
}

fn are_monic(elements: &[Poly]) -> bool
    ensures { IsTrue result → All IsMonic elements.now }
{
    for element in elements {
        if !is_monic(element) {
            return false;
        }
    }
    true
}

/// The relations of a text are printed as the elements of a degree.
fn assert_printed(
    rt: &impl Abort,
    alloc: Global,
    modulus: u32,
    text: &str,
    degree: u32,
    want: &str,
) -> Result<(), Fail> {
    let field = residues(rt, alloc, modulus)?;
    let given = presented(rt, alloc, &field, text)?;
    let elements = given.relations.as_slice();
    assert!(rt; are_monic(elements));
    let found = degree_text(alloc, &given.alphabet, &field, degree, elements)?;
    assert_eq!(rt; found.as_slice(), want.as_bytes(), "{text}");
    Ok(())
}

/// A residue is printed with the sign that makes it small, and a word by its runs; a degree without elements is not.
#[test]
fn elements_print_balanced_and_by_runs(rt: HostRuntime) -> Result<(), Fail> {
    let alloc = rt.alloc();
    for (modulus, text, degree, want) in [
        (2, "vars x,y; ;", 3, ""),
        (2, "vars x,y; x^2, x^2+y*x;", 2, "% 2\nx^2\nx^2+y*x\n"),
        (
            3,
            "vars x,y; x^2+y*x, x^2+2*y*x;",
            2,
            "% 2\nx^2+y*x\nx^2-y*x\n",
        ),
        (
            101,
            "vars x,y; x^2+2*y*x, x^2+50*y*x, x^2+51*y*x, x^2+99*y*x, x^2+100*y*x;",
            2,
            "% 2\nx^2+2*y*x\nx^2+50*y*x\nx^2-50*y*x\nx^2-2*y*x\nx^2-y*x\n",
        ),
        (
            65521,
            "vars x,y; x^2+32760*y*x, x^2+32761*y*x, x^2+65520*y*x;",
            2,
            "% 2\nx^2+32760*y*x\nx^2-32760*y*x\nx^2-y*x\n",
        ),
        (
            1000003,
            "vars x,y; x^2+500001*y*x, x^2+500002*y*x, x^2+1000002*y*x;",
            2,
            "% 2\nx^2+500001*y*x\nx^2-500001*y*x\nx^2-y*x\n",
        ),
        (2, "vars x,y; y;", 1, "% 1\ny\n"),
        (
            2,
            "vars x,y; y*x*x*x*y, x*y*x*y*x;",
            5,
            "% 5\ny*x^3*y\nx*y*x*y*x\n",
        ),
        (2, "vars x; x^32*x^32;", 64, "% 64\nx^64\n"),
        (
            2,
            "vars x,y,a234567890b234567890c234567890d2; a234567890b234567890c234567890d2*a234567890b234567890c234567890d2*x;",
            3,
            "% 3\na234567890b234567890c234567890d2^2*x\n",
        ),
    ] {
        assert_printed(&rt, alloc, modulus, text, degree, want)?;
    }
    Ok(())
}

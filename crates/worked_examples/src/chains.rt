use crate::presented::algebra_of;
use anick_chains::{ChainFault, chain_counts, chain_text, chains, count_text};
use hilbert::series;
use ideal_laws::Limits;
use std::alloc::Global;
use std::process::Abort;
use std::test::Fail;
use std::thread::Threads;

/// In each degree from 1 on the coefficients times the chains of even length, the empty one with them, are as many as
/// the coefficients times those of odd length.
fn assert_alternating<R: Abort + Threads + Sync>(
    rt: &R,
    alloc: Global,
    text: &str,
    bound: u32,
) -> Result<(), Fail> {
    assert!(rt; 0 < bound && bound <= 64);
    let algebra = algebra_of(rt, alloc, text, bound)?;
    let limits = Limits::standard();
    let numbers = series(
        alloc,
        &algebra.given.alphabet,
        &algebra.basis,
        bound,
        &limits,
    )?;
    let numbers = numbers.as_slice();
    let found = chains(alloc, &algebra.given.alphabet, &algebra.basis, bound, 4_096)?;
    for degree in 1..bound + 1 {
        assert!(rt; (degree as usize) < numbers.len(), "{text}");
        let mut total = numbers[degree as usize];
        for chain in found.as_slice() {
            if chain.degree <= degree {
                let number = numbers[(degree - chain.degree) as usize];
                total = if chain.pieces.as_slice().len() % 2 == 0 {
                    total.wrapping_add(number)
                } else {
                    total.wrapping_sub(number)
                };
            }
        }
        assert_eq!(rt; total, 0, "{text} in degree {degree}");
    }
    Ok(())
}

/// The series of the algebra times the alternating series of its chains is 1: Anick's resolution is exact.
#[test]
fn chains_alternate_to_the_inverse_series(rt: HostRuntime) -> Result<(), Fail> {
    let alloc = rt.alloc();
    for (bound, text) in [
        (7, "vars x,y; x*y-y*x;"),
        (7, "vars x,y; x^2-y*x;"),
        (7, "vars x,y; x-y;"),
        (7, "vars x; x^3;"),
        (7, "vars x,y; x*y+y*x, x*y-y*x;"),
        (7, "vars x,y; ;"),
        (7, "vars x,y; x*y*x-y*x*y, x^2, y^2;"),
        (7, "vars x,y; x*y*x*y*x-y^5;"),
        (7, "vars x:2,y; x^2-y^4;"),
        (9, "vars x:3,y:2; x^2-y^3;"),
        (6, "vars x,y; x^2*y-2*x*y*x+y*x^2, x*y^2-2*y*x*y+y^2*x;"),
        (
            5,
            "vars x,y,z; x*y+2*y*x+3*z^2, y*z+2*z*y+3*x^2, z*x+2*x*z+3*y^2;",
        ),
        (5, "vars x,y,z; x^2, y^2, z^2, x*y+y*x, x*z+z*x, y*z+z*y;"),
    ] {
        assert_alternating(&rt, alloc, text, bound)?;
    }
    Ok(())
}

/// The chains up to the degree print as this, their numbers are those that are counted, and one chain less is refused
/// in the last degree, listed or counted.
fn assert_chains<R: Abort + Threads + Sync>(
    rt: &R,
    alloc: Global,
    text: &str,
    bound: u32,
    count: u32,
    last: u32,
    want: &str,
) -> Result<(), Fail> {
    assert!(rt; 0 < bound && bound <= 64 && 0 < count);
    let algebra = algebra_of(rt, alloc, text, bound)?;
    let alphabet = &algebra.given.alphabet;
    let basis = &algebra.basis;
    let found = chains(alloc, alphabet, basis, bound, count)?;
    let listed = chain_text(alloc, alphabet, found.as_slice(), true)?;
    assert_eq!(rt; listed.as_slice(), want.as_bytes(), "{text}");
    let numbers = chain_text(alloc, alphabet, found.as_slice(), false)?;
    let counts = chain_counts(alloc, alphabet, basis, bound, count)?;
    let counted = count_text(alloc, counts.as_slice())?;
    assert_eq!(rt; counted.as_slice(), numbers.as_slice(), "{text}");
    match chains(alloc, alphabet, basis, bound, count - 1) {
        Err(ChainFault::TooMany { degree }) => assert_eq!(rt; degree, last, "{text}"),
        _ => panic!(rt; "{text}"),
    }
    match chain_counts(alloc, alphabet, basis, bound, count - 1) {
        Err(ChainFault::TooMany { degree }) => assert_eq!(rt; degree, last, "{text}"),
        _ => panic!(rt; "{text}"),
    }
    Ok(())
}

/// Chains stand by degree, then by length, then by falling pieces.
#[test]
fn chains_print_by_degree_and_length(rt: HostRuntime) -> Result<(), Fail> {
    let alloc = rt.alloc();
    for (text, bound, count, last, want) in [
        (
            "vars x,y; x*y;",
            3,
            3,
            2,
            "% degree 1 length 1 count 2\nx\ny\n% degree 2 length 2 count 1\nx|y\n",
        ),
        (
            "vars x,y; x^2, x*y*x;",
            4,
            8,
            4,
            "% degree 1 length 1 count 2\nx\ny\n% degree 2 length 2 count 1\nx|x\n% degree 3 length 2 count 1\nx|y*x\n% degree 3 length 3 count 1\nx|x|x\n% degree 4 length 3 count 2\nx|y*x|x\nx|x|y*x\n% degree 4 length 4 count 1\nx|x|x|x\n",
        ),
        (
            "vars x,y; x^3;",
            6,
            5,
            6,
            "% degree 1 length 1 count 2\nx\ny\n% degree 3 length 2 count 1\nx|x^2\n% degree 4 length 3 count 1\nx|x^2|x\n% degree 6 length 4 count 1\nx|x^2|x|x^2\n",
        ),
        ("vars x,y; x;", 2, 1, 1, "% degree 1 length 1 count 1\ny\n"),
        (
            "vars x:2,y; x*y;",
            3,
            3,
            3,
            "% degree 1 length 1 count 1\ny\n% degree 2 length 1 count 1\nx\n% degree 3 length 2 count 1\nx|y\n",
        ),
    ] {
        assert_chains(&rt, alloc, text, bound, count, last, want)?;
    }
    Ok(())
}

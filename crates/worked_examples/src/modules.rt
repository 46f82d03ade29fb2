use crate::presented::{assert_same, presented, residues};
use ideal_laws::{LimitKind, Limits};
use plain_engine::PlainEngine;
use right_modules::{ModuleBasis, ModuleFault, module_basis};
use std::alloc::Global;
use std::process::Abort;
use std::test::Fail;
use std::thread::Threads;

/// What the plain engine gives for a text modulo 101, with at most so many words of a degree and so many normal module
/// words.
fn module_of<R: Abort + Threads + Sync>(
    rt: &R,
    alloc: Global,
    text: &str,
    gens: u32,
    bound: u32,
    plain_words: u32,
    normal_words: u32,
) -> Result<Result<ModuleBasis, ModuleFault>, Fail> {
    let field = residues(rt, alloc, 101)?;
    let given = presented(rt, alloc, &field, text)?;
    assert!(rt; 1 <= gens && gens <= given.alphabet.len());
    assert!(rt; 1 <= bound && bound <= 64);
    assert!(rt; plain_words <= 4_096 && normal_words <= 2_097_152);
    let mut limits = Limits::standard();
    limits.plain_words = plain_words;
    limits.normal_words = normal_words;
    let mut plain = PlainEngine::new(limits);
    Ok(module_basis(rt, alloc, &mut plain, &field, &given, gens, bound, &limits))
}

/// The degrees and coefficients of a module.
fn assert_module<R: Abort + Threads + Sync>(
    rt: &R,
    alloc: Global,
    text: &str,
    gens: u32,
    elements: &str,
    numbers: &[u64],
) -> Result<(), Fail> {
    assert!(rt; 2 <= numbers.len() && numbers.len() <= 65);
    let bound = numbers.len() as u32 - 1;
    let found = module_of(rt, alloc, text, gens, bound, 4_096, 2_097_152)??;
    assert_eq!(rt; found.numbers.as_slice(), numbers, "{text}");
    let field = residues(rt, alloc, 101)?;
    let wanted = presented(rt, alloc, &field, elements)?;
    let wanted = wanted.relations.as_slice();
    let mut place = 0;
    for degree in found.degrees.as_slice() {
        for element in degree.elements.as_slice() {
            assert!(rt; place < wanted.len(), "{text}");
            assert_same(rt, element, &wanted[place], text);
            place += 1;
        }
    }
    assert_eq!(rt; place, wanted.len(), "{text}");
    Ok(())
}

/// Right modules with their bases and coefficients, by hand.
#[test]
fn right_modules_have_their_bases(rt: HostRuntime) -> Result<(), Fail> {
    let alloc = rt.alloc();
    let cases: [(&str, u32, &str, &[u64]); 9] = [
        (
            "vars x,y,e; x*y-y*x, e*x;",
            1,
            "vars x,y,e; e*x, e*y*x;",
            &[0, 1, 1, 1],
        ),
        (
            "vars x,e,f; e*x-f*x;",
            2,
            "vars x,e,f; e*x-f*x;",
            &[0, 2, 1, 1],
        ),
        // The maximal right ideal of a quantum plane, by the relation of its generators: all but degree 0 of the plane.
        (
            "vars x,y,e,f; x*y-2*y*x, e*y-2*f*x;",
            2,
            "vars x,y,e,f; e*y-2*f*x;",
            &[0, 2, 3, 4, 5, 6],
        ),
        // Its residue field.
        (
            "vars x,y,e; x*y-2*y*x, e*x, e*y;",
            1,
            "vars x,y,e; e*x, e*y;",
            &[0, 1, 0, 0, 0],
        ),
        // The square of the maximal ideal of the plane, by its syzygies (Hilbert 1890, Burch 1968).
        (
            "vars x,y,e:2,f:2,g:2; x*y-y*x, e*y-f*x, f*y-g*x;",
            3,
            "vars x,y,e:2,f:2,g:2; e*y-f*x, f*y-g*x;",
            &[0, 0, 3, 4, 5, 6, 7],
        ),
        // Two cyclic modules of an algebra in which the letters do not commute.
        (
            "vars x,y,e; x*y, e*x;",
            1,
            "vars x,y,e; e*x;",
            &[0, 1, 1, 2, 3, 4],
        ),
        (
            "vars x,y,e; x*y, e*y;",
            1,
            "vars x,y,e; e*y;",
            &[0, 1, 1, 1, 1, 1],
        ),
        (
            "vars x:2,y,e:3; x*y-y*x, e*x;",
            1,
            "vars x:2,y,e:3; e*x, e*y*x;",
            &[0, 0, 0, 1, 1, 1, 1],
        ),
        ("vars e; ;", 1, "vars e; ;", &[0, 1, 0, 0]),
    ];
    for (text, gens, elements, numbers) in cases {
        assert_module(&rt, alloc, text, gens, elements, numbers)?;
    }
    Ok(())
}

/// The first relation of neither kind is told before any limit.
#[test]
fn relations_of_neither_kind_are_refused(rt: HostRuntime) -> Result<(), Fail> {
    let alloc = rt.alloc();
    for (text, gens, other) in [
        ("vars x,y,e; x*e;", 1, 1),
        ("vars x,y,e; x*y, e*x, x*y+e*x;", 1, 3),
        ("vars x,e,f; x^2, e*f, x*e;", 2, 2),
        ("vars x,y,e; e*x*e-e*x*y;", 1, 1),
    ] {
        match module_of(&rt, alloc, text, gens, 3, 0, 0)? {
            Err(ModuleFault::Shape { relation }) => assert_eq!(rt; relation, other, "{text}"),
            _ => panic!(rt; "{text}"),
        }
    }
    Ok(())
}

/// The engine's limits are asked before the number of module words, and free words do not count.
#[test]
fn module_limits_are_asked_in_order(rt: HostRuntime) -> Result<(), Fail> {
    let alloc = rt.alloc();
    let text = "vars x,e,f; e*x-f*x;";
    for (plain, normal, kind, degree, value) in [
        (26, 0, LimitKind::PlainWords, 3, 27),
        (27, 0, LimitKind::NormalWords, 1, 1),
        (27, 1, LimitKind::NormalWords, 1, 2),
    ] {
        match module_of(&rt, alloc, text, 2, 3, plain, normal)? {
            Err(
                ModuleFault::Limit {
                    kind: found,
                    degree: at,
                    value: kept,
                },
            ) => {
                assert_eq!(rt; found, kind, "at most {plain} and {normal}");
                assert_eq!(rt; (at, kept), (degree, value), "at most {plain} and {normal}");
            }
            _ => panic!(rt; "at most {plain} and {normal}"),
        }
    }
    match module_of(&rt, alloc, "vars x,y,e; e*x, e*y;", 1, 5, 4_096, 1)? {
        Ok(found) => assert_eq!(rt; found.numbers.as_slice(), [0, 1, 0, 0, 0, 0].as_slice()),
        Err(_) => panic!(rt; "free words do not count"),
    }
    Ok(())
}

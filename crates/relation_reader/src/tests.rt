ghost use Rattle.std.specs.Prelude.{◌≤◌, length};

use super::*;
use crate::placed::first_placed;
use crate::scan::split_of;
use field_table::{Field, listed_moduli_law};
use ideal_laws::Presentation;
use std::alloc::Global;
use std::process::Abort;
use std::test::Fail;
use words::NoMemory;

#[test]
fn tokens_are_as_long_as_can_be(rt: HostRuntime) -> Result<(), Fail> {
    let two = Mark::Number { value: 2 };
    let widest = Mark::Number { value: u128::MAX };
    for (text, wanted) in [
        (
            b"x^2 %c".as_slice(),
            [
                (Mark::Name, 0, 1),
                (Mark::Caret, 1, 2),
                (two, 2, 3),
                (Mark::End, 6, 6),
            ]
            .as_slice(),
        ),
        (b"2x", &[(two, 0, 1), (Mark::Name, 1, 2), (Mark::End, 2, 2)]),
        (b"%\r\xff\nx_Z9", &[(Mark::Name, 4, 8), (Mark::End, 8, 8)]),
        (b" \t\r\n%\xff", &[(Mark::End, 6, 6)]),
        (
            b":+-*,;",
            &[
                (Mark::Colon, 0, 1),
                (Mark::Plus, 1, 2),
                (Mark::Minus, 2, 3),
                (Mark::Star, 3, 4),
                (Mark::Comma, 4, 5),
                (Mark::Semicolon, 5, 6),
                (Mark::End, 6, 6),
            ],
        ),
        (
            b"00340282366920938463463374607431768211455",
            &[(widest, 0, 41), (Mark::End, 41, 41)],
        ),
    ] {
        assert!(rt; text.len() < 100);
        let found = tokens(rt.alloc(), text)?;
        assert_eq!(rt; found.len(), wanted.len(), "{text:?}");
        for (token, (mark, start, end)) in found.iter().zip(wanted) {
            assert_eq!(rt; token.mark, *mark, "{text:?}");
            assert_eq!(rt; token.start, *start, "{text:?}");
            assert_eq!(rt; token.end, *end, "{text:?}");
        }
    }
    Ok(())
}

#[test]
fn the_earliest_fault_of_tokens_is_told(rt: HostRuntime) -> Result<(), Fail> {
    for (text, wanted) in [
        (b"x % \xff\n\xff".as_slice(), InputFault::BadByte { at: 6 }),
        (b"x _y", InputFault::BadByte { at: 2 }),
        (
            b"; 340282366920938463463374607431768211456!",
            InputFault::NumberTooWide { at: 2 },
        ),
        (
            b"3402823669209384634633746074317682114550",
            InputFault::NumberTooWide { at: 0 },
        ),
    ] {
        assert!(rt; text.len() < 100);
        match tokens(rt.alloc(), text) {
            Err(ReaderFault::Text(fault)) => {
                assert_eq!(rt; fault, wanted, "{text:?}");
            }
            Err(ReaderFault::NoMemory) | Ok(_) => {
                assert!(rt; false, "{text:?}");
            }
        }
    }
    Ok(())
}

fn placed_fault(alloc: Global, text: &[u8]) -> Result<Option<InputFault>, NoMemory>
    requires { length text.now ≤ 1048576 }
{
    let split = split_of(alloc, text)?;
    first_placed(alloc, text, &split.tokens, split.stop)
}

fn expected(at: u32, what: Want) -> Option<InputFault> {
    Some(InputFault::Expected { at, what })
}

#[test]
fn the_fault_with_the_least_place_is_told(rt: HostRuntime) -> Result<(), Fail> {
    for (text, wanted) in [
        (b"".as_slice(), expected(0, Want::Vars)),
        (b"var x;;", expected(0, Want::Vars)),
        (b"vars;;", Some(InputFault::NoVariable { at: 4 })),
        (b"vars 2;!", expected(5, Want::Name)),
        (b"vars x,;;", expected(7, Want::Name)),
        (b"vars x", expected(6, Want::ListMark)),
        (b"vars x:1:2;;", expected(8, Want::ListMark)),
        (b"vars x:;;", expected(7, Want::Weight)),
        (b"vars x:0;;", Some(InputFault::WeightOutOfRange { at: 7 })),
        (b"vars x:9;;", Some(InputFault::WeightOutOfRange { at: 7 })),
        (
            b"vars x,y,x;;",
            Some(InputFault::RepeatedVariable { at: 9 }),
        ),
        (b"vars abcdefghabcdefghabcdefghabcdefgh:8;;", None),
        (
            b"vars abcdefghabcdefghabcdefghabcdefghi;;",
            Some(InputFault::NameTooLong { at: 5 }),
        ),
        (b"vars x;", expected(7, Want::Term)),
        (b"vars x;1,;", expected(9, Want::Term)),
        (b"vars x;^", expected(7, Want::Term)),
        (b"vars x;x+-x;", expected(9, Want::Factor)),
        (b"vars x;-;", expected(8, Want::Factor)),
        (b"vars x;2x;", expected(8, Want::Operator)),
        (b"vars x;x:2;", expected(8, Want::Operator)),
        (b"vars x;x^2^3;", expected(10, Want::Operator)),
        (b"vars x;x^x;", expected(9, Want::Exponent)),
        (b"vars x;x^!", Some(InputFault::BadByte { at: 9 })),
        (b"vars x;x;;", Some(InputFault::AfterEnd { at: 9 })),
        (b"vars x;;", None),
        (b"vars vars;vars*vars;", None),
        (b"vars x;x*y!", Some(InputFault::UnknownVariable { at: 9 })),
        (
            b"vars x;x^256*y;",
            Some(InputFault::UnknownVariable { at: 13 }),
        ),
        (
            b"vars x;x^257;",
            Some(InputFault::ExponentTooLarge { at: 9 }),
        ),
        (b"vars x;x^0,+x^256*x^0*2-x^256;", None),
        (b"vars x;x^256*x;", Some(InputFault::WordTooLong { at: 13 })),
        (
            b"vars x;x^256*x!^0",
            Some(InputFault::WordTooLong { at: 13 }),
        ),
        (
            b"vars x;x*x^200*3*x^56;",
            Some(InputFault::WordTooLong { at: 19 }),
        ),
    ] {
        assert!(rt; text.len() < 100);
        assert_eq!(rt; placed_fault(rt.alloc(), text)?, wanted, "{text:?}");
    }
    Ok(())
}

#[test]
fn names_and_relations_are_counted(rt: HostRuntime) -> Result<(), Fail> {
    let many = Some(InputFault::TooManyVariables { at: 197 });
    for (last, wanted) in [
        (b";;".as_slice(), None),
        (b",x;;", many),
        (b",aa;;", many),
        (
            b",abcdefghabcdefghabcdefghabcdefghi;;",
            Some(InputFault::NameTooLong { at: 197 }),
        ),
    ] {
        let mut text = b"vars aa".to_vec(rt.alloc())?;
        for i in 1..64u8 {
            text.extend_from_slice(&[b',', b'a' + i / 8, b'a' + i % 8])?;
        }
        text.extend_from_slice(last)?;
        assert!(rt; text.len() < 1000);
        assert_eq!(rt; placed_fault(rt.alloc(), &text)?, wanted, "{last:?}");
    }
    for (last, wanted) in [
        (b"+x;".as_slice(), None),
        (b"+x,1;", Some(InputFault::TooManyRelations { at: 8200 })),
        (b"+x,-y;", Some(InputFault::TooManyRelations { at: 8200 })),
        (b"+x,y;", Some(InputFault::TooManyRelations { at: 8200 })),
        (b"+x,;", expected(8200, Want::Term)),
    ] {
        let mut text = b"vars x;".to_vec(rt.alloc())?;
        for _ in 0..4095 {
            text.extend_from_slice(b"0,")?;
        }
        text.extend_from_slice(last)?;
        assert!(rt; text.len() < 10000);
        assert_eq!(rt; placed_fault(rt.alloc(), &text)?, wanted, "{last:?}");
    }
    Ok(())
}

/// The letters and relations as text: each name with its weight, and each term as its residue and its letters, or only
/// their number where there are many.
fn told(alloc: Global, found: &Presentation) -> Result<String, Fail> {
    let mut out = String::new(alloc);
    for letter in 0..found.alphabet.len() {
        for byte in found.alphabet.name(letter as u8) {
            out.push(char::from(*byte))?;
        }
        let weight = found.alphabet.weight(letter as u8);
        write!(out, ":{weight} ")?;
    }
    for element in found.relations.as_slice() {
        out.push('|')?;
        for term in element.terms() {
            let coefficient = term.coefficient;
            let count = term.word.letters().len();
            write!(out, " {coefficient}")?;
            if count > 8 {
                write!(out, "({count})")?;
                continue;
            }
            for letter in term.word.letters() {
                write!(out, ".{letter}")?;
            }
        }
    }
    Ok(out)
}

/// Whether the answer is this reading, told as text, or this fault.
fn assert_answers(
    rt: &impl Abort,
    alloc: Global,
    field: &Field,
    cases: &[(&[u8], Result<&str, InputFault>)],
) -> Result<(), Fail> {
    for (text, wanted) in cases {
        assert!(rt; text.len() < 1000);
        match read(alloc, field, text) {
            Ok(found) => {
                let told = told(alloc, &found)?;
                assert_eq!(rt; Ok(told.as_str()), *wanted, "{text:?}");
            }
            Err(ReaderFault::Text(fault)) => {
                assert_eq!(rt; Err(fault), *wanted, "{text:?}");
            }
            Err(ReaderFault::NoMemory) => assert!(rt; false, "{text:?}"),
        }
    }
    Ok(())
}

fn field_of_seven(alloc: Global) -> Result<Field, NoMemory> {
    listed_moduli_law();
    Field::new(alloc, 7)
}

#[test]
fn texts_are_read(rt: HostRuntime) -> Result<(), Fail> {
    let alloc = rt.alloc();
    assert_answers(
        &rt,
        alloc,
        &field_of_seven(alloc)?,
        &[
            (b"vars x;;", Ok("x:1 ")),
            (b"vars vars; vars;", Ok("vars:1 | 1.0")),
            (
                b"vars x:8,y; -x^2, 2*y*3*y - y^2;",
                Ok("x:8 y:1 | 6.0.0| 5.1.1"),
            ),
            (
                b"% z is central\nvars x, y, z:2;\nx*y - y*x - z, % degree 2\nx*z - z*x,\ny*z - z*y;\n",
                Ok("x:1 y:1 z:2 | 1.0.1 6.1.0 6.2| 1.0.2 6.2.0| 1.1.2 6.2.1"),
            ),
            (b"vars x; x^0 - 1, 7*x, x;", Ok("x:1 | 1.0")),
            (
                b"vars x,y:2;+x^2+3*y%+x\n-y*1;% the end",
                Ok("x:1 y:2 | 1.0.0 2.1"),
            ),
            (
                b"vars abcdefghabcdefghabcdefghabcdefgh;;",
                Ok("abcdefghabcdefghabcdefghabcdefgh:1 "),
            ),
            (b"vars x;x^256*x^0;", Ok("x:1 | 1(256)")),
            (b"vars x;x^0-1,x*x-x^2,7,x,x-8*x;", Ok("x:1 | 1.0")),
            (b"vars x;x+x^2-x^2;", Ok("x:1 | 1.0")),
            (
                b"vars x;340282366920938463463374607431768211455*x;",
                Ok("x:1 | 3.0"),
            ),
            (
                b"vars x;x*340282366920938463463374607431768211455*340282366920938463463374607431768211455;",
                Ok("x:1 | 2.0"),
            ),
        ],
    )?;
    assert_answers(
        &rt,
        alloc,
        &Field::new(alloc, 2)?,
        &[
            (b"vars x;2*x,x+x^1*3;", Ok("x:1 ")),
            (b"vars x,y;-x-y;", Ok("x:1 y:1 | 1.0 1.1")),
        ],
    )
}

#[test]
fn each_prefix_is_refused_at_its_end(rt: HostRuntime) -> Result<(), Fail> {
    let alloc = rt.alloc();
    let text = b"vars x,y; x*y-y*x;";
    let field = field_of_seven(alloc)?;
    for (length, at, what) in [
        (0, 0, Want::Vars),
        (1, 0, Want::Vars),
        (2, 0, Want::Vars),
        (3, 0, Want::Vars),
        (4, 4, Want::Name),
        (5, 5, Want::Name),
        (6, 6, Want::ListMark),
        (7, 7, Want::Name),
        (8, 8, Want::ListMark),
        (9, 9, Want::Term),
        (10, 10, Want::Term),
        (11, 11, Want::Operator),
        (12, 12, Want::Factor),
        (13, 13, Want::Operator),
        (14, 14, Want::Factor),
        (15, 15, Want::Operator),
        (16, 16, Want::Factor),
        (17, 17, Want::Operator),
    ] {
        let fault = InputFault::Expected { at, what };
        assert!(rt; length <= text.len());
        assert_answers(&rt, alloc, &field, &[(&text[..length], Err(fault))])?;
    }
    let whole = Ok("x:1 y:1 | 1.0.1 6.1.0");
    assert_answers(&rt, alloc, &field, &[(text, whole)])
}

#[test]
fn the_first_relation_with_a_fault_is_told(rt: HostRuntime) -> Result<(), Fail> {
    let alloc = rt.alloc();
    let mixed = |relation| InputFault::NotHomogeneous { relation };
    let constant = |relation| InputFault::Constant { relation };
    assert_answers(
        &rt,
        alloc,
        &field_of_seven(alloc)?,
        &[
            (
                b"vars x; 2x;",
                Err(InputFault::Expected {
                    at: 9,
                    what: Want::Operator,
                }),
            ),
            (b"vars x; x^256*x;", Err(InputFault::WordTooLong { at: 14 })),
            (b"vars x; x - x, 3;", Err(constant(2))),
            (b"vars x; 3, x + x^2;", Err(constant(1))),
            (
                b"vars x; 3, y;",
                Err(InputFault::UnknownVariable { at: 11 }),
            ),
            (b"vars x;3;", Err(constant(1))),
            (b"vars x;x^0;", Err(constant(1))),
            (b"vars x;x-x,7,x,8;", Err(constant(4))),
            (b"vars x;0,x^2+x;", Err(mixed(2))),
            (b"vars x,y:2;x^2+y,x+y;", Err(mixed(2))),
            (b"vars x;x+1;", Err(mixed(1))),
            (b"vars x;x+x^2,3;", Err(mixed(1))),
            (b"vars x;3,y;", Err(InputFault::UnknownVariable { at: 9 })),
            (b"vars x;3,x+x^2;;", Err(InputFault::AfterEnd { at: 15 })),
            (
                b"vars x;340282366920938463463374607431768211456*x;",
                Err(InputFault::NumberTooWide { at: 7 }),
            ),
        ],
    )
}

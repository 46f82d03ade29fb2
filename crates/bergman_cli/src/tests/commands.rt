//! What the other commands print.

use crate::tests::{COMMUTING, Failing, NONE, SQUARE, expect_run};
use command_words::{Key, UsageFault};
use ideal_laws::LimitKind;
use job_steps::{InputProblem, Status};
use std::test::Fail;

/// The last letters are the generators.
#[test]
fn right_modules_print_their_bases_and_series(rt: HostRuntime) -> Result<(), Fail> {
    for (line, text, status, output, told) in [
        (
            "module mod=101 deg=3 gens=1",
            "vars x,y,e; x*y-y*x, e*x;",
            Status::Done,
            "% 2\ne*x\n% 3\ne*y*x\n% module series\n0 0\n1 1\n2 1\n3 1\n",
            "",
        ),
        (
            "module mod=101 deg=3 gens=2",
            "vars x,e,f; e*x-f*x;",
            Status::Done,
            "% 2\ne*x-f*x\n% module series\n0 0\n1 2\n2 1\n3 1\n",
            "",
        ),
        (
            "module mod=101 deg=3 gens=1 show=basis engine=plain",
            "vars x,y,e; x*y-2*y*x, e*x-e*y;",
            Status::Done,
            "% 2\ne*x-e*y\n% 3\ne*y*x+50*e*y^2\n",
            "",
        ),
        (
            "module mod=101 deg=4 gens=1 show=series",
            "vars x,y,e:3; x*y-2*y*x, e*x-e*y;",
            Status::Done,
            "% module series\n0 0\n1 0\n2 0\n3 1\n4 1\n",
            "",
        ),
        (
            "module mod=101 deg=3 gens=1",
            "vars x,y,e; x*e;",
            Status::Input(InputProblem::Shape { relation: 1 }),
            "",
            "bergman: input: relation 1: not of an ideal or a module\n",
        ),
        (
            "module mod=101 deg=3 gens=2",
            "vars x; ;",
            Status::Input(InputProblem::TooFewNames { names: 1 }),
            "",
            "bergman: input: only 1 names\n",
        ),
    ] {
        expect_run(&rt, line, text.as_bytes(), NONE, status, output, told)?;
    }
    Ok(())
}

/// The text of two letters is worked by hand: x1*x2-71*x2*x1 for the number 0 modulo 101.
#[test]
fn a_generated_ideal_is_summed_up(rt: HostRuntime) -> Result<(), Fail> {
    // The first read fails, and none is made.
    let failing = Failing { read: 1, ..NONE };
    for (line, output) in [
        (
            "make mod=101 deg=4 number=0 vars=3 engine=seq",
            "% make 0\nrelations 3\nelements 3\nterms 6\nsum 108\ncoefficient 4 15\n",
        ),
        (
            "make mod=101 deg=3 number=0 vars=2 engine=plain",
            "% make 0\nrelations 1\nelements 1\nterms 2\nsum 31\ncoefficient 3 4\n",
        ),
        (
            "make mod=101 deg=1 number=0 vars=2 engine=core workers=2",
            "% make 0\nrelations 1\nelements 0\nterms 0\nsum 0\ncoefficient 1 2\n",
        ),
    ] {
        expect_run(&rt, line, b"", failing, Status::Done, output, "")?;
    }
    let line = "make mod=101 deg=3 number=0 vars=17 engine=plain";
    let limit = Status::Limit {
        kind: LimitKind::PlainWords,
        degree: 3,
        value: 4913,
    };
    let told = "bergman: limit: plain words 4913 in degree 3\n";
    expect_run(&rt, line, b"", failing, limit, "", told)?;
    let missing = Status::Usage(UsageFault::MissingKey { key: Key::Vars });
    let line = "make mod=101 deg=4 number=0";
    let told = "bergman: usage: missing vars\n";
    expect_run(&rt, line, b"", failing, missing, "", told)?;
    let failing = Failing { write: 3, ..NONE };
    let line = "make mod=101 deg=4 number=0 vars=3";
    let (output, told) = ("% make", "bergman: write fault\n");
    expect_run(&rt, line, b"", failing, Status::WriteFault, output, told)
}

/// The chains over x*y, over x^2 and x*y*x, and over x.
#[test]
fn chains_stand_by_degree_and_length(rt: HostRuntime) -> Result<(), Fail> {
    for (line, text, output) in [
        (
            "chains mod=101 deg=3 list=yes",
            COMMUTING,
            "% degree 1 length 1 count 2\nx\ny\n% degree 2 length 2 count 1\nx|y\n",
        ),
        (
            "chains mod=101 deg=3 list=yes engine=seq",
            SQUARE,
            "% degree 1 length 1 count 2\nx\ny\n% degree 2 length 2 count 1\nx|x\n% degree 3 length 2 count 1\nx|y*x\n% degree 3 length 3 count 1\nx|x|x\n",
        ),
        (
            "chains mod=101 deg=2",
            "vars x,y; x-y;",
            "% degree 1 length 1 count 1\n",
        ),
    ] {
        expect_run(&rt, line, text.as_bytes(), NONE, Status::Done, output, "")?;
    }
    let limit = Status::Limit {
        kind: LimitKind::PlainWords,
        degree: 8,
        value: 6561,
    };
    expect_run(
        &rt,
        "chains mod=101 deg=8 engine=plain",
        b"vars x,y,z; x*y-y*x;",
        NONE,
        limit,
        "",
        "bergman: limit: plain words 6561 in degree 8\n",
    )
}

/// The first write of the second answer fails; a question of degree 13 has 12 * 2^11 triples.
#[test]
fn an_answer_stands_before_the_next_question_is_looked_at(rt: HostRuntime) -> Result<(), Fail> {
    let failing = Failing { write: 19, ..NONE };
    let many = Status::Products {
        degree: 13,
        value: 16_385,
    };
    for (line, text, failing, status, output, told) in [
        (
            "normal mod=101 deg=3 ask=2",
            "vars x,y; x*y-y*x, x^2*y, x*y*x-y*x^2;",
            failing,
            Status::WriteFault,
            "% question 1\nnormal y*x^2\nfrom 1 x 1 1\nfrom 1 1 1 x\n",
            "bergman: write fault\n",
        ),
        (
            "normal mod=101 deg=13 ask=3",
            "vars x,y; x*y-y*x, x*y*x-y*x^2, x^12*y, y*x;",
            NONE,
            many,
            "% question 1\nnormal 0\nfrom 1 1 1 x\n",
            "bergman: limit: products 16385 in degree 13\n",
        ),
    ] {
        expect_run(&rt, line, text.as_bytes(), failing, status, output, told)?;
    }
    Ok(())
}

/// In the first case there are four triples, which are independent, so its list of products is the only one.
#[test]
fn questions_have_normal_forms_and_products(rt: HostRuntime) -> Result<(), Fail> {
    for (line, text, output) in [
        (
            "normal mod=101 deg=3 ask=1",
            "vars x,y; x*y-y*x, x^2*y;",
            "% question 1\nnormal y*x^2\nfrom 1 x 1 1\nfrom 1 1 1 x\n",
        ),
        (
            "normal mod=101 deg=3 ask=1",
            "vars x,y; x*y-y*x, x*y*x-y*x^2;",
            "% question 1\nnormal 0\nfrom 1 1 1 x\n",
        ),
        (
            "normal mod=101 deg=2 ask=2",
            "vars x,y; x*y-y*x, 3*x*y, y*x;",
            "% question 1\nnormal 3*y*x\nfrom 3 1 1 1\n% question 2\nnormal y*x\n",
        ),
    ] {
        expect_run(&rt, line, text.as_bytes(), NONE, Status::Done, output, "")?;
    }
    for (line, text, problem, told) in [
        (
            "normal mod=101 deg=2 ask=2",
            "vars x,y; x*y;",
            InputProblem::TooFewRelations { relations: 1 },
            "bergman: input: only 1 relations\n",
        ),
        (
            "normal mod=101 deg=2 ask=1",
            "vars x,y; x*y, x^3;",
            InputProblem::AboveBound { relation: 2 },
            "bergman: input: relation 2: above the bound\n",
        ),
    ] {
        let status = Status::Input(problem);
        expect_run(&rt, line, text.as_bytes(), NONE, status, "", told)?;
    }
    Ok(())
}

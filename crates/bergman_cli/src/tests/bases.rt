//! What `gb` prints, up to its limits.

use crate::tests::{
    COMMUTING, COMMUTING_ANSWER, EXTERIOR, NONE, SQUARE, SQUARE_ANSWER, expect_run,
};
use ideal_laws::LimitKind;
use job_steps::Status;
use std::alloc::Global;
use std::test::Fail;

#[test]
fn algebras_print_their_bases_and_series(rt: HostRuntime) -> Result<(), Fail> {
    for (line, text, output) in [
        ("gb mod=101 deg=3", COMMUTING, COMMUTING_ANSWER),
        ("gb mod=65521 deg=3", COMMUTING, COMMUTING_ANSWER),
        ("gb deg=3 mod=1000003", COMMUTING, COMMUTING_ANSWER),
        (
            "gb mod=101 deg=3 workers=2",
            "vars x,y; x*y-y*x, x*y-y*x;",
            COMMUTING_ANSWER,
        ),
        (
            "gb mod=101 deg=3 show=series",
            COMMUTING,
            "% series\n0 1\n1 2\n2 3\n3 4\n",
        ),
        ("gb mod=101 deg=2 show=basis", COMMUTING, "% 2\nx*y-y*x\n"),
        (
            "gb mod=101 deg=2 show=basis",
            "vars x,y; x*y+y*x, x*y-y*x;",
            "% 2\nx*y\ny*x\n",
        ),
        (
            "gb mod=101 deg=2",
            "vars x,y; ;",
            "% series\n0 1\n1 2\n2 4\n",
        ),
        (
            "gb mod=2 deg=2",
            "vars x,y; x*y+x*y;",
            "% series\n0 1\n1 2\n2 4\n",
        ),
        (
            "gb mod=2 deg=2",
            "vars x,y; x*y+y*x;",
            "% 2\nx*y+y*x\n% series\n0 1\n1 2\n2 3\n",
        ),
        ("gb mod=101 deg=4 workers=2", SQUARE, SQUARE_ANSWER),
        ("gb mod=101 deg=4 engine=seq", SQUARE, SQUARE_ANSWER),
        ("gb mod=101 deg=4 engine=plain", SQUARE, SQUARE_ANSWER),
        ("gb mod=101 deg=4 engine=core", SQUARE, SQUARE_ANSWER),
        (
            "gb mod=101 deg=4 engine=seq trace=yes",
            SQUARE,
            SQUARE_ANSWER,
        ),
        ("gb mod=101 deg=1", SQUARE, "% series\n0 1\n1 2\n"),
        (
            "gb mod=101 deg=2",
            "vars x,y; x-y;",
            "% 1\nx-y\n% series\n0 1\n1 1\n2 1\n",
        ),
        (
            "gb mod=101 deg=4",
            "vars x; x^3;",
            "% 3\nx^3\n% series\n0 1\n1 1\n2 1\n3 0\n4 0\n",
        ),
        (
            "gb mod=101 deg=2",
            "vars x; x^200*x^56;",
            "% series\n0 1\n1 1\n2 1\n",
        ),
        ("gb mod=3 deg=2", "vars x; 3;", "% series\n0 1\n1 1\n2 1\n"),
        (
            "gb mod=32003 deg=4",
            EXTERIOR,
            "% 2\nx^2\nx*y+y*x\nx*z+z*x\ny^2\ny*z+z*y\nz^2\n% series\n0 1\n1 3\n2 3\n3 1\n4 0\n",
        ),
        (
            "gb mod=7 deg=2",
            "vars x,y; 2*x*y-3*y*x;",
            "% 2\nx*y+2*y*x\n% series\n0 1\n1 2\n2 3\n",
        ),
        (
            "gb mod=7 deg=2 show=basis",
            "vars x,y; 340282366920938463463374607431768211455*x*y+y*x;",
            "% 2\nx*y-2*y*x\n",
        ),
        (
            "gb mod=1000003 deg=2",
            "vars x,y; 2*x*y-3*y*x;",
            "% 2\nx*y+500000*y*x\n% series\n0 1\n1 2\n2 3\n",
        ),
        (
            "gb mod=101 deg=3",
            "vars x:2,y; x-y^2;",
            "% 2\nx-y^2\n% series\n0 1\n1 1\n2 1\n3 1\n",
        ),
        (
            "gb mod=101 deg=4",
            "vars x:2,y; x*y-y*x;",
            "% 3\nx*y-y*x\n% series\n0 1\n1 1\n2 2\n3 2\n4 3\n",
        ),
        (
            "gb mod=101 deg=6",
            "vars x:2,y; x^2-y^4;",
            "% 4\nx^2-y^4\n% 6\nx*y^4-y^4*x\n% series\n0 1\n1 1\n2 2\n3 3\n4 4\n5 6\n6 8\n",
        ),
    ] {
        expect_run(&rt, line, text.as_bytes(), NONE, Status::Done, output, "")?;
    }
    Ok(())
}

/// What the square has up to degree 20: an element in each degree from 2 on, and the series.
pub fn long_answer(alloc: Global) -> Result<String, Fail> {
    let mut output = String::from_str(alloc, "% 2\nx^2-y*x\n% 3\nx*y*x-y^2*x\n")?;
    for d in 2_u32..19 {
        let lines = format!(in alloc;
            "% {}\nx*y^{d}*x-y^{}*x\n",
            d.wrapping_add(2),
            d.wrapping_add(1)
        )?;
        output.push_str(lines.as_str())?;
    }
    output.push_str("% series\n")?;
    for d in 0_u32..21 {
        let line = format!(in alloc; "{d} {}\n", d.wrapping_add(1))?;
        output.push_str(line.as_str())?;
    }
    Ok(output)
}

/// The free algebra has 2^20 words in the last degree.
#[test]
fn a_basis_goes_on_in_each_degree(rt: HostRuntime) -> Result<(), Fail> {
    expect_run(
        &rt,
        "gb mod=101 deg=20 workers=8",
        SQUARE.as_bytes(),
        NONE,
        Status::Done,
        long_answer(rt.alloc())?.as_str(),
        "",
    )
}

/// Polynomials in three letters. The free algebra has 3^20 words in the last degree.
#[test]
fn commuting_letters_have_few_normal_words(rt: HostRuntime) -> Result<(), Fail> {
    let alloc = rt.alloc();
    let mut output = String::from_str(alloc, "% 2\nx*y-y*x\nx*z-z*x\ny*z-z*y\n% series\n")?;
    let mut count: u32 = 0;
    for d in 0_u32..21 {
        count = count.wrapping_add(d).wrapping_add(1);
        let line = format!(in alloc; "{d} {count}\n")?;
        output.push_str(line.as_str())?;
    }
    expect_run(
        &rt,
        "gb mod=101 deg=20",
        b"vars x,y,z; x*y-y*x, x*z-z*x, y*z-z*y;".as_slice(),
        NONE,
        Status::Done,
        output.as_str(),
        "",
    )
}

/// Degree 22 has 2^22 words, and all are normal.
#[test]
fn normal_words_have_a_limit(rt: HostRuntime) -> Result<(), Fail> {
    let alloc = rt.alloc();
    let mut output = String::from_str(alloc, "% series\n")?;
    let mut count: u32 = 1;
    for d in 0_u32..22 {
        let line = format!(in alloc; "{d} {count}\n")?;
        output.push_str(line.as_str())?;
        count = count.wrapping_mul(2);
    }
    expect_run(
        &rt,
        "gb mod=101 deg=22",
        b"vars x,y; ;".as_slice(),
        NONE,
        Status::Limit {
            kind: LimitKind::NormalWords,
            degree: 22,
            value: 2_097_153,
        },
        output.as_str(),
        "bergman: limit: normal words 2097153 in degree 22\n",
    )
}

/// Degree 8 has 3^8 words.
#[test]
fn a_limit_stands_behind_the_lines_of_the_degrees_below(rt: HostRuntime) -> Result<(), Fail> {
    let limit = Status::Limit {
        kind: LimitKind::PlainWords,
        degree: 8,
        value: 6561,
    };
    let text = b"vars x,y,z; x*y-y*x;".as_slice();
    let told = "bergman: limit: plain words 6561 in degree 8\n";
    for (line, output) in [
        ("gb mod=101 deg=8 engine=plain", "% 2\nx*y-y*x\n"),
        ("gb mod=101 deg=9 show=series engine=plain", ""),
    ] {
        expect_run(&rt, line, text, NONE, limit, output, told)?;
    }
    Ok(())
}

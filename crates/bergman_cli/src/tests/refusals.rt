//! Words and texts that are refused.

use crate::tests::{COMMUTING, Failing, NONE, expect_run};
use command_words::{Key, UsageFault};
use job_steps::{InputProblem, Status};
use relation_reader::{InputFault, Want};
use std::test::Fail;

/// Each text with what is told of it, and its fault at the same place of the other list.
#[test]
fn texts_are_refused_with_their_first_fault(rt: HostRuntime) -> Result<(), Fail> {
    let expected = |at, what| InputFault::Expected { at, what };
    let texts = [
        ("vars x,y; x*x-y;", "relation 1: not homogeneous"),
        ("vars x,y; x*y", "byte 13: expected an operator"),
        ("vars x,x; ;", "byte 7: repeated variable"),
        (
            "vars x,y; 340282366920938463463374607431768211456*x*y;",
            "byte 10: number too wide",
        ),
        ("vars x,y; (x*y);", "byte 10: bad byte"),
        ("vars x,y; ; x*y;", "byte 12: text after the end"),
        ("vars x,y; x*z;", "byte 12: unknown variable"),
        ("", "byte 0: expected vars"),
        ("vars ; ;", "byte 5: no variable"),
        ("vars x; 3;", "relation 1: constant"),
        ("vars x; x^257;", "byte 10: exponent too large"),
        ("vars x; x^200*x^57;", "byte 16: word too long"),
        ("vars x:0,y; ;", "byte 7: weight out of range"),
        ("vars x:,y; ;", "byte 7: expected a weight"),
        ("vars x,y; x:2;", "byte 11: expected an operator"),
    ];
    let faults = [
        InputFault::NotHomogeneous { relation: 1 },
        expected(13, Want::Operator),
        InputFault::RepeatedVariable { at: 7 },
        InputFault::NumberTooWide { at: 10 },
        InputFault::BadByte { at: 10 },
        InputFault::AfterEnd { at: 12 },
        InputFault::UnknownVariable { at: 12 },
        expected(0, Want::Vars),
        InputFault::NoVariable { at: 5 },
        InputFault::Constant { relation: 1 },
        InputFault::ExponentTooLarge { at: 10 },
        InputFault::WordTooLong { at: 16 },
        InputFault::WeightOutOfRange { at: 7 },
        expected(7, Want::Weight),
        expected(11, Want::Operator),
    ];
    for ((text, told), fault) in texts.into_iter().zip(faults) {
        let status = Status::Input(InputProblem::Text(fault));
        let told = format!(in rt.alloc(); "bergman: input: {told}\n")?;
        let line = "gb mod=101 deg=2";
        expect_run(&rt, line, text.as_bytes(), NONE, status, "", told.as_str())?;
    }
    Ok(())
}

/// The first read fails. Each line with what is told of it, and its status at the same place of the other list.
#[test]
fn words_are_refused_before_the_source_is_read(rt: HostRuntime) -> Result<(), Fail> {
    let failing = Failing { read: 1, ..NONE };
    let lines = [
        ("", "usage: no command"),
        ("frob", "usage: unknown command"),
        ("gb mod=101 deg=3 color=red", "usage: word 4: unknown key"),
        ("gb mod=101 mod=7 deg=3", "usage: word 3: repeated key"),
        ("gb mod=4 deg=3", "usage: word 2: bad value"),
        ("gb mod=101 deg=65", "usage: word 3: bad value"),
        ("gb mod=101", "usage: missing deg"),
        ("gb mod=101 deg=3", "read fault"),
    ];
    let statuses = [
        Status::Usage(UsageFault::NoCommand),
        Status::Usage(UsageFault::UnknownCommand),
        Status::Usage(UsageFault::UnknownKey { word: 4 }),
        Status::Usage(UsageFault::RepeatedKey { word: 3 }),
        Status::Usage(UsageFault::BadValue { word: 2 }),
        Status::Usage(UsageFault::BadValue { word: 3 }),
        Status::Usage(UsageFault::MissingKey { key: Key::Deg }),
        Status::ReadFault,
    ];
    for ((line, told), status) in lines.into_iter().zip(statuses) {
        let told = format!(in rt.alloc(); "bergman: {told}\n")?;
        let text = COMMUTING.as_bytes();
        expect_run(&rt, line, text, failing, status, "", told.as_str())?;
    }
    Ok(())
}

/// A text may have 1,048,576 bytes.
#[test]
fn a_longer_text_is_refused(rt: HostRuntime) -> Result<(), Fail> {
    let no_letters = InputFault::Expected {
        at: 1_048_576,
        what: Want::Vars,
    };
    let problems = [InputProblem::Text(no_letters), InputProblem::TooLong];
    let lines = [
        "bergman: input: byte 1048576: expected vars\n",
        "bergman: input: more than 1048576 bytes\n",
    ];
    let mut text = vec![in rt.alloc(); b' '; 1_048_576]?;
    for (problem, told) in problems.into_iter().zip(lines) {
        let status = Status::Input(problem);
        let line = "gb mod=101 deg=2";
        expect_run(&rt, line, text.as_slice(), NONE, status, "", told)?;
        text.push(b' ')?;
    }
    Ok(())
}

//! Reads and writes that fail, and what is told.

use crate::tests::{
    COMMUTING, COMMUTING_ANSWER, Failing, NONE, SQUARE, SQUARE_ANSWER, SQUARE_TRACE, expect_run,
    run_line,
};
use bg_io::{FixedSink, MemorySink, PlannedGate, SteadySource};
use job_steps::{InputProblem, Status};
use relation_reader::InputFault;
use std::test::Fail;

#[test]
fn a_failed_call_ends_the_run(rt: HostRuntime) -> Result<(), Fail> {
    let line = "gb mod=101 deg=3";
    let text = COMMUTING.as_bytes();
    for read in 1..7 {
        let failing = Failing { read, ..NONE };
        let told = "bergman: read fault\n";
        expect_run(&rt, line, text, failing, Status::ReadFault, "", told)?;
    }
    // Each line is written by itself.
    for (write, output) in (1..).zip([
        "",
        "% 2",
        "% 2\n",
        "% 2\nx*y",
        "% 2\nx*y-y*",
        "% 2\nx*y-y*x\n",
        "% 2\nx*y-y*x\n% s",
    ]) {
        let failing = Failing { write, ..NONE };
        let told = "bergman: write fault\n";
        expect_run(&rt, line, text, failing, Status::WriteFault, output, told)?;
    }
    // A fault of the line changes no status.
    let failing = Failing { told: 1, ..NONE };
    let fault = InputFault::Constant { relation: 1 };
    let status = Status::Input(InputProblem::Text(fault));
    let text = b"vars x; 3;".as_slice();
    expect_run(&rt, "gb mod=101 deg=2", text, failing, status, "", "")
}

/// In degree 4 both rows meet at one column, which the first one holds before the other looks.
#[test]
fn claims_are_told(rt: HostRuntime) -> Result<(), Fail> {
    let line = "gb mod=101 deg=4 trace=yes engine=core workers=2 schedule=0";
    let square = SQUARE.as_bytes();
    // One worker of the race makes the same claims.
    let raced = "gb mod=101 deg=4 trace=yes";
    // Where a write of the trace fails, nothing more is told.
    for (line, told, text) in [
        (line, 0, SQUARE_TRACE),
        (raced, 0, SQUARE_TRACE),
        (line, 1, ""),
        (line, 2, "# d"),
        (line, 5, "# degree 2 r"),
    ] {
        let failing = Failing { told, ..NONE };
        let output = SQUARE_ANSWER;
        expect_run(&rt, line, square, failing, Status::Done, output, text)?;
    }
    // The claims of a degree are told before its lines are written, and no further degree is asked for.
    let failing = Failing { write: 1, ..NONE };
    let told = "# degree 2 rows 1 columns 2\n1 0 won x^2 row 0\nbergman: write fault\n";
    expect_run(&rt, line, square, failing, Status::WriteFault, "", told)
}

/// The whole text has 37 bytes.
#[test]
fn a_told_room_is_enough_or_not(rt: HostRuntime) -> Result<(), Fail> {
    let alloc = rt.alloc();
    for (room, status) in [(36, Status::WriteFault), (37, Status::Done)] {
        let mut source = SteadySource::new(Vec::from_slice(alloc, COMMUTING.as_bytes())?);
        let mut out = FixedSink::new(alloc, room)?;
        let mut err = FixedSink::new(alloc, 96)?;
        let gate = PlannedGate::open(alloc);
        let line = "gb mod=101 deg=3";
        let answer = run_line(&rt, line, &mut source, &mut out, &mut err, &gate)?;
        assert_eq!(rt; answer, status, "room {room}");
        assert_eq!(rt; Some(out.held()), COMMUTING_ANSWER.as_bytes().get(..room));
    }
    Ok(())
}

/// What is offered is taken whole here, so where a write fails the lines before it stand. The series is one text.
#[test]
fn a_line_is_offered_whole(rt: HostRuntime) -> Result<(), Fail> {
    let alloc = rt.alloc();
    for (failing, output) in (1..).zip([
        "",
        "% 2\n",
        "% 2\nx^2-y*x\n",
        "% 2\nx^2-y*x\n% 3\n",
        "% 2\nx^2-y*x\n% 3\nx*y*x-y^2*x\n",
        "% 2\nx^2-y*x\n% 3\nx*y*x-y^2*x\n% series\n0 1\n1 2\n2 3\n3 4\n",
    ]) {
        let mut source = SteadySource::new(Vec::from_slice(alloc, SQUARE.as_bytes())?);
        let mut out = MemorySink::new(alloc, 4096, Vec::from_slice(alloc, &[failing])?);
        let mut err = FixedSink::new(alloc, 96)?;
        let gate = PlannedGate::open(alloc);
        let line = "gb mod=101 deg=3";
        let answer = run_line(&rt, line, &mut source, &mut out, &mut err, &gate)?;
        let status = if failing == 6 {
            Status::Done
        } else {
            Status::WriteFault
        };
        assert_eq!(rt; answer, status, "write {failing} fails");
        assert_eq!(rt; out.held(), output.as_bytes(), "write {failing} fails");
    }
    Ok(())
}

//! Runs in which two workers are at work at once, held and slowed by their gates.

use crate::tests::bases::long_answer;
use crate::tests::{COMMUTING_ANSWER, SQUARE, SQUARE_ANSWER, run_line};
use bg_io::{MemorySink, MemorySource, Plan, PlannedGate, Spot};
use job_steps::Status;
use std::alloc::Global;
use std::process::Abort;
use std::test::Fail;
use std::thread::Threads;

/// Runs the words on the text with this gate, each write of `out` as asked, and asks for this status and output. The
/// trace is told.
fn raced<R: Threads + Sync + Abort + AllocGlobal>(
    rt: &R,
    line: &str,
    text: &str,
    gate: &PlannedGate,
    failing: u32,
    status: Status,
    output: &str,
) -> Result<MemorySink, Fail> {
    let alloc = rt.alloc();
    let text = Vec::from_slice(alloc, text.as_bytes())?;
    let mut source = MemorySource::new(text, 4, Vec::new(alloc));
    let mut out = MemorySink::new(alloc, 3, Vec::from_slice(alloc, &[failing])?);
    let mut err = MemorySink::new(alloc, 3, Vec::new(alloc));
    let answer = run_line(rt, line, &mut source, &mut out, &mut err, gate)?;
    assert_eq!(rt; answer, status, "{line}");
    assert_eq!(rt; out.held(), output.as_bytes(), "{line}");
    Ok(err)
}

/// The trace of the square's degrees up to 4, where these seats and rows win and lose in the last one.
fn trace_of(alloc: Global, winner: u32, row: u32) -> Result<String, Fail> {
    let loser = 1 - winner % 2;
    let other = 1 - row % 2;
    Ok(format!(in alloc;
        "# degree 2 rows 1 columns 2\n1 0 won x^2 row 0\n# degree 3 rows 1 columns 2\n1 0 won x*y*x row 0\n# degree 4 rows 2 columns 2\n1 {winner} won x*y^2*x row {row}\n2 {loser} lost x*y^2*x row {other} to {row}\n"
    )?)
}

/// Whether the trace has two claims in degree 4, one of which was lost to the other.
fn has_two_claims(alloc: Global, trace: &[u8]) -> Result<bool, Fail> {
    for (winner, row) in [(0, 0), (0, 1), (1, 0), (1, 1)] {
        if trace_of(alloc, winner, row)?.as_bytes() == trace {
            return Ok(true);
        }
    }
    Ok(false)
}

/// The first claim is held until the other was answered, so both are there at once, and the held one is lost. Each seat
/// met the spots of its own claims, before and then after each.
#[test]
fn two_claims_in_flight(rt: HostRuntime) -> Result<(), Fail> {
    let alloc = rt.alloc();
    let gate = PlannedGate::new(alloc, Plan::Hold { degree: 4 })?;
    let words = "gb mod=101 deg=4 workers=2 trace=yes";
    let err = raced(&rt, words, SQUARE, &gate, 0, Status::Done, SQUARE_ANSWER)?;
    assert!(rt; !gate.ran_out());
    assert!(rt; has_two_claims(alloc, err.held())?);
    // Degrees 2 and 3 have one row each, so seat 0 alone is at work there.
    for (seat, degrees) in [(0, [2, 3, 4].as_slice()), (1, [4].as_slice())] {
        let mut place = 0;
        for degree in degrees {
            for after in [false, true] {
                let spot = Spot {
                    degree: *degree,
                    column: 0,
                    after,
                };
                assert!(rt;
                    gate.is_noted(seat, place, spot),
                    "seat {seat} degree {degree}"
                );
                place = place.wrapping_add(1);
            }
        }
        assert_eq!(rt; gate.met(seat), place as u64, "seat {seat}");
    }
    Ok(())
}

#[test]
fn claims_that_meet_are_told(rt: HostRuntime) -> Result<(), Fail> {
    let alloc = rt.alloc();
    let gate = PlannedGate::new(
        alloc,
        Plan::Meet {
            degree: 4,
            claims: 2,
        },
    )?;
    let words = "gb mod=101 deg=4 workers=2 trace=yes engine=race";
    let err = raced(&rt, words, SQUARE, &gate, 0, Status::Done, SQUARE_ANSWER)?;
    assert!(rt; !gate.ran_out());
    assert!(rt; has_two_claims(alloc, err.held())?);
    Ok(())
}

/// The first write of the output fails in degree 2, and no worker passes a gate after it.
#[test]
fn no_degree_is_computed_after_a_failed_write(rt: HostRuntime) -> Result<(), Fail> {
    let gate = PlannedGate::new(
        rt.alloc(),
        Plan::Meet {
            degree: 4,
            claims: 2,
        },
    )?;
    let words = "gb mod=101 deg=4 workers=2";
    raced(&rt, words, SQUARE, &gate, 1, Status::WriteFault, "")?;
    assert_eq!(rt; (gate.met(0), gate.met(1)), (2, 0));
    let spot = Spot {
        degree: 2,
        column: 0,
        after: true,
    };
    assert!(rt; gate.is_noted(0, 1, spot));
    Ok(())
}

#[test]
fn slow_seats_change_nothing(rt: HostRuntime) -> Result<(), Fail> {
    let alloc = rt.alloc();
    let twice = "vars x,y; x*y-y*x, x*y-y*x;";
    let long = long_answer(alloc)?;
    for (words, text, output) in [
        ("gb mod=101 deg=3 workers=2", twice, COMMUTING_ANSWER),
        ("gb mod=101 deg=20 workers=8", SQUARE, long.as_str()),
        ("gb mod=101 deg=4 workers=2", SQUARE, SQUARE_ANSWER),
    ] {
        for parity in [0, 1] {
            let plan = Plan::Slow {
                parity,
                turns: 1000,
            };
            let gate = PlannedGate::new(alloc, plan)?;
            raced(&rt, words, text, &gate, 0, Status::Done, output)?;
        }
    }
    Ok(())
}

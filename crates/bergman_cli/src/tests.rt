//! Worked runs of the top call. What several of them need stands here.

mod bases;
mod commands;
mod faults;
mod races;
mod refusals;

use crate::run::bergman;
use bg_io::{MemorySink, MemorySource, PlannedGate, Sink, Source};
use job_steps::Status;
use std::alloc::Global;
use std::process::Abort;
use std::test::Fail;
use std::thread::Threads;

/// x and y commute.
pub const COMMUTING: &str = "vars x,y; x*y-y*x;";

pub const COMMUTING_ANSWER: &str = "% 2\nx*y-y*x\n% series\n0 1\n1 2\n2 3\n3 4\n";

pub const SQUARE: &str = "vars x,y; x^2-y*x;";

pub const SQUARE_ANSWER: &str =
    "% 2\nx^2-y*x\n% 3\nx*y*x-y^2*x\n% 4\nx*y^2*x-y^3*x\n% series\n0 1\n1 2\n2 3\n3 4\n4 5\n";

pub const SQUARE_TRACE: &str =
    "# degree 2 rows 1 columns 2\n1 0 won x^2 row 0\n# degree 3 rows 1 columns 2\n1 0 won x*y*x row 0\n# degree 4 rows 2 columns 2\n1 0 won x*y^2*x row 0\n";

pub const EXTERIOR: &str =
    "% the exterior algebra on three letters\nvars x, y, z;\nx^2, y^2, z^2,\nx*y + y*x, x*z + z*x, y*z + z*y;\n";

/// The reads and writes that fail, by their numbers; 0 is none.
#[derive(Clone, Copy)]
pub struct Failing {
    pub read: u32,
    pub write: u32,
    pub told: u32,
}

pub const NONE: Failing = Failing {
    read: 0,
    write: 0,
    told: 0,
};

fn words_of(alloc: Global, line: &str) -> Result<Vec<String>, Fail> {
    let mut words = Vec::new(alloc);
    for word in line.split_whitespace() {
        words.push(String::from_str(alloc, word)?)?;
    }
    Ok(words)
}

/// Runs the words of the line on this source and these sinks.
pub fn run_line<R: Threads + Sync + AllocGlobal, S: Source, K: Sink, T: Sink>(
    rt: &R,
    line: &str,
    source: &mut S,
    out: &mut K,
    err: &mut T,
    gate: &PlannedGate,
) -> Result<Status, Fail> {
    let alloc = rt.alloc();
    let words = words_of(alloc, line)?;
    Ok(bergman(rt, alloc, words.as_slice(), source, out, err, gate))
}

/// Runs the words on the text, which comes in pieces of 4 bytes, and asks for this status, output, which is written in
/// pieces of 3, and line.
pub fn expect_run<R: Threads + Sync + Abort + AllocGlobal>(
    rt: &R,
    line: &str,
    text: &[u8],
    failing: Failing,
    status: Status,
    output: &str,
    told: &str,
) -> Result<(), Fail> {
    let alloc = rt.alloc();
    let mut source = MemorySource::new(
        Vec::from_slice(alloc, text)?,
        4,
        Vec::from_slice(alloc, &[failing.read])?,
    );
    let mut out = MemorySink::new(alloc, 3, Vec::from_slice(alloc, &[failing.write])?);
    let mut err = MemorySink::new(alloc, 3, Vec::from_slice(alloc, &[failing.told])?);
    let gate = PlannedGate::open(alloc);
    let answer = run_line(rt, line, &mut source, &mut out, &mut err, &gate)?;
    assert_eq!(rt; answer, status, "{line}");
    assert_eq!(rt; out.held(), output.as_bytes(), "{line}");
    assert_eq!(rt; err.held(), told.as_bytes(), "{line}");
    Ok(())
}

//! The program `bergman`: it takes the words of its command line, runs them over standard input and output, and
//! ends with the status of the run.
#![tactic(auto)]

use bergman_cli::bergman;
use bg_io::{PlannedGate, StdSink, StdSource};
use std::process::ExitCode;
use std::{env, io};

/// The status where the words cannot be had for want of memory.
const NO_MEMORY: u8 = 7;

/// The status where the words are no text.
const NO_TEXT: u8 = 9;

fn main(rt: HostRuntime) -> ExitCode {
    let words = match words_of(&rt) {
        Ok(words) => words,
        Err(error) if error.kind() == io::ErrorKind::OutOfMemory => return ExitCode::from(
            NO_MEMORY,
        ),
        Err(_) => return ExitCode::from(NO_TEXT),
    };
    let gate = PlannedGate::open(rt.alloc());
    let mut source = StdSource::new(rt.stdin());
    let mut out = StdSink::new(rt.stdout());
    let mut err = StdSink::new(rt.stderr());
    let status = bergman(
        &rt,
        rt.alloc(),
        words.as_slice(),
        &mut source,
        &mut out,
        &mut err,
        &gate,
    );
    ExitCode::from(status.code())
}

/// The words after the program's own name.
fn words_of(rt: &HostRuntime) -> io::Result<Vec<String>> {
    let mut words = Vec::new(rt.alloc());
    for word in env::args(rt)?.skip(1) {
        words.push(word)?;
    }
    Ok(words)
}

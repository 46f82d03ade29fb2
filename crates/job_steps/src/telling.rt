ghost use Rattle.std.specs.Prelude.{◌≡◌, ◌<◌, [], List, ℕ, OnErr, OnOk, length, true};
ghost use Rattle.job_steps.specs.Lines.{fault_line};
ghost use Rattle.job_steps.specs.States.{teller_state};
ghost use Rattle.job_steps.specs.Traces.{IsPrintable, Tells, trace_of};

use crate::lines::fault_line;
use crate::status::Status;
use bg_io::{Sink, write_all};
use ideal_laws::Account;
use poly_writer::trace_text;
use std::alloc::Global;
use words::{Alphabet, NoMemory};

/// Where lines are told, and whether telling has failed.
#[derive(Drop)]
pub struct Teller<'a, T> {
    pub err: &'a mut T,
    pub failed: bool,
}

/// Tells the trace of a degree, where it is asked for.
pub fn tell_degree<T: Sink>(
    alloc: Global,
    traces: bool,
    alphabet: &Alphabet,
    d: u32,
    account: &Account,
    teller: &mut Teller<'_, T>,
) -> Result<(), NoMemory>
    requires printable { traces ≡ true → IsPrintable (length alphabet.now.weights) account.now }
    ensures same_sink { teller.new.err.ghost_name ≡ teller.old.err.ghost_name }
    ensures told { OnOk result (Tells (teller_state T.Sink teller.old) (teller_state T.Sink teller.new)
        (trace_of traces alphabet.now.names d account.now)) }
    ensures untold { OnErr result (Tells (teller_state T.Sink teller.old) (teller_state T.Sink teller.new) []) }
{
    if !traces {
        return Ok(());
    }
    let text = trace_text(alloc, alphabet, d, account)?;
    tell(teller, text.as_slice());
    Ok(())
}

/// Tells the line of the status.
pub fn tell_status<T: Sink>(teller: &mut Teller<'_, T>, status: Status)
    ensures same_sink { teller.new.err.ghost_name ≡ teller.old.err.ghost_name }
    ensures told { Tells (teller_state T.Sink teller.old) (teller_state T.Sink teller.new)
        (fault_line status) }
{
    let line = fault_line(&status);
    tell(teller, line.as_bytes());
}

/// Tells a text, unless a write has failed before.
fn tell<T: Sink>(teller: &mut Teller<'_, T>, text: &[u8])
    ensures same_sink { teller.new.err.ghost_name ≡ teller.old.err.ghost_name }
    ensures told { Tells (teller_state T.Sink teller.old) (teller_state T.Sink teller.new)
        text.now }
{
    if teller.failed {
        return;
    }
    teller.failed = write_all(teller.err, text).is_err();
}

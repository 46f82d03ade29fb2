ghost use Rattle.std.specs.Prelude.{◌≡◌, ◌<◌, ◌↔◌, All, IfOk, IsTrue, map, reverse};
ghost use Rattle.pivot_core.specs.History.{Replays, answer_after, merged};

use crate::NoMemory;
use ideal_laws::{Answer, Call};
use std::alloc::Global;
use std::marker::Model;

/// The calls of all seats, in one order.
#[derive(Debug, Drop)]
pub struct History {
    calls: Vec<Call>,
}

impl Model for History {
    ghost use Rattle.std.specs.Prelude.{List};
    ghost use Rattle.ideal_laws.specs.declared.account.Call.{Call};

    ghost Value = { List Call };

    ghost view = { λ h. h.calls.items };
}

impl History {
    pub fn calls(&self) -> &[Call]
        ensures { result.now ≡ self.now }
    {
        self.calls.as_slice()
    }
}

/// All calls of the logs by rising stamp and then by rising seat. Calls that agree in both stand in the order of the
/// logs.
pub fn merge(alloc: Global, logs: &[Vec<Call>]) -> Result<History, NoMemory>
    ensures { IfOk result (λ h. h ≡ merged (map (λ log. log.items) logs.now)) }
{
    let mut calls = Vec::new(alloc);
    for log in logs {
        calls.extend_from_slice(log.as_slice())?;
    }
    calls.sort_by_key(|call| (call.stamp, call.seat))?;
    Ok(History { calls })
}

/// Whether every column is below `m` and each call has the answer that the one-thread object gives at its place. No
/// memory is taken: each answer is looked up in the calls before it, so the time is the square of their number.
pub fn replays(calls: &[Call], m: u32) -> bool
    ensures { IsTrue result ↔ (All (λ k. k.column < m) calls.now × Replays calls.now) }
{
    for place in 0..calls.len() {
        let call = calls[place];
        if call.column >= m || call.answer != answer_at(&calls[..place], call.column) {
            return false;
        }
    }
    true
}

/// What the one-thread object answers at a column after these calls.
fn answer_at(done: &[Call], column: u32) -> Answer
    ensures { result ≡ answer_after (reverse done.now) column }
{
    for place in (0..done.len()).rev() {
        let call = done[place];
        if call.answer == Answer::Won && call.column == column {
            return Answer::Lost {
                row: call.row,
                stamp: call.stamp,
            };
        }
    }
    Answer::Won
}

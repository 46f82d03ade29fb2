ghost use Rattle.std.specs.Prelude.{◌≡◌, ◌≢◌, []};
ghost use Rattle.bg_io.specs.Ends.{CountsGained};
ghost use Rattle.job_steps.specs.declared.status.Status.TheVariants.{Done, Limit};
ghost use Rattle.job_steps.specs.States.{state_of};
ghost use Rattle.job_steps.specs.Answers.{IsStopped};
ghost use Rattle.job_steps.specs.Statuses.{IsAnswered, IsOwn, IsThis};

use crate::status::Status;
use bg_io::{Sink, write_all};
use ideal_laws::{EngineFault, LimitKind};
use std::alloc::{AllocError, Global};
use words::{Items, NoMemory};

/// What a command answers that computes all of its text first: the status of its job, and the text.
#[derive(Drop)]
pub struct Answer {
    pub status: Status,
    pub text: Items<u8>,
}

impl Answer {
    /// The work is done, and has this text.
    pub fn done(text: Vec<u8>) -> Answer
        ensures { result ≡ record { status = Done; text = text.items } }
    {
        Answer {
            status: Status::Done,
            text: Items::from_vec(text),
        }
    }

    /// The work ends with this status, and there is no text.
    pub fn without_text(alloc: Global, status: Status) -> Answer
        ensures { result ≡ record { status = status; text = [] } }
    {
        Answer {
            status,
            text: Items::from_vec(Vec::new(alloc)),
        }
    }

    /// A limit stops the work, and there is no text.
    pub fn limit(alloc: Global, kind: LimitKind, degree: u32, value: u64) -> Answer
        ensures { result ≡ record { status = Limit kind degree value; text = [] } }
    {
        let status = Status::Limit {
            kind,
            degree,
            value,
        };
        Answer::without_text(alloc, status)
    }

    /// The engine has given up: at a limit, or for want of memory.
    pub fn stopped(alloc: Global, fault: EngineFault) -> Result<Answer, NoMemory>
        ensures { IsStopped fault result }
    {
        match fault {
            EngineFault::Limit {
                kind,
                degree,
                value,
            } => Ok(Answer::limit(alloc, kind, degree, value)),
            EngineFault::NoMemory => Err(AllocError),
        }
    }
}

/// Writes the text of an answer.
pub fn write_answer<K: Sink>(answer: Answer, out: &mut K) -> Status
    requires { IsOwn answer.status }
    ensures end { IsAnswered (IsThis answer.status answer.text) (state_of K.Sink out.old)
        (state_of K.Sink out.new) result }
    ensures nothing { answer.text ≡ [] → out.new ≡ out.old }
    ensures steady { result ≢ Status.WriteFault → K.faults out.new ≡ K.faults out.old }
    ensures calls { CountsGained (K.held out.old) (K.held out.new) (K.calls out.old) (K.calls out.new) 1 }
{
    let text = answer.text.as_slice();
    if text.is_empty() {
        return answer.status;
    }
    match write_all(out, text) {
        Ok(()) => answer.status,
        Err(_) => Status::WriteFault,
    }
}

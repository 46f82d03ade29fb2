ghost use Rattle.std.specs.Prelude.{◌≡◌, ◌≢◌, All, Err, IfOk, MatchResult};
ghost use Rattle.free_poly.specs.Terms.{HasResidues};
ghost use Rattle.bg_io.specs.Ends.{CountsAtMost, CountsTaken, LosesAtMost};
ghost use Rattle.job_steps.specs.Inputs.{IsInputEnd, IsTaken, ReadsInput};
ghost use Rattle.job_steps.specs.States.{source_state};

use crate::status::{InputProblem, Status};
use bg_io::{ReadAllFault, Source, read_all};
use field_table::Field;
use ideal_laws::Presentation;
use relation_reader::{ReaderFault, read};
use std::alloc::Global;

/// The most bytes that a text may have.
const TEXT_LIMIT: u32 = 1_048_576;

/// The letters and relations that the source has, or the status that stands in their place.
pub fn read_input<S: Source>(
    alloc: Global,
    field: &Field,
    source: &mut S,
) -> Result<Presentation, Status>
    ensures reads { MatchResult result (λ given. ReadsInput field.now (S.left source.old) (S.left source.new)
        given.alphabet given.relations) (IsInputEnd field.now (source_state S.Source source.old)
        (source_state S.Source source.new)) }
    ensures taken { MatchResult result (λ _. LosesAtMost (S.left source.old) (S.left source.new) 1048576)
        (IsTaken (S.left source.old) (S.left source.new)) }
    ensures residues { IfOk result (λ given. All (HasResidues field.now) given.relations) }
    ensures kept { result ≢ Err Status.ReadFault → S.faults source.new ≡ S.faults source.old }
    ensures calls { CountsAtMost (S.calls source.old) (S.calls source.new) 1048577 }
    ensures calls_taken { CountsTaken (S.left source.old) (S.left source.new) (S.calls source.old)
        (S.calls source.new) }
{
    let bytes = match read_all(alloc, source, TEXT_LIMIT) {
        Ok(bytes) => bytes,
        Err(ReadAllFault::ReadFault) => return Err(Status::ReadFault),
        Err(ReadAllFault::TooLong) => return Err(Status::Input(InputProblem::TooLong)),
        Err(ReadAllFault::NoMemory) => return Err(Status::NoMemory),
    };
    match read(alloc, field, bytes.as_slice()) {
        Ok(given) => Ok(given),
        Err(ReaderFault::Text(fault)) => Err(Status::Input(InputProblem::Text(fault))),
        Err(ReaderFault::NoMemory) => Err(Status::NoMemory),
    }
}

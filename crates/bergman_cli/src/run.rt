ghost use Rattle.std.specs.Prelude.{◌≡◌, ◌≢◌, ◌↔◌, ◌⊎◌, ◌++◌, ℕ, List, [], All, Err, IfOk, MatchResult};
ghost use Rattle.std.specs.Prelude.{map, string_bytes};
ghost use Rattle.std.specs.Io.KnownBytes.{Appends};
ghost use Rattle.free_poly.specs.Terms.{HasResidues};
ghost use Rattle.bg_io.specs.Ends.{CountsAtMost, LosesAtMost, Rose};
ghost use Rattle.command_words.specs.declared.job.Command.{Command};
ghost use Rattle.command_words.specs.declared.job.UsageFault.{UsageFault};
ghost use Rattle.command_words.specs.JobOf.{IsJob, IsUsageFault};
ghost use Rattle.job_steps.specs.Inputs.{IsInputEnd, IsTaken};
ghost use Rattle.job_steps.specs.Lines.{fault_line};
ghost use Rattle.job_steps.specs.States.{source_state, state_of, teller_state};
ghost use Rattle.job_steps.specs.Status.{IsOfInput, PrintsNothing, ReadsNothing};
ghost use Rattle.job_steps.specs.Statuses.{HasGained, IsOwn};
ghost use Rattle.job_steps.specs.Traces.{IsTold, Tells};
ghost use Rattle.bergman_cli.specs.Engines.{IsEngineOf};
ghost use Rattle.bergman_cli.specs.Jobs.{IsAsked, IsSound, OfJob};
ghost use Rattle.bergman_cli.specs.Outcomes.{HasWrittenPart, HasWrittenSome, IsOutcome, IsWorkEnd, IsWorkTrace};
ghost use Rattle.bergman_cli.specs.Run.{Completes, IsEnd, IsGivenReading, IsJobEnd, IsMade, IsRunTrace};
ghost use Rattle.bergman_cli.specs.Run.{IsUngivenTo, OfWork, ReadsSource};

use crate::chains::chains_answer;
use crate::gb::run_gb;
use crate::make::make_answer;
use crate::module::module_answer;
use crate::normal::run_normal;
use bg_io::{PlannedGate, Sink, Source};
use command_words::{Command, EngineKind, Job, read_words, words_law};
use degree_loop::{CoreEngine, RaceEngine, SeqEngine, claim_history_law};
use field_table::{Field, listed_moduli_law};
use generated_text::generated_presentation;
use ideal_laws::{DegreeEngine, Limits, Presentation, lower_law, setting_law};
use job_steps::{Answer, Status, Teller, read_input, tell_status, write_answer};
use plain_engine::PlainEngine;
use relation_reader::reading_laws;
use std::alloc::Global;
use std::thread::Threads;
use words::NoMemory;

/// Runs the words: with `make` on the relations of a generated text, and else on letters and relations that are read
/// from `source`. With `gb` the lines of a degree are written before the next one is asked for, and where the words
/// ask for it, the trace of each degree is told before its lines are written; with `normal` the answer to a question
/// is written before the next one is looked for; the other commands write their text at once.
pub fn bergman<R: Threads + Sync, S: Source, K: Sink, T: Sink>(
    rt: &R,
    alloc: Global,
    words: &[String],
    source: &mut S,
    out: &mut K,
    err: &mut T,
    gate: &PlannedGate,
) -> Status
    // A status that the work ends with by itself: its text was gained.
    ensures ended { IsOwn result
        → OfWork (map string_bytes words.now) (S.left source.old) (S.left source.new)
        (λ job letters relations. HasGained (state_of K.Sink out.old) (state_of K.Sink out.new)
        (IsOutcome job letters relations result)) }

    // Each other status comes only for its cause, and of what words and source decide exactly there.
    ensures usage { (fault : UsageFault) → (result ≡ Status.Usage fault) ↔ IsUsageFault (map string_bytes words.now)
        fault }
    ensures unread { ReadsNothing result → source.new ≡ source.old }
    ensures made { IsMade (map string_bytes words.now) → source.new ≡ source.old }
    ensures taken { IsTaken (S.left source.old) (S.left source.new) result }
    ensures calls { CountsAtMost (S.calls source.old) (S.calls source.new) 1048577 }
    ensures input { IsOfInput result
        → OfJob (map string_bytes words.now) (λ job. ReadsSource job.command
        × IsInputEnd job.modulus (source_state S.Source source.old) (source_state S.Source source.new) result) }
    ensures write { result ≡ Status.WriteFault → Rose (K.faults out.old) (K.faults out.new) }
    ensures part { result ≡ Status.WriteFault
        → OfWork (map string_bytes words.now) (S.left source.old) (S.left source.new)
        (λ job letters relations. HasWrittenPart job letters relations (state_of K.Sink out.old)
        (state_of K.Sink out.new)) }
    ensures memory { result ≡ Status.NoMemory → Appends (K.held out.old) (K.held out.new) []
        ⊎ OfWork (map string_bytes words.now) (S.left source.old) (S.left source.new)
        (λ job letters relations. HasWrittenSome job letters relations (state_of K.Sink out.old)
        (state_of K.Sink out.new)) }
    ensures nothing { PrintsNothing result → out.new ≡ out.old }
    ensures reads { result ≢ Status.ReadFault → S.faults source.new ≡ S.faults source.old }
    ensures writes { result ≢ Status.WriteFault → K.faults out.new ≡ K.faults out.old }

    // The trace is told, and then the line of the status. A fault of telling them changes no status.
    ensures told { (trace : List ℕ) × IsRunTrace (map string_bytes words.now) (S.left source.old)
        (S.left source.new) (state_of K.Sink out.old) (state_of K.Sink out.new) result trace
        × IsTold (state_of T.Sink err.old) (state_of T.Sink err.new) (trace ++ fault_line result) }

    // And where the bytes are told, it comes where its cause stands.
    ensures complete { Completes (map string_bytes words.now) (source_state S.Source source.old)
        (source_state S.Source source.new) (state_of K.Sink out.old) (state_of K.Sink out.new) result }
{
    words_law();
    reading_laws();
    let mut teller = Teller { err, failed: false };
    let status = run_words(rt, alloc, words, source, out, gate, &mut teller);
    tell_status(&mut teller, status);
    status
}

/// Runs the words by the engine that they name.
#[tactic(auto, using(crate::proofs::Jobs::some_workers, crate::proofs::Jobs::few_workers))]
fn run_words<R: Threads + Sync, S: Source, K: Sink, T: Sink>(
    rt: &R,
    alloc: Global,
    words: &[String],
    source: &mut S,
    out: &mut K,
    gate: &PlannedGate,
    teller: &mut Teller<'_, T>,
) -> Status
    ensures end { IsEnd (map string_bytes words.now) (source_state S.Source source.old)
        (source_state S.Source source.new) (state_of K.Sink out.old) (state_of K.Sink out.new) result }
    ensures taken { IsTaken (S.left source.old) (S.left source.new) result }
    ensures calls { CountsAtMost (S.calls source.old) (S.calls source.new) 1048577 }
    ensures unread { ReadsNothing result → source.new ≡ source.old }
    ensures made { IsMade (map string_bytes words.now) → source.new ≡ source.old }
    ensures nothing { PrintsNothing result → out.new ≡ out.old }
    ensures reads { result ≢ Status.ReadFault → S.faults source.new ≡ S.faults source.old }
    ensures writes { result ≢ Status.WriteFault → K.faults out.new ≡ K.faults out.old }
    ensures same_sink { teller.new.err.ghost_name ≡ teller.old.err.ghost_name }
    ensures told { (trace : List ℕ) × IsRunTrace (map string_bytes words.now) (S.left source.old)
        (S.left source.new) (state_of K.Sink out.old) (state_of K.Sink out.new) result trace
        × Tells (teller_state T.Sink teller.old) (teller_state T.Sink teller.new) trace }
{
    words_law();
    let job = match read_words(words) {
        Ok(job) => job,
        Err(fault) => return Status::Usage(fault),
    };
    listed_moduli_law();
    lower_law();
    claim_history_law();
    match job.engine {
        EngineKind::Plain => {
            let mut engine = PlainEngine::new(Limits::standard());
            run_job(rt, alloc, &job, &mut engine, source, out, teller)
        }
        EngineKind::Seq => {
            let mut engine = SeqEngine::new(Limits::standard());
            run_job(rt, alloc, &job, &mut engine, source, out, teller)
        }
        EngineKind::Core => {
            let mut engine = CoreEngine::new(Limits::standard(), job.workers, job.schedule);
            run_job(rt, alloc, &job, &mut engine, source, out, teller)
        }
        EngineKind::Race => {
            let mut engine = RaceEngine::new(Limits::standard(), job.workers, gate);
            run_job(rt, alloc, &job, &mut engine, source, out, teller)
        }
    }
}

/// Runs a job by the engine that it names.
fn run_job<R: Threads + Sync, E: DegreeEngine, S: Source, K: Sink, T: Sink>(
    rt: &R,
    alloc: Global,
    job: &Job,
    engine: &mut E,
    source: &mut S,
    out: &mut K,
    teller: &mut Teller<'_, T>,
) -> Status
    requires engine { IsEngineOf job.now (E.kinds engine.old) (E.may_account engine.old) }
    requires sound { IsSound job.now }

    ensures end { IsJobEnd job.now (source_state S.Source source.old) (source_state S.Source source.new)
        (state_of K.Sink out.old) (state_of K.Sink out.new) result }
    ensures taken { IsTaken (S.left source.old) (S.left source.new) result }
    ensures calls { CountsAtMost (S.calls source.old) (S.calls source.new) 1048577 }
    ensures made { job.now.command ≡ Command.Make → source.new ≡ source.old }
    ensures nothing { PrintsNothing result → out.new ≡ out.old }
    ensures reads { result ≢ Status.ReadFault → S.faults source.new ≡ S.faults source.old }
    ensures writes { result ≢ Status.WriteFault → K.faults out.new ≡ K.faults out.old }
    ensures same_sink { teller.new.err.ghost_name ≡ teller.old.err.ghost_name }
    ensures told { (trace : List ℕ) × ((words : List (List ℕ)) → IsJob words job.now →
        IsRunTrace words (S.left source.old) (S.left source.new) (state_of K.Sink out.old) (state_of K.Sink out.new)
        result trace) × Tells (teller_state T.Sink teller.old) (teller_state T.Sink teller.new) trace }
{
    let Ok(field) = Field::new(alloc, job.modulus) else {
        return Status::NoMemory;
    };
    let given = match read_given(alloc, &field, job, source) {
        Ok(given) => given,
        Err(status) => return status,
    };
    setting_law(&field, &given);
    let _letters = given.alphabet.len();
    work(rt, alloc, job, engine, &field, &given, out, teller)
}

/// The letters and relations that the job works on, or the status that stands in their place.
fn read_given<S: Source>(
    alloc: Global,
    field: &Field,
    job: &Job,
    source: &mut S,
) -> Result<Presentation, Status>
    requires modulus { field.now ≡ job.now.modulus }
    requires sound { IsSound job.now }
    ensures given { MatchResult result (λ given. IsGivenReading job.now (S.left source.old) (S.left source.new)
        given.alphabet given.relations) (IsUngivenTo job.now.command job.now.modulus
        (source_state S.Source source.old) (source_state S.Source source.new)) }
    ensures taken { MatchResult result (λ _. LosesAtMost (S.left source.old) (S.left source.new) 1048576)
        (IsTaken (S.left source.old) (S.left source.new)) }
    ensures calls { CountsAtMost (S.calls source.old) (S.calls source.new) 1048577 }
    ensures residues { IfOk result (λ given. All (HasResidues field.now) given.relations) }
    ensures made { job.now.command ≡ Command.Make → source.new ≡ source.old }
    ensures reads { result ≢ Err Status.ReadFault → S.faults source.new ≡ S.faults source.old }
{
    if job.command != Command::Make {
        return read_input(alloc, field, source);
    }
    match generated_presentation(alloc, field, job.number, job.letters) {
        Ok(given) => Ok(given),
        Err(_) => Err(Status::NoMemory),
    }
}

/// Does what the command asks of these letters and relations.
fn work<R: Threads + Sync, E: DegreeEngine, K: Sink, T: Sink>(
    rt: &R,
    alloc: Global,
    job: &Job,
    engine: &mut E,
    field: &Field,
    given: &Presentation,
    out: &mut K,
    teller: &mut Teller<'_, T>,
) -> Status
    requires engine { IsEngineOf job.now (E.kinds engine.old) (E.may_account engine.old) }
    requires sound { IsSound job.now }
    requires modulus { field.now ≡ job.now.modulus }
    requires residues { All (HasResidues field.now) given.now.relations }

    ensures end { IsWorkEnd job.now given.now.alphabet given.now.relations (state_of K.Sink out.old)
        (state_of K.Sink out.new) result }
    ensures nothing { PrintsNothing result → out.new ≡ out.old }
    ensures writes { result ≢ Status.WriteFault → K.faults out.new ≡ K.faults out.old }
    ensures same_sink { teller.new.err.ghost_name ≡ teller.old.err.ghost_name }
    ensures told { (trace : List ℕ) × IsWorkTrace job.now given.now.alphabet given.now.relations
        (state_of K.Sink out.old) (state_of K.Sink out.new) result trace
        × Tells (teller_state T.Sink teller.old) (teller_state T.Sink teller.new) trace }
{
    if job.command == Command::Gb {
        return run_gb(rt, alloc, job, engine, field, given, out, teller);
    }
    if job.command == Command::Normal {
        return run_normal(rt, alloc, job, engine, field, given, out);
    }
    match answer_of(rt, alloc, job, engine, field, given) {
        Ok(answer) => write_answer(answer, out),
        Err(_) => Status::NoMemory,
    }
}

/// What a command answers whose text is written at once.
fn answer_of<R: Threads + Sync, E: DegreeEngine>(
    rt: &R,
    alloc: Global,
    job: &Job,
    engine: &mut E,
    field: &Field,
    given: &Presentation,
) -> Result<Answer, NoMemory>
    requires degrees { job.now.command ≢ Command.Gb }
    requires questions { job.now.command ≢ Command.Normal }
    requires asked { IsAsked job.now (E.kinds engine.old) field.now given.now }
    ensures { IfOk result (λ answer. IsOutcome job.now given.now.alphabet given.now.relations answer.status
        answer.text) }
{
    match job.command {
        Command::Make => make_answer(rt, alloc, job, engine, field, given),
        Command::Module => module_answer(rt, alloc, job, engine, field, given),
        Command::Chains => chains_answer(rt, alloc, job, engine, field, given),
        Command::Gb | Command::Normal => unreachable!(),
    }
}

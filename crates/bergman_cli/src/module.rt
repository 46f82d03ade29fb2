ghost use Rattle.std.specs.Prelude.{◌≡◌, ◌++◌, ◌≤◌, [], IfOk, length};
ghost use Rattle.right_modules.specs.Answered.{AreModuleDegrees, AreModuleNumbers};
ghost use Rattle.bergman_cli.specs.Jobs.{IsAsked};
ghost use Rattle.bergman_cli.specs.Module.{IsModuleBasisText, IsModuleOutcome, IsModuleText, free_of};
ghost use Rattle.bergman_cli.specs.Module.{module_series_text};

use command_words::{Command, Job, Show};
use field_table::Field;
use ideal_laws::{DegreeEngine, Limits, Presentation, setting_law};
use job_steps::{Answer, InputProblem, Status};
use poly_writer::{degree_text, push_series};
use right_modules::{ModuleBasis, ModuleDegree, ModuleFault, module_basis};
use std::alloc::{AllocError, Global};
use std::thread::Threads;
use words::NoMemory;

/// The command `module`: the reduced basis of a right module and its coefficients, as far as the job shows them.
pub fn module_answer<R: Threads + Sync, E: DegreeEngine>(
    rt: &R,
    alloc: Global,
    job: &Job,
    engine: &mut E,
    field: &Field,
    given: &Presentation,
) -> Result<Answer, NoMemory>
    requires command { job.now.command ≡ Command.Module }
    requires asked { IsAsked job.now (E.kinds engine.old) field.now given.now }
    ensures { IfOk result (λ answer. IsModuleOutcome job.now given.now.alphabet given.now.relations answer.status
        answer.text) }
{
    let names = given.alphabet.len();
    if names < job.gens {
        let status = Status::Input(InputProblem::TooFewNames { names });
        return Ok(Answer::without_text(alloc, status));
    }
    setting_law(field, given);
    let limits = Limits::standard();
    match module_basis(
        rt, alloc, engine, field, given, job.gens, job.bound, &limits,
    ) {
        Ok(computed) => {
            let text = module_text(alloc, job, field, given, &computed)?;
            Ok(Answer::done(text))
        }
        Err(ModuleFault::Shape { relation }) => {
            let status = Status::Input(InputProblem::Shape { relation });
            Ok(Answer::without_text(alloc, status))
        }
        Err(
            ModuleFault::Limit {
                kind,
                degree,
                value,
            },
        ) => Ok(Answer::limit(alloc, kind, degree, value)),
        Err(ModuleFault::NoMemory) => Err(AllocError),
    }
}

/// The basis and the series, as far as the job shows them.
fn module_text(
    alloc: Global,
    job: &Job,
    field: &Field,
    given: &Presentation,
    computed: &ModuleBasis,
) -> Result<Vec<u8>, NoMemory>
    requires modulus { field.now ≡ job.now.modulus }
    requires degrees { AreModuleDegrees field.now given.now job.now.gens job.now.bound computed.now.degrees }
    requires numbers { AreModuleNumbers field.now given.now job.now.gens job.now.bound computed.now.numbers }
    ensures { IfOk result (λ text. IsModuleText job.now given.now.alphabet given.now.relations text.items) }
{
    let degrees = computed.degrees.as_slice();
    let numbers = computed.numbers.as_slice();
    match job.show {
        Show::Basis => basis_text(alloc, job, field, given, degrees),
        Show::Series => series_text(alloc, numbers),
        Show::Both => {
            let mut text = basis_text(alloc, job, field, given, degrees)?;
            let series = series_text(alloc, numbers)?;
            text.extend_from_slice(series.as_slice())?;
            Ok(text)
        }
    }
}

/// The elements of each degree.
fn basis_text(
    alloc: Global,
    job: &Job,
    field: &Field,
    given: &Presentation,
    degrees: &[ModuleDegree],
) -> Result<Vec<u8>, NoMemory>
    requires { AreModuleDegrees field.now given.now job.now.gens job.now.bound degrees.now }
    ensures { IfOk result (λ text. IsModuleBasisText field.now given.now.alphabet
        (free_of job.now given.now.alphabet) given.now.relations job.now.bound text.items) }
{
    let mut text = Vec::new(alloc);
    for part in degrees {
        let lines = degree_text(
            alloc,
            &given.alphabet,
            field,
            part.degree,
            part.elements.as_slice(),
        )?;
        text.extend_from_slice(lines.as_slice())?;
    }
    Ok(text)
}

/// The numbers of degrees 0, 1 and so on, each in a line behind its degree.
fn series_text(alloc: Global, numbers: &[u64]) -> Result<Vec<u8>, NoMemory>
    ensures { IfOk result (λ text. text.items ≡ module_series_text numbers.now) }
{
    let mut text = Vec::from_slice(alloc, b"% module series\n")?;
    push_series(&mut text, numbers)?;
    Ok(text)
}

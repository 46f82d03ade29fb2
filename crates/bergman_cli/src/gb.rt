ghost use Rattle.std.specs.Prelude.{◌≡◌, ◌≢◌, ℕ, List, All};
ghost use Rattle.free_poly.specs.Terms.{HasResidues};
ghost use Rattle.job_steps.specs.States.{state_of, teller_state};
ghost use Rattle.job_steps.specs.Statuses.{IsTaskEnd};
ghost use Rattle.job_steps.specs.Traces.{IsTaskTrace, Tells};
ghost use Rattle.bergman_cli.specs.Engines.{IsEngineOf, accounts_of, traces_of};
ghost use Rattle.bergman_cli.specs.Gb.{HasOneGbOutcome, gb_task, shows_basis, shows_series};
ghost use Rattle.bergman_cli.specs.Jobs.{IsSound};

use bg_io::Sink;
use command_words::{EngineKind, Job, Show};
use field_table::Field;
use ideal_laws::{DegreeEngine, Presentation, setting_law};
use job_steps::{Asked, PrintFault, Status, Teller, print_job};
use std::alloc::Global;
use std::thread::Threads;

/// The command `gb`: prints the basis degree by degree and then the series, as far as the job shows them.
pub fn run_gb<R: Threads + Sync, E: DegreeEngine, K: Sink, T: Sink>(
    rt: &R,
    alloc: Global,
    job: &Job,
    engine: &mut E,
    field: &Field,
    given: &Presentation,
    out: &mut K,
    teller: &mut Teller<'_, T>,
) -> Status
    requires engine { IsEngineOf job.now (E.kinds engine.old) (E.may_account engine.old) }
    requires modulus { field.now ≡ job.now.modulus }
    requires sound { IsSound job.now }
    requires residues { All (HasResidues field.now) given.now.relations }

    ensures end { IsTaskEnd (gb_task job.now given.now.alphabet given.now.relations) (state_of K.Sink out.old)
        (state_of K.Sink out.new) result }
    ensures writes { result ≢ Status.WriteFault → K.faults out.new ≡ K.faults out.old }
    ensures same_sink { teller.new.err.ghost_name ≡ teller.old.err.ghost_name }
    ensures told { (trace : List ℕ) × IsTaskTrace (accounts_of job.now) (traces_of job.now)
        (gb_task job.now given.now.alphabet given.now.relations) (state_of K.Sink out.old) (state_of K.Sink out.new)
        result trace
        × Tells (teller_state T.Sink teller.old) (teller_state T.Sink teller.new) trace }
{
    setting_law(field, given);
    let asked = asked_of(job);
    match print_job(rt, alloc, engine, field, given, asked, out, teller) {
        Ok(()) => Status::Done,
        Err(
            PrintFault::Limit {
                kind,
                degree,
                value,
            },
        ) => Status::Limit {
            kind,
            degree,
            value,
        },
        Err(PrintFault::WriteFault) => Status::WriteFault,
        Err(PrintFault::NoMemory) => Status::NoMemory,
    }
}

/// Each job on letters and relations has exactly one status with its text: what is printed is a function of these.
pub fn gb_law()
    ensures { HasOneGbOutcome }
{}

/// What the job shows.
fn asked_of(job: &Job) -> Asked
    ensures { result ≡ record {
      bound = job.now.bound;
      basis = shows_basis job.now.show;
      series = shows_series job.now.show;
      trace = traces_of job.now;
    } }
{
    let trace = traces(job);
    match job.show {
        Show::Basis => Asked {
            bound: job.bound,
            basis: true,
            series: false,
            trace,
        },
        Show::Series => Asked {
            bound: job.bound,
            basis: false,
            series: true,
            trace,
        },
        Show::Both => Asked {
            bound: job.bound,
            basis: true,
            series: true,
            trace,
        },
    }
}

/// Whether the accounts are told.
fn traces(job: &Job) -> bool
    ensures { result ≡ traces_of job.now }
{
    match job.engine {
        EngineKind::Race | EngineKind::Core => job.trace,
        EngineKind::Seq | EngineKind::Plain => false,
    }
}

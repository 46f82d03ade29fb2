ghost use Rattle.std.specs.Prelude.{◌≡◌, ◌≤◌, List, ℕ, Contains, IfOk, IsErrOf, length};
ghost use Rattle.free_poly.specs.declared.term.Term.{Term};
ghost use Rattle.ideal_laws.specs.Closure.{IsFactorFree};
ghost use Rattle.ideal_laws.specs.Engine.{IsReducedUpto};
ghost use Rattle.ideal_laws.specs.Ideal.{IsMinimal, ideal_over};
ghost use Rattle.ideal_laws.specs.Laws.{IsSetting};
ghost use Rattle.anick_chains.specs.BasisTips.{leads_of};
ghost use Rattle.anick_chains.specs.Listing.{IsFirstMany};
ghost use Rattle.bergman_cli.specs.Chains.{HasChainText, IsChainsOutcome, most_chains};
ghost use Rattle.bergman_cli.specs.Jobs.{IsAsked};

use anick_chains::{ChainFault, chain_counts, chain_laws, chain_text, chains, count_text};
use command_words::Job;
use field_table::Field;
use ideal_laws::{Basis, DegreeEngine, Presentation, lower_law, run, setting_law};
use job_steps::{Answer, Status};
use std::alloc::{AllocError, Global};
use std::thread::Threads;
use words::{Alphabet, NoMemory};

/// So many chains are listed at most.
const MOST_CHAINS: u32 = 1_048_576;

/// The command `chains`: the chain text of the chains over the minimal words.
pub fn chains_answer<R: Threads + Sync, E: DegreeEngine>(
    rt: &R,
    alloc: Global,
    job: &Job,
    engine: &mut E,
    field: &Field,
    given: &Presentation,
) -> Result<Answer, NoMemory>
    requires { IsAsked job.now (E.kinds engine.old) field.now given.now }
    ensures { IfOk result (λ answer. IsChainsOutcome job.now given.now.alphabet given.now.relations answer.status
        answer.text) }
{
    setting_law(field, given);
    lower_law();
    chain_laws();
    let basis = match run(rt, alloc, engine, field, given, job.bound) {
        Ok(basis) => basis,
        Err(fault) => return Answer::stopped(alloc, fault),
    };
    match chain_lines(alloc, job, &given.alphabet, &basis) {
        Ok(text) => Ok(Answer::done(text)),
        Err(ChainFault::TooMany { degree }) => {
            let value = u64::from(MOST_CHAINS) + 1;
            Ok(Answer::without_text(alloc, Status::Chains { degree, value }))
        }
        Err(ChainFault::NoMemory) => Err(AllocError),
    }
}

/// The chain text of the chains over the leading words of the basis, which are listed only where the list is printed.
fn chain_lines(
    alloc: Global,
    job: &Job,
    alphabet: &Alphabet,
    basis: &Basis,
) -> Result<Vec<u8>, ChainFault>
    requires done { job.now.bound ≤ basis.now.done }
    requires weights { basis.now.weights ≡ alphabet.now.weights }
    requires factor_free { IsFactorFree basis.now.elements }

    ensures printed { IfOk result (λ text.
        (p : ℕ) (relations : List (List Term)) → IsSetting (ideal_over p basis.now.weights relations)
        → IsReducedUpto p relations basis.now
        → HasChainText (IsMinimal (ideal_over p basis.now.weights relations)) alphabet.now job.now text.items) }
    ensures many { (degree : ℕ) → IsErrOf result (ChainFault.TooMany degree)
        → IsFirstMany (Contains (leads_of basis.now.elements)) (length basis.now.weights) basis.now.weights
        job.now.bound
        most_chains degree }
{
    if job.list {
        let found = chains(alloc, alphabet, basis, job.bound, MOST_CHAINS)?;
        return Ok(chain_text(alloc, alphabet, found.as_slice(), true)?);
    }
    let counts = chain_counts(alloc, alphabet, basis, job.bound, MOST_CHAINS)?;
    Ok(count_text(alloc, counts.as_slice())?)
}

ghost use Rattle.std.specs.Prelude.{◌≡◌, IfOk, map};
ghost use Rattle.pivot_core.specs.History.{merged};
ghost use Rattle.degree_loop.specs.Accounts.{crew_of};

use ideal_laws::Call;
use pivot_core::merge;
use std::alloc::Global;
use words::{Items, NoMemory};

/// The crew of a degree of so many rows.
pub(crate) fn crew_for(workers: u32, rows: u32) -> u32
    ensures { result ≡ crew_of workers rows }
{
    workers.min(rows).max(1)
}

/// All calls, by rising stamp and then by rising seat.
pub(crate) fn merged_calls(alloc: Global, logs: &[Vec<Call>]) -> Result<Items<Call>, NoMemory>
    ensures { IfOk result (λ calls. calls ≡ merged (map (λ log. log.items) logs.now)) }
{
    let history = merge(alloc, logs)?;
    let calls = Vec::from_slice(alloc, history.calls())?;
    Ok(Items::from_vec(calls))
}

ghost use Rattle.std.specs.Prelude.{◌≡◌, ◌≤◌};
ghost use Rattle.ideal_laws.specs.Ideal.{ideal_of};
ghost use Rattle.ideal_laws.specs.Limits.{AreLimits};

use crate::calls::{crew_for, merged_calls};
use crate::degree::degree_by;
use crate::finder::PivotFinder;
use back_reduce::Problem;
use bg_io::PlannedGate;
use field_table::Field;
use ideal_laws::{Basis, Call, DegreeEngine, DegreeReport, EngineFault, Limits, Presentation};
use pivot_table::Finish;
use row_worker::raced_pivots;
use std::alloc::Global;
use std::thread::Threads;
use words::{Items, NoMemory};

/// The matrix engine whose pivots workers find that run at once, each claiming columns for its rows. Each passes the
/// gate before and after each claim.
#[derive(Drop)]
pub struct RaceEngine<'a> {
    pub limits: Limits,
    pub workers: u32,
    pub gate: &'a PlannedGate,
    pub ghost are_limits: { AreLimits limits },
    pub ghost some: { 1 ≤ workers },
    pub ghost few: { workers ≤ 64 },
}

impl<'a> RaceEngine<'a> {
    pub fn new(limits: Limits, workers: u32, gate: &'a PlannedGate) -> RaceEngine<'a>
        requires limits { AreLimits limits }
        requires some { 1 ≤ workers }
        requires few { workers ≤ 64 }
        ensures limits { result.limits ≡ limits }
        ensures workers { result.workers ≡ workers }
    {
        RaceEngine {
            limits,
            workers,
            gate,
        }
    }
}

impl<'a> DegreeEngine for RaceEngine<'a> {
    ghost use Rattle.degree_loop.specs.Accounts.{IsRunAccount};
    ghost use Rattle.degree_loop.specs.Limits.{engine_limits};

    ghost kinds = { λ engine. engine_limits engine.limits };

    ghost may_account = { λ engine p given below d account.
        IsRunAccount engine.workers (ideal_of p given) below.elements d account };

    fn degree<R: Threads + Sync>(
        &mut self,
        rt: &R,
        alloc: Global,
        field: &Field,
        presentation: &Presentation,
        below: &Basis,
        d: u32,
    ) -> Result<DegreeReport, EngineFault> {
        degree_by(rt, alloc, field, presentation, below, d, &self.limits, self)
    }
}

impl<'a> PivotFinder for RaceEngine<'a> {
    ghost use Rattle.degree_loop.specs.Accounts.{AreRunCalls};

    type Found = Finish;

    ghost tells = { λ engine. AreRunCalls engine.workers };

    fn find<R: Threads + Sync>(
        &self,
        rt: &R,
        alloc: Global,
        field: &Field,
        problem: Problem,
    ) -> Result<(Finish, Items<Call>), NoMemory> {
        let crew = crew_for(self.workers, problem.n);
        let pivots = raced_pivots(rt, alloc, field, problem, crew, self.gate)?;
        let calls = merged_calls(alloc, pivots.logs())?;
        Ok((pivots, calls))
    }
}

ghost use Rattle.std.specs.Prelude.{◌≡◌, ◌≤◌};
ghost use Rattle.ideal_laws.specs.Ideal.{ideal_of};
ghost use Rattle.ideal_laws.specs.Limits.{AreLimits};

use crate::calls::{crew_for, merged_calls};
use crate::degree::degree_by;
use crate::finder::PivotFinder;
use crate::schedule::scheduled_pivots;
use back_reduce::Problem;
use field_table::Field;
use ideal_laws::{Basis, Call, DegreeEngine, DegreeReport, EngineFault, Limits, Presentation};
use pivot_core::CorePivots;
use std::alloc::Global;
use std::thread::Threads;
use words::{Items, NoMemory};

/// The matrix engine whose pivots the machine of claims finds on one thread, where a generator chooses the seat of each
/// step. In each degree it begins with `schedule`.
#[derive(Debug, Drop)]
pub struct CoreEngine {
    pub limits: Limits,
    pub workers: u32,
    pub schedule: u32,
    pub ghost are_limits: { AreLimits limits },
    pub ghost some: { 1 ≤ workers },
    pub ghost few: { workers ≤ 64 },
}

impl CoreEngine {
    pub fn new(limits: Limits, workers: u32, schedule: u32) -> CoreEngine
        requires limits { AreLimits limits }
        requires some { 1 ≤ workers }
        requires few { workers ≤ 64 }
        ensures limits { result.limits ≡ limits }
        ensures workers { result.workers ≡ workers }
        ensures schedule { result.schedule ≡ schedule }
    {
        CoreEngine {
            limits,
            workers,
            schedule,
        }
    }
}

impl DegreeEngine for CoreEngine {
    ghost use Rattle.degree_loop.specs.Accounts.{IsCoreAccount};
    ghost use Rattle.degree_loop.specs.Limits.{engine_limits};

    ghost kinds = { λ engine. engine_limits engine.limits };

    ghost may_account = { λ engine p given below d account. IsCoreAccount engine.workers engine.schedule
        (ideal_of p given) below.elements d account };

    fn degree<R: Threads + Sync>(
        &mut self,
        rt: &R,
        alloc: Global,
        field: &Field,
        presentation: &Presentation,
        below: &Basis,
        d: u32,
    ) -> Result<DegreeReport, EngineFault> {
        degree_by(rt, alloc, field, presentation, below, d, &self.limits, self)
    }
}

impl PivotFinder for CoreEngine {
    ghost use Rattle.degree_loop.specs.Accounts.{AreScheduledCalls};

    type Found = CorePivots;

    ghost tells = { λ engine. AreScheduledCalls engine.workers engine.schedule };

    fn find<R: Threads + Sync>(
        &self,
        _rt: &R,
        alloc: Global,
        field: &Field,
        problem: Problem,
    ) -> Result<(CorePivots, Items<Call>), NoMemory> {
        let crew = crew_for(self.workers, problem.n);
        let pivots = scheduled_pivots(alloc, field, problem, crew, self.schedule)?;
        let calls = merged_calls(alloc, pivots.logs())?;
        Ok((pivots, calls))
    }
}

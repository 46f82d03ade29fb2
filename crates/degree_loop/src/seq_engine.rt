ghost use Rattle.std.specs.Prelude.{◌≡◌};
ghost use Rattle.ideal_laws.specs.Ideal.{ideal_of};
ghost use Rattle.ideal_laws.specs.Limits.{AreLimits};

use crate::degree::degree_by;
use crate::finder::PivotFinder;
use back_reduce::{Problem, SeqPivots, eliminate};
use field_table::Field;
use ideal_laws::{Basis, Call, DegreeEngine, DegreeReport, EngineFault, Limits, Presentation};
use std::alloc::Global;
use std::thread::Threads;
use words::{Items, NoMemory};

/// The matrix engine whose pivots one thread finds by elimination. It makes no calls.
#[derive(Debug, Drop)]
pub struct SeqEngine {
    pub limits: Limits,
    pub ghost are_limits: { AreLimits limits },
}

impl SeqEngine {
    pub fn new(limits: Limits) -> SeqEngine
        requires { AreLimits limits }
        ensures { result.limits ≡ limits }
    {
        SeqEngine { limits }
    }
}

impl DegreeEngine for SeqEngine {
    ghost use Rattle.degree_loop.specs.Accounts.{IsSeqAccount};
    ghost use Rattle.degree_loop.specs.Limits.{engine_limits};

    ghost kinds = { λ engine. engine_limits engine.limits };

    ghost may_account = { λ _ p given below d account. IsSeqAccount (ideal_of p given) below.elements d account };

    fn degree<R: Threads + Sync>(
        &mut self,
        rt: &R,
        alloc: Global,
        field: &Field,
        presentation: &Presentation,
        below: &Basis,
        d: u32,
    ) -> Result<DegreeReport, EngineFault> {
        degree_by(rt, alloc, field, presentation, below, d, &self.limits, self)
    }
}

impl PivotFinder for SeqEngine {
    ghost use Rattle.degree_loop.specs.Accounts.{AreNoCalls};

    type Found = SeqPivots;

    ghost tells = { λ _. AreNoCalls };

    fn find<R: Threads + Sync>(
        &self,
        _rt: &R,
        alloc: Global,
        field: &Field,
        problem: Problem,
    ) -> Result<(SeqPivots, Items<Call>), NoMemory> {
        let pivots = eliminate(alloc, field, problem)?;
        Ok((pivots, Items::from_vec(Vec::new(alloc))))
    }
}

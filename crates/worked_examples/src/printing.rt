use crate::presented::{presented, residues};
use bg_io::{FixedSink, MemorySink};
use field_table::Field;
use ideal_laws::{Basis, DegreeEngine, DegreeReport, EngineFault, Limits, Presentation};
use job_steps::{Asked, PrintFault, Teller, print_job};
use plain_engine::PlainEngine;
use std::alloc::Global;
use std::test::Fail;
use std::thread::Threads;

/// An engine that has no memory from a degree on.
#[derive(Drop)]
struct Stopping<E> {
    inner: E,
    from: u32,
}

impl<E: DegreeEngine> DegreeEngine for Stopping<E> {
    ghost kinds = { λ engine. E.kinds engine.inner };

    ghost may_account = { λ engine. E.may_account engine.inner };

    fn degree<R: Threads + Sync>(
        &mut self,
        rt: &R,
        alloc: Global,
        field: &Field,
        presentation: &Presentation,
        below: &Basis,
        d: u32,
    ) -> Result<DegreeReport, EngineFault> {
        if d >= self.from {
            return Err(EngineFault::NoMemory);
        }
        self.inner.degree(rt, alloc, field, presentation, below, d)
    }
}

/// With x for z this is the algebra of x^2 - y*x, which has an element in each degree from 2 on.
#[test]
fn a_degree_is_printed_before_the_next_one_is_asked_for(rt: HostRuntime) -> Result<(), Fail> {
    let alloc = rt.alloc();
    let field = residues(&rt, alloc, 101)?;
    let given = presented(&rt, alloc, &field, "vars z,x,y; z-x, x^2-y*x;")?;
    let asked = Asked {
        bound: 3,
        basis: true,
        series: false,
        trace: false,
    };
    for (from, printed, answer) in [
        (1, "", Err(PrintFault::NoMemory)),
        (2, "% 1\nz-x\n", Err(PrintFault::NoMemory)),
        (3, "% 1\nz-x\n% 2\nx^2-y*x\n", Err(PrintFault::NoMemory)),
        (4, "% 1\nz-x\n% 2\nx^2-y*x\n% 3\nx*y*x-y^2*x\n", Ok(())),
    ] {
        let mut engine = Stopping {
            inner: PlainEngine::new(Limits::standard()),
            from,
        };
        let mut out = MemorySink::new(alloc, 3, Vec::new(alloc));
        let mut err = FixedSink::new(alloc, 0)?;
        let mut teller = Teller {
            err: &mut err,
            failed: false,
        };
        let ended = print_job(
            &rt,
            alloc,
            &mut engine,
            &field,
            &given,
            asked,
            &mut out,
            &mut teller,
        );
        assert_eq!(rt; ended, answer, "no memory from degree {from} on");
        assert_eq!(rt;
            out.held(),
            printed.as_bytes(),
            "no memory from degree {from} on"
        );
    }
    Ok(())
}

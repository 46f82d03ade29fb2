ghost use Rattle.std.specs.Prelude.{◌≡◌, ◌≤◌, IfOk, min};
ghost use Rattle.std.specs.Vec.{vec_capacity};
ghost use Rattle.pivot_core.specs.Views.{fresh, sight_of};

use crate::NoMemory;
use back_reduce::Problem;
use ideal_laws::Call;
use std::alloc::Global;

/// What a view is doing.
#[derive(Debug, Clone, Copy, PartialEq, Eq)]
pub enum Phase {
    Fresh,
    Looking {
        row: u32,
        column: u32,
    },
    Putting {
        row: u32,
        column: u32,
        at: u32,
    },
    Claiming {
        row: u32,
        column: u32,
    },
    Reading {
        row: u32,
        column: u32,
        holder: u32,
        at: u32,
    },
    Ended,
}

/// What a seat knows.
#[derive(Debug, Drop)]
pub struct View {
    pub seat: u32,
    pub phase: Phase,
    pub current: Vec<u32>,
    pub seen: Vec<u32>,
    pub clock: u32,
    pub drawn: u32,
    pub steps: u64,
    pub calls: Vec<Call>,
}

impl View {
    /// The view of a seat before its first step, with room for all calls that it will make.
    pub fn fresh(alloc: Global, problem: &Problem, seat: u32) -> Result<View, NoMemory>
        ensures view { IfOk result (λ v. sight_of v ≡ fresh problem.now.m seat) }
        ensures room { IfOk result (λ v. min problem.now.n problem.now.m ≤ vec_capacity v.calls) }
    {
        let m = problem.m as usize;
        let most = if problem.n < problem.m {
            problem.n
        } else {
            problem.m
        };
        Ok(View {
            seat,
            phase: Phase::Fresh,
            current: vec![in alloc; 0; m]?,
            seen: vec![in alloc; 0; m]?,
            clock: 0,
            drawn: 0,
            steps: 0,
            calls: Vec::with_capacity(alloc, most as usize)?,
        })
    }
}

ghost use Rattle.std.specs.Prelude.{◌≡◌, ◌≢◌, ◌-◌, ◌^◌, ◌<◌, ◌≤◌};
ghost use Rattle.pivot_core.specs.declared.view.Phase.TheVariants as phase;
ghost use Rattle.pivot_core.specs.Meets.{LeavesWord, MayMeet};
ghost use Rattle.pivot_core.specs.Phases.{IsPhase};
ghost use Rattle.pivot_core.specs.Steps.{is_next, spot_of};
ghost use Rattle.pivot_core.specs.Views.{sight_of};
ghost use Rattle.pivot_core.specs.Words.{claim_word, index_of, row_word};

use crate::event::Kind;
use crate::view::{Phase, View};
use back_reduce::Problem;

/// Whether a step of this kind is the next of a view in this phase.
pub fn comes_next(kind: Kind, phase: Phase) -> bool
    ensures { result ≡ is_next kind phase }
{
    match (kind, phase) {
        (Kind::Draw, Phase::Fresh) => true,
        (Kind::Look, Phase::Looking { .. }) => true,
        (Kind::Put, Phase::Putting { .. }) => true,
        (Kind::Claim, Phase::Claiming { .. }) => true,
        (Kind::Read, Phase::Reading { .. }) => true,
        _ => false,
    }
}

pub(crate) fn row_word_at(problem: &Problem, row: u32, at: u32) -> usize
    requires row { row < problem.now.n }
    requires at { at < problem.now.m }
    ensures { result ≡ index_of problem.now.m (row_word row at) }
{
    let m = problem.m as usize;
    1 + m + row as usize * m + at as usize
}

/// The index of the word that the next step of a view in this phase meets.
pub fn word_met(problem: &Problem, phase: Phase) -> usize
    requires { IsPhase problem.now.m problem.now.n phase }
    ensures { result ≡ index_of problem.now.m (spot_of phase) }
{
    match phase {
        Phase::Fresh => 0,
        Phase::Looking { column, .. } => 1 + column as usize,
        Phase::Putting { row, at, .. } => row_word_at(problem, row, at),
        Phase::Claiming { column, .. } => 1 + column as usize,
        Phase::Reading { holder, at, .. } => row_word_at(problem, holder, at),
        Phase::Ended => 0,
    }
}

fn claim_word_of(stamp: u32, row: u32) -> u64
    requires { row < 4294967295 }
    ensures { result ≡ claim_word stamp row }
{
    u64::from(stamp) * 4294967296 + u64::from(row) + 1
}

impl View {
    /// The word that the next step of the view leaves in place of the one that it meets.
    pub fn word_left(&self, problem: &Problem, old: u64) -> u64
        requires may { MayMeet problem.now (sight_of self.now) old }
        requires count { self.now.phase ≡ phase.Fresh → old < 2 ^ 64 - 1 }
        ensures { LeavesWord problem.now (sight_of self.now) old result }
    {
        let _rows = problem.n;
        match self.phase {
            Phase::Fresh => old + 1,
            Phase::Looking { .. } => old,
            Phase::Putting { at, .. } => u64::from(self.current[at as usize]),
            Phase::Claiming { row, .. } => {
                if old == 0 {
                    return claim_word_of(self.clock + 1, row);
                }
                old
            }
            Phase::Reading { .. } => old,
            Phase::Ended => old,
        }
    }
}

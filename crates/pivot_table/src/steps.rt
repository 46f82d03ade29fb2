ghost use Rattle.std.specs.Prelude.{◌≡◌, ℕ, MatchOption, None, Some, true};
ghost use Rattle.pivot_core.specs.declared.event.Kind.TheVariants as kind;
ghost use Rattle.pivot_core.specs.declared.event.Reply.TheVariants as reply;
ghost use Rattle.pivot_core.specs.Steps.{is_next};
ghost use Rattle.pivot_table.specs.Workers.{IsOf, IsTaken};

use crate::cells::{cell_met, half_told, pair_told};
use crate::law::{Meets, Puts};
use crate::race::Race;
use crate::worker::Worker;
use ideal_laws::Answer;
use pivot_core::{Phase, Reply, clear};

/// Who holds a column, and since which stamp.
#[derive(Debug, Clone, Copy, PartialEq, Eq)]
pub struct Holder {
    pub row: u32,
    pub stamp: u32,
}

impl Race {
    /// Draws the next row, and none where all are drawn.
    pub fn draw(&self, worker: &mut Worker) -> Option<u32>
        requires same { IsOf self.now worker.old }
        requires next { is_next kind.Draw worker.old.sight.phase ≡ true }
        ensures same { IsOf self.now worker.new }
        ensures seat { worker.new.sight.seat ≡ worker.old.sight.seat }
        ensures taken { IsTaken self.now worker.old worker.new (reply.Drew result) }
    {
        let problem = &self.setting.problem;
        let old = self.table.shared.fetch_add::<Meets>(&mut worker.seat, 0, 1);
        clear(worker.published.as_mut_slice());
        match worker.view.met(&self.field, problem, old) {
            Reply::Drew(row) => row,
            _ => None,
        }
    }

    /// Looks who holds the column of the worker's row.
    pub fn look(&self, worker: &mut Worker) -> Option<Holder>
        requires same { IsOf self.now worker.old }
        requires next { is_next kind.Look worker.old.sight.phase ≡ true }
        ensures same { IsOf self.now worker.new }
        ensures seat { worker.new.sight.seat ≡ worker.old.sight.seat }
        ensures taken { MatchOption result
            (IsTaken self.now worker.old worker.new reply.Free)
            (λ h. IsTaken self.now worker.old worker.new (reply.Held h.row h.stamp)) }
    {
        let problem = &self.setting.problem;
        let at = cell_met(problem, worker.view.phase);
        let old = self.table.shared.load::<Meets>(&mut worker.seat, at);
        match worker.view.met(&self.field, problem, old) {
            Reply::Held { row, stamp } => Some(Holder { row, stamp }),
            _ => None,
        }
    }

    /// Publishes the next word of the worker's row.
    pub fn put(&self, worker: &mut Worker)
        requires same { IsOf self.now worker.old }
        requires next { is_next kind.Put worker.old.sight.phase ≡ true }
        ensures same { IsOf self.now worker.new }
        ensures seat { worker.new.sight.seat ≡ worker.old.sight.seat }
        ensures taken { IsTaken self.now worker.old worker.new reply.Stored }
    {
        let problem = &self.setting.problem;
        let cell = cell_met(problem, worker.view.phase);
        if let Phase::Putting { at, .. } = worker.view.phase {
            worker.published[at as usize] = worker.view.current[at as usize];
            let new = pair_told(worker.published.as_slice(), at);
            self.table.shared.store::<Puts>(&mut worker.seat, cell, new);
            worker.view.met(&self.field, problem, 0);
        }
    }

    /// Claims the column of the worker's row.
    pub fn claim(&self, worker: &mut Worker) -> Answer
        requires same { IsOf self.now worker.old }
        requires next { is_next kind.Claim worker.old.sight.phase ≡ true }
        ensures same { IsOf self.now worker.new }
        ensures seat { worker.new.sight.seat ≡ worker.old.sight.seat }
        ensures taken { IsTaken self.now worker.old worker.new (reply.Claimed result) }
    {
        let problem = &self.setting.problem;
        let at = cell_met(problem, worker.view.phase);
        let new = worker.view.word_left(problem, 0);
        let old = self
            .table
            .shared
            .compare_exchange::<Meets>(&mut worker.seat, at, 0, new);
        match worker.view.met(&self.field, problem, old) {
            Reply::Claimed(answer) => answer,
            _ => Answer::Won,
        }
    }

    /// Reads the next word of the row that holds the column.
    pub fn read_word(&self, worker: &mut Worker) -> u32
        requires same { IsOf self.now worker.old }
        requires next { is_next kind.Read worker.old.sight.phase ≡ true }
        ensures same { IsOf self.now worker.new }
        ensures seat { worker.new.sight.seat ≡ worker.old.sight.seat }
        ensures taken { IsTaken self.now worker.old worker.new (reply.Got result) }
    {
        let problem = &self.setting.problem;
        let cell = cell_met(problem, worker.view.phase);
        if let Phase::Reading { at, .. } = worker.view.phase {
            let old = self.table.shared.load::<Meets>(&mut worker.seat, cell);
            let word = half_told(at, old);
            worker.view.met(&self.field, problem, u64::from(word));
            return word;
        }
        0
    }
}

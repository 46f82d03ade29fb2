ghost use Rattle.std.specs.Prelude.{◌≡◌, ◌⊎◌, ◌+◌, ◌%◌, ◌≤◌, true, false};
ghost use Rattle.pivot_core.specs.declared.event.Kind.TheVariants as kind;
ghost use Rattle.pivot_core.specs.Steps.{is_next};
ghost use Rattle.pivot_table.specs.Workers.{AreTaken, IsOf, IsReadUpto};

use crate::cells::{half_told, row_cell};
use crate::law::Meets;
use crate::race::Race;
use crate::worker::Worker;
use pivot_core::Phase;

impl Race {
    /// Reads the rest of the row that holds the column. Each of its words is a step.
    pub fn read_row(&self, worker: &mut Worker)
        requires same { IsOf self.now worker.old }
        requires next { is_next kind.Read worker.old.sight.phase ≡ true }
        ensures same { IsOf self.now worker.new }
        ensures seat { worker.new.sight.seat ≡ worker.old.sight.seat }
        ensures taken { AreTaken self.now worker.old worker.new }
        ensures read { is_next kind.Read worker.new.sight.phase ≡ false }
    {
        self.read_on(worker);
        self.read_word(worker);
    }

    /// Reads the row that holds the column up to its last word. Of the view only the words seen are written at each
    /// step, and its phase and steps at the end. From an even column on, the two words of a cell are read in turn, so
    /// that no step has to ask which half it takes.
    fn read_on(&self, worker: &mut Worker)
        requires same { IsOf self.now worker.old }
        requires next { is_next kind.Read worker.old.sight.phase ≡ true }
        ensures same { IsOf self.now worker.new }
        ensures seat { worker.new.sight.seat ≡ worker.old.sight.seat }
        ensures taken { (worker.new ≡ worker.old) ⊎ AreTaken self.now worker.old worker.new }
        ensures last { IsReadUpto self.now.problem.m worker.new.sight.phase }
    {
        let problem = &self.setting.problem;
        if let Phase::Reading {
            row,
            column,
            holder,
            at,
        } = worker.view.phase
        {
            let last = problem.m - 1;
            let first = row_cell(problem, holder, 0);
            let even = even_from(at, last);
            for next in at..even {
                let cell = first + next as usize / 2;
                let old = self.table.shared.load::<Meets>(&mut worker.seat, cell);
                worker.view.seen[next as usize] = half_told(next, old);
            }
            for pair in even / 2..last / 2 {
                let cell = first + pair as usize;
                let low = self.table.shared.load::<Meets>(&mut worker.seat, cell);
                worker.view.seen[2 * pair as usize] = half_told(2 * pair, low);
                let high = self.table.shared.load::<Meets>(&mut worker.seat, cell);
                worker.view.seen[2 * pair as usize + 1] = half_told(2 * pair + 1, high);
            }
            for next in even.max(last / 2 * 2)..last {
                let cell = first + next as usize / 2;
                let old = self.table.shared.load::<Meets>(&mut worker.seat, cell);
                worker.view.seen[next as usize] = half_told(next, old);
            }
            worker.view.phase = Phase::Reading {
                row,
                column,
                holder,
                at: last,
            };
            worker.view.steps += u64::from(last - at);
        }
    }
}

/// The first even column from here on, but at most the last.
fn even_from(at: u32, last: u32) -> u32
    requires { at ≤ last }
    ensures from { at ≤ result }
    ensures upto { result ≤ last }
    ensures even { (result % 2 ≡ 0) ⊎ (result ≡ last) }
{
    if at % 2 == 1 && at < last {
        return at + 1;
    }
    at
}
